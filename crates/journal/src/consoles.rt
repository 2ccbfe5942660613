ghost use Rattle.std.specs.Prelude.{◌≡◌, ◌++◌, IfOk, OnOk, flat_map};
ghost use Rattle.rt_plain.specs.text.Texts.{printed_by, console_of};

use crate::Journal;
use rt_base::List;
use rt_plain::Line;
use std::alloc::{AllocError, Global};

// Adds what a line prints.
fn put_line(out: &mut List<u8>, line: &Line) -> Result<(), AllocError>
    ensures { OnOk result (out.new ≡ out.old ++ printed_by line.now) }
{
    match line {
        Line::Print(text) => out.extend_from_slice(text.bytes()),
        _ => Ok(()),
    }
}

// Adds what lines print, one after the other.
pub(crate) fn put_printed(out: &mut List<u8>, lines: &[Line]) -> Result<(), AllocError>
    ensures { OnOk result (out.new ≡ out.old ++ flat_map printed_by lines.now) }
{
    for line in lines {
        put_line(out, line)?;
    }
    Ok(())
}

/// The console: the bytes of all `print` lines, in order. The one refusal is want of memory.
pub fn console(alloc: Global, journal: &Journal) -> Result<List<u8>, AllocError>
    ensures { IfOk result (λ bytes. bytes ≡ console_of journal.now.entries) }
{
    let mut out = List::new(alloc);
    journal.put_console(&mut out)?;
    Ok(out)
}
