//! The commands.
ghost use Rattle.std.specs.Prelude.{◌≡◌, ◌+◌, ◌≤◌, ◌++◌, [], ◌∷◌, length, map};
ghost use Rattle.std.specs.List.{find};
ghost use Rattle.std.specs.Str.{bytes_eq};
ghost use Rattle.std.specs.Option.{option_map};
ghost use Rattle.rt_plain.specs.declared.line.Line.{Line as Printed};
ghost use Rattle.rt_plain.specs.kernel.Tables.{table, commands, printed_pieces};
ghost use Rattle.finsh.specs.Commands.{deed_of, row_of};

use crate::printing::{dump_power, list, print, put_name, put_unknown};
use rt_base::Class;
use rt_plain::{Lines, View};

/// What a command does.
#[derive(Clone, Copy)]
pub(crate) enum Deed {
    Lists(Class),
    DumpsPower,
    TellsVersion,
    Helps,
}

/// A command's name, and what it does.
#[derive(Clone, Copy)]
pub(crate) struct Named(&'static [u8], Deed);

// The commands, in the order in which `help` prints them.
fn commands() -> &'static [Named]
    ensures { map row_of result.now ≡ commands }
{
    &[
        Named(b"list_thread", Deed::Lists(Class::Thread)),
        Named(b"ps", Deed::Lists(Class::Thread)),
        Named(b"list_sem", Deed::Lists(Class::Sem)),
        Named(b"list_event", Deed::Lists(Class::Event)),
        Named(b"list_mutex", Deed::Lists(Class::Mutex)),
        Named(b"list_mailbox", Deed::Lists(Class::Mailbox)),
        Named(b"list_msgqueue", Deed::Lists(Class::MsgQueue)),
        Named(b"list_timer", Deed::Lists(Class::Timer)),
        Named(b"list_device", Deed::Lists(Class::Device)),
        Named(b"pm_dump", Deed::DumpsPower),
        Named(b"version", Deed::TellsVersion),
        Named(b"help", Deed::Helps),
    ]
}

// What the command of a line does, if the line is one.
fn found(line: &[u8]) -> Option<Deed>
    ensures { option_map deed_of result ≡ option_map (λ row. row.command) (find (λ row. bytes_eq row.name line.now) commands) }
{
    for named in commands() {
        if named.0 == line {
            return Some(named.1);
        }
    }
    None
}

// The names of all commands.
fn help(out: &mut Lines)
    requires room { length out.old.items + 12 ≤ out.old.room }
    ensures items { out.new.items ≡ out.old.items ++ map (λ row. Printed.Print (row.name ++ 10 ∷ [])) commands }
    ensures few { length out.new.items ≤ length out.old.items + 12 }
    ensures room { out.new.room ≡ out.old.room }
{
    for named in commands() {
        put_name(out, named.0);
    }
}

// Prints what a command prints.
fn perform<V: View>(out: &mut Lines, deed: Deed, view: &V)
    requires room { length out.old.items + 257 ≤ out.old.room }
    ensures items { out.new.items ≡ out.old.items ++ map (λ piece. Printed.Print piece) (printed_pieces (deed_of deed) (record { rows = V.rows view.now; votes = V.votes_for view.now; mode = V.mode_of view.now })) }
    ensures few { length out.new.items ≤ length out.old.items + 257 }
    ensures room { out.new.room ≡ out.old.room }
{
    match deed {
        Deed::Lists(class) => list(out, class, view),
        Deed::DumpsPower => dump_power(out, view),
        Deed::TellsVersion => print(out, b"rtsim 1, profile of RT-Thread 5\n"),
        Deed::Helps => help(out),
    }
}

/// Prints what a command line shows of a view: the table of a class (`list_thread` or `ps`, `list_sem`, `list_event`,
/// `list_mutex`, `list_mailbox`, `list_msgqueue`, `list_timer`, `list_device`), the votes (`pm_dump`), the version
/// (`version`), or the commands (`help`). Another line is printed with a note, and an empty one prints nothing. The
/// line has at most 40 bytes, and there is room for 300 lines. It takes no memory, and adds at most 257 lines. The commands, their texts and the
/// layout of the tables are this project's own.
pub fn command<V: View>(line: &[u8], view: &V, out: &mut Lines)
    requires short { length line.now ≤ 40 }
    requires room { length out.old.items + 300 ≤ out.old.room }
    ensures items { out.new.items ≡ out.old.items ++ map (λ piece. Printed.Print piece) (table line.now (record { rows = V.rows view.now; votes = V.votes_for view.now; mode = V.mode_of view.now })) }
    ensures few { length out.new.items ≤ length out.old.items + 257 }
    ensures room { out.new.room ≡ out.old.room }
{
    match found(line) {
        Some(deed) => perform(out, deed, view),
        None => put_unknown(out, line),
    }
}
