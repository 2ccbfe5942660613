//! What the commands print.
ghost use Rattle.std.specs.Prelude.{◌≡◌, ◌+◌, ◌≤◌, ◌<◌, ◌++◌, [], ◌∷◌, length, map, codes, decimal, IsTrue};
ghost use Rattle.rt_plain.specs.declared.line.Line.{Line as Printed};
ghost use Rattle.rt_plain.specs.kernel.Tables.{table_line, texts, class_table, power_columns, power_table, unknown_pieces};
ghost use Rattle.rt_plain.specs.text.Words.{words, sleep_text};
ghost use Rattle.rt_plain.specs.kernel.PowerCalls.{sleep_modes};
ghost use Rattle.finsh.specs.Cells.{column_of, rooms, fits};

use crate::cells::{Cell, mode};
use crate::columns::{Column, columns, power_columns};
use crate::pieces::Piece;
use crate::rows::put_row;
use crate::tables::{put_line, put_titles};
use rt_base::{Class, Sleep};
use rt_plain::{Lines, View};

// Prints a piece of one part.
pub(crate) fn print(out: &mut Lines, bytes: &[u8])
    requires some { 1 ≤ length bytes.now }
    requires short { length bytes.now ≤ 64 }
    requires room { length out.old.items < out.old.room }
    ensures items { out.new.items ≡ out.old.items ++ Printed.Print bytes.now ∷ [] }
    ensures room { out.new.room ≡ out.old.room }
{
    let mut piece = Piece::new();
    piece.put(bytes);
    piece.print(out);
}

// A line for each object of a class.
fn put_rows<V: View>(out: &mut Lines, columns: &[Column], class: Class, view: &V)
    requires columns { IsTrue (fits rooms (map (λ c. c.width) (map column_of columns.now))) }
    requires room { length out.old.items + 256 ≤ out.old.room }
    ensures items { out.new.items ≡ out.old.items ++ map (λ piece. Printed.Print piece) (map (λ row. table_line (map column_of columns.now) (texts row)) (V.rows view.now class)) }
    ensures few { length out.new.items ≤ length out.old.items + 256 }
    ensures room { out.new.room ≡ out.old.room }
{
    for place in 0..view.count(class) {
        put_row(out, columns, &view.row(class, place));
    }
}

// The titles and a line for each object of a class.
pub(crate) fn list<V: View>(out: &mut Lines, class: Class, view: &V)
    requires room { length out.old.items + 257 ≤ out.old.room }
    ensures items { out.new.items ≡ out.old.items ++ map (λ piece. Printed.Print piece) (class_table (record { rows = V.rows view.now; votes = V.votes_for view.now; mode = V.mode_of view.now }) class) }
    ensures few { length out.new.items ≤ length out.old.items + 257 }
    ensures room { out.new.room ≡ out.old.room }
{
    let columns = columns(class);
    put_titles(out, columns);
    put_rows(out, columns, class, view);
}

// The sleep modes from the lightest on.
fn modes() -> &'static [Sleep]
    ensures { result.now ≡ sleep_modes }
{
    &[
        Sleep::NoSleep,
        Sleep::Idle,
        Sleep::Light,
        Sleep::Deep,
        Sleep::Standby,
        Sleep::Shutdown,
    ]
}

// The votes for each mode.
fn put_votes<V: View>(out: &mut Lines, view: &V)
    requires room { length out.old.items + 6 ≤ out.old.room }
    ensures items { out.new.items ≡ out.old.items ++ map (λ mode. Printed.Print (table_line power_columns (sleep_text mode ∷ decimal (V.votes_for view.now mode) ∷ []))) sleep_modes }
    ensures few { length out.new.items ≤ length out.old.items + 6 }
    ensures room { out.new.room ≡ out.old.room }
{
    for mode in modes() {
        put_line(
            out,
            power_columns(),
            &[Cell::Mode(*mode), Cell::Byte(view.votes(*mode))],
        );
    }
}

// The mode of now.
fn put_mode(out: &mut Lines, now: Sleep)
    requires room { length out.old.items < out.old.room }
    ensures items { out.new.items ≡ out.old.items ++ Printed.Print (words (codes "sleep" ∷ sleep_text now ∷ []) ++ 10 ∷ []) ∷ [] }
    ensures room { out.new.room ≡ out.old.room }
{
    let mut piece = Piece::new();
    piece.put(b"sleep ");
    piece.put(mode(now));
    piece.put(b"\n");
    piece.print(out);
}

// The votes for each mode, and the mode of now.
pub(crate) fn dump_power<V: View>(out: &mut Lines, view: &V)
    requires room { length out.old.items + 8 ≤ out.old.room }
    ensures items { out.new.items ≡ out.old.items ++ map (λ piece. Printed.Print piece) (power_table (record { rows = V.rows view.now; votes = V.votes_for view.now; mode = V.mode_of view.now })) }
    ensures few { length out.new.items ≤ length out.old.items + 8 }
    ensures room { out.new.room ≡ out.old.room }
{
    put_titles(out, power_columns());
    put_votes(out, view);
    put_mode(out, view.mode());
}

// A name, and a newline.
pub(crate) fn put_name(out: &mut Lines, name: &[u8])
    requires short { length name.now ≤ 63 }
    requires room { length out.old.items < out.old.room }
    ensures items { out.new.items ≡ out.old.items ++ Printed.Print (name.now ++ 10 ∷ []) ∷ [] }
    ensures room { out.new.room ≡ out.old.room }
{
    let mut piece = Piece::new();
    piece.put(name);
    piece.put(b"\n");
    piece.print(out);
}

// What is printed of a line that is no command: itself with a note, and nothing of an empty one.
pub(crate) fn put_unknown(out: &mut Lines, line: &[u8])
    requires short { length line.now ≤ 40 }
    requires room { length out.old.items < out.old.room }
    ensures items { out.new.items ≡ out.old.items ++ map (λ piece. Printed.Print piece) (unknown_pieces line.now) }
    ensures few { length out.new.items ≤ length out.old.items + 1 }
    ensures room { out.new.room ≡ out.old.room }
{
    if line.is_empty() {
        return;
    }
    let mut piece = Piece::new();
    piece.put(line);
    piece.put(b": command not found.\n");
    piece.print(out);
}
