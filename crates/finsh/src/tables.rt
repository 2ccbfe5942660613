//! The lines of the tables.
ghost use Rattle.std.specs.Prelude.{◌≡◌, ◌+◌, ◌≤◌, ◌<◌, ◌++◌, [], ◌∷◌, length, map, IsTrue};
ghost use Rattle.rt_plain.specs.declared.line.Line.{Line as Printed};
ghost use Rattle.rt_plain.specs.kernel.Tables.{cell, table_line};
ghost use Rattle.finsh.specs.Cells.{column_of, cell_text, room_of, rooms, fits, separator};

use crate::cells::{Cell, know_cells, written};
use crate::columns::Column;
use crate::pieces::Piece;
use rt_plain::Lines;

// A space before each cell but the first.
fn put_separator(piece: &mut Piece, place: usize)
    requires { length piece.old < 64 }
    ensures { piece.new ≡ piece.old ++ separator place }
{
    if place > 0 {
        piece.put(b" ");
    }
}

// A text, filled with spaces to the width of its column.
fn put_filled(piece: &mut Piece, column: &Column, text: &[u8])
    requires { length piece.old + length (cell (column_of column.now) text.now) ≤ 64 }
    ensures { piece.new ≡ piece.old ++ cell (column_of column.now) text.now }
{
    let fill = column.width().saturating_sub(text.len());
    match column {
        Column::Left(_, _) => {
            piece.put(text);
            piece.fill(fill);
        }
        Column::Right(_, _) => {
            piece.fill(fill);
            piece.put(text);
        }
    }
}

// The cell at a place of a line.
fn put_cell(piece: &mut Piece, place: usize, column: &Column, text: &[u8])
    requires { length piece.old + length (cell (column_of column.now) text.now) < 64 }
    ensures { piece.new ≡ piece.old ++ separator place ++ cell (column_of column.now) text.now }
{
    put_separator(piece, place);
    put_filled(piece, column, text);
}

// A line of a table, each of whose cells has room.
pub(crate) fn put_line(out: &mut Lines, columns: &[Column], cells: &[Cell])
    requires columns { IsTrue (fits rooms (map (λ c. c.width) (map column_of columns.now))) }
    requires cells { IsTrue (fits rooms (map room_of cells.now)) }
    requires room { length out.old.items < out.old.room }
    ensures items { out.new.items ≡ out.old.items ++ Printed.Print (table_line (map column_of columns.now) (map cell_text cells.now)) ∷ [] }
    ensures room { out.new.room ≡ out.old.room }
{
    know_cells(cells);
    let mut piece = Piece::new();
    for place in 0..columns.len().min(cells.len()) {
        put_cell(
            &mut piece,
            place,
            &columns[place],
            written(&cells[place]).as_slice(),
        );
    }
    piece.put(b"\n");
    piece.print(out);
}

// The titles of a table.
pub(crate) fn put_titles(out: &mut Lines, columns: &[Column])
    requires columns { IsTrue (fits rooms (map (λ c. c.width) (map column_of columns.now))) }
    requires titles { IsTrue (fits rooms (map (λ c. length c.title) (map column_of columns.now))) }
    requires room { length out.old.items < out.old.room }
    ensures items { out.new.items ≡ out.old.items ++ Printed.Print (table_line (map column_of columns.now) (map (λ c. c.title) (map column_of columns.now))) ∷ [] }
    ensures room { out.new.room ≡ out.old.room }
{
    let mut piece = Piece::new();
    for (place, column) in columns.iter().enumerate() {
        put_cell(&mut piece, place, column, column.title());
    }
    piece.put(b"\n");
    piece.print(out);
}
