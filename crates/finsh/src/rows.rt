//! The rows of the tables of classes.
ghost use Rattle.std.specs.Prelude.{◌≡◌, ◌<◌, ◌++◌, [], ◌∷◌, length, map, IsTrue};
ghost use Rattle.rt_plain.specs.declared.line.Line.{Line as Printed};
ghost use Rattle.rt_plain.specs.kernel.Tables.{table_line, texts};
ghost use Rattle.finsh.specs.Cells.{column_of, rooms, fits};
ghost use Rattle.finsh.specs.Families.{is_thread, is_sync, is_queue, is_driven};

use crate::cells::Cell;
use crate::columns::Column;
use crate::tables::put_line;
use rt_plain::{Lines, Row};

// A thread.
fn put_thread(out: &mut Lines, columns: &[Column], row: &Row)
    requires family { IsTrue (is_thread row.now) }
    requires columns { IsTrue (fits rooms (map (λ c. c.width) (map column_of columns.now))) }
    requires room { length out.old.items < out.old.room }
    ensures items { out.new.items ≡ out.old.items ++ Printed.Print (table_line (map column_of columns.now) (texts row.now)) ∷ [] }
    ensures room { out.new.room ≡ out.old.room }
{
    match row {
        Row::Thread {
            name,
            cur,
            base,
            state,
            core,
            left,
            code,
        } => put_line(
            out,
            columns,
            &[
                Cell::Name(name),
                Cell::Prio(*cur),
                Cell::Prio(*base),
                Cell::State(*state),
                Cell::Core(*core),
                Cell::Byte(*left),
                Cell::Code(*code),
            ],
        ),
        _ => unreachable!(),
    }
}

// A semaphore, an event or a mutex.
fn put_sync(out: &mut Lines, columns: &[Column], row: &Row)
    requires family { IsTrue (is_sync row.now) }
    requires columns { IsTrue (fits rooms (map (λ c. c.width) (map column_of columns.now))) }
    requires room { length out.old.items < out.old.room }
    ensures items { out.new.items ≡ out.old.items ++ Printed.Print (table_line (map column_of columns.now) (texts row.now)) ∷ [] }
    ensures room { out.new.room ≡ out.old.room }
{
    match row {
        Row::Sem {
            name,
            value,
            waiters,
        } => put_line(
            out,
            columns,
            &[Cell::Name(name), Cell::Half(*value), Cell::Half(*waiters)],
        ),
        Row::Event {
            name,
            flags,
            waiters,
        } => put_line(
            out,
            columns,
            &[Cell::Name(name), Cell::Flags(*flags), Cell::Half(*waiters)],
        ),
        Row::Mutex {
            name,
            owner,
            hold,
            ceiling,
            waiters,
        } => put_line(
            out,
            columns,
            &[
                Cell::Name(name),
                Cell::Owner(owner),
                Cell::Byte(*hold),
                Cell::Prio(*ceiling),
                Cell::Half(*waiters),
            ],
        ),
        _ => unreachable!(),
    }
}

// A mailbox or a message queue.
fn put_queue(out: &mut Lines, columns: &[Column], row: &Row)
    requires family { IsTrue (is_queue row.now) }
    requires columns { IsTrue (fits rooms (map (λ c. c.width) (map column_of columns.now))) }
    requires room { length out.old.items < out.old.room }
    ensures items { out.new.items ≡ out.old.items ++ Printed.Print (table_line (map column_of columns.now) (texts row.now)) ∷ [] }
    ensures room { out.new.room ≡ out.old.room }
{
    match row {
        Row::Mailbox {
            name,
            used,
            size,
            receivers,
            senders,
        } => put_line(
            out,
            columns,
            &[
                Cell::Name(name),
                Cell::Byte(*used),
                Cell::Byte(*size),
                Cell::Half(*receivers),
                Cell::Half(*senders),
            ],
        ),
        Row::MsgQueue {
            name,
            used,
            size,
            max,
            receivers,
            senders,
        } => put_line(
            out,
            columns,
            &[
                Cell::Name(name),
                Cell::Byte(*used),
                Cell::Byte(*size),
                Cell::Byte(*max),
                Cell::Half(*receivers),
                Cell::Half(*senders),
            ],
        ),
        _ => unreachable!(),
    }
}

// A timer or a device.
fn put_driven(out: &mut Lines, columns: &[Column], row: &Row)
    requires family { IsTrue (is_driven row.now) }
    requires columns { IsTrue (fits rooms (map (λ c. c.width) (map column_of columns.now))) }
    requires room { length out.old.items < out.old.room }
    ensures items { out.new.items ≡ out.old.items ++ Printed.Print (table_line (map column_of columns.now) (texts row.now)) ∷ [] }
    ensures room { out.new.room ≡ out.old.room }
{
    match row {
        Row::Timer {
            name,
            periodic,
            soft,
            time,
            due,
        } => put_line(
            out,
            columns,
            &[
                Cell::Name(name),
                Cell::Kind {
                    soft: *soft,
                    periodic: *periodic,
                },
                Cell::Number(*time),
                Cell::Due(*due),
            ],
        ),
        Row::Device {
            name,
            console,
            opened,
            rx,
            tx,
        } => put_line(
            out,
            columns,
            &[
                Cell::Name(name),
                Cell::Device { console: *console },
                Cell::Byte(*opened),
                Cell::Half(*rx),
                Cell::Half(*tx),
            ],
        ),
        _ => unreachable!(),
    }
}

// A row of a class's table.
pub(crate) fn put_row(out: &mut Lines, columns: &[Column], row: &Row)
    requires columns { IsTrue (fits rooms (map (λ c. c.width) (map column_of columns.now))) }
    requires room { length out.old.items < out.old.room }
    ensures items { out.new.items ≡ out.old.items ++ Printed.Print (table_line (map column_of columns.now) (texts row.now)) ∷ [] }
    ensures room { out.new.room ≡ out.old.room }
{
    match row {
        Row::Thread { .. } => put_thread(out, columns, row),
        Row::Sem { .. } | Row::Event { .. } | Row::Mutex { .. } => put_sync(out, columns, row),
        Row::Mailbox { .. } | Row::MsgQueue { .. } => put_queue(out, columns, row),
        Row::Timer { .. } | Row::Device { .. } => put_driven(out, columns, row),
    }
}
