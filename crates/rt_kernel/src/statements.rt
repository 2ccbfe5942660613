ghost use Rattle.std.specs.Prelude.{◌≡◌, ◌+◌, ◌<◌, ◌≤◌, ◌^◌, ◌++◌, length, true, false, Some, decimal, ℕ, List, ◌-◌};
ghost use Rattle.rt_plain.specs.declared.stmt.Stmt.{Stmt};
ghost use Rattle.rt_plain.specs.text.Words.{code_text};
ghost use Rattle.rt_plain.specs.kernel.Statements.{plain_effect, said_text, target};
ghost use Rattle.rt_kernel.specs.Does.{Acts};
ghost use Rattle.rt_kernel.specs.Limits.{limits_of};
ghost use Rattle.rt_kernel.specs.Mutexes.{HasNoMutex};
ghost use Rattle.rt_plain.specs.kernel.State.{is_closed};
ghost use Rattle.rt_kernel.specs.Plain.{is_plain, printed, next_plain};
ghost use Rattle.kernel_tables.specs.Threads.{row_at};
ghost use Rattle.rt_kernel.specs.View.{state_of};

use crate::state::State;
use arrayvec::ArrayVec;
use itoa::Buffer;
use rt_base::{Code, Steps, Text, ThreadNo};
use rt_plain::{Line, Lines, Stmt, What};
use std::sync::ledger::Ledger;

// Shows bytes on the console, if there are any.
fn print(bytes: &[u8], out: &mut Lines)
    requires short { length bytes.now ≤ 64 }
    requires lines { length out.old.items < out.old.room }
    ensures lines { out.new.items ≡ out.old.items ++ printed bytes.now }
    ensures out_room { out.new.room ≡ out.old.room }
{
    if let Some(text) = Text::read(bytes) {
        out.push(Line::Print(text));
    }
}

// Shows a number in digits.
fn print_number(n: u32, out: &mut Lines)
    requires { length out.old.items < out.old.room }
    ensures lines { out.new.items ≡ out.old.items ++ printed (decimal n) }
    ensures out_room { out.new.room ≡ out.old.room }
{
    let mut buffer = Buffer::new();
    print(buffer.format(n).as_bytes(), out);
}

// Shows a code: `0`, or a minus sign and its number.
fn print_code(code: Code, out: &mut Lines)
    requires { length out.old.items < out.old.room }
    ensures lines { out.new.items ≡ out.old.items ++ printed (code_text code) }
    ensures out_room { out.new.room ≡ out.old.room }
{
    let number = code.number();
    if number == 0 {
        print(b"0", out);
        return;
    }
    let mut buffer = Buffer::new();
    let mut bytes: ArrayVec<u8, 41> = ArrayVec::new();
    bytes.push(b'-');
    let _ = bytes.try_extend_from_slice(buffer.format(number).as_bytes());
    print(bytes.as_slice(), out);
}

// Where a jump goes in a script of this length: no further than to the implied `exit`.
fn target(script: &[Stmt], k: u16) -> u16
    requires { length script.now ≤ 512 }
    ensures { result ≡ target script.now k }
{
    k.min(script.len() as u16 + 1)
}

impl State {
    // Shows what the last calls of the thread left.
    fn say(&self, t: ThreadNo, what: What, out: &mut Lines)
        requires there { t < length self.now.tables.threads }
        requires lines { length out.old.items < out.old.room }
        ensures lines { out.new.items ≡ out.old.items ++ printed (said_text what (row_at self.now.tables.threads t)) }
        ensures out_room { out.new.room ≡ out.old.room }
    {
        match what {
            What::Code => print_code(self.tables.code(t), out),
            What::Value => print_number(self.tables.value(t), out),
            What::Text => print(self.tables.text(t), out),
        }
    }

    // Lowers the counter of the thread, and jumps where it is then not 0.
    fn count_down(&mut self, t: ThreadNo, to: u16)
        requires { t < length self.old.tables.threads }
        ensures state { (script : List Stmt) (k : ℕ) → to ≡ target script k → state_of self.new ≡ (plain_effect script t (Stmt.Next k) (state_of self.old)).state }
        ensures limits { limits_of self.new.tables ≡ limits_of self.old.tables }
    {
        let mut vars = self.tables.vars(t);
        vars.counter = vars.counter.saturating_sub(1);
        self.tables.set_vars(t, vars);
        if vars.counter != 0 {
            self.tables.set_next(t, to);
        }
    }

    // What a statement that is no call does.
    fn do_plain<L: Ledger>(
        &mut self,
        t: ThreadNo,
        script: &[Stmt],
        stmt: &Stmt,
        out: &mut Lines,
        steps: &mut Steps<L>,
    )
        requires there { t < length self.old.tables.threads }
        requires short { length script.now ≤ 512 }
        requires plain { is_plain stmt.now ≡ true }
        requires live { is_closed (row_at self.old.tables.threads t).stage ≡ false }
        requires free { HasNoMutex (state_of self.old) }
        requires lines { length out.old.items < out.old.room }
        ensures acts { Acts self.old self.new out.old out.new 1 (plain_effect script.now t stmt.now (state_of self.old)) }
        ensures numbers { self.new.numbers ≡ self.old.numbers }
    {
        match stmt {
            Stmt::Print(text) => print(text.bytes(), out),
            Stmt::Say(what) => self.say(t, *what, out),
            Stmt::Goto(k) => self.tables.set_next(t, target(script, *k)),
            Stmt::IfCode(code, k) => {
                if self.tables.code(t).number() == code.number() {
                    self.tables.set_next(t, target(script, *k));
                }
            }
            Stmt::Count(n) => {
                let mut vars = self.tables.vars(t);
                vars.counter = *n;
                self.tables.set_vars(t, vars);
            }
            Stmt::Next(k) => self.count_down(t, target(script, *k)),
            Stmt::Exit => self.close(t, out, steps),
            Stmt::Do(_) => unreachable!(),
        }
    }

    // The next statement of the thread, which is no call.
    pub fn plain<L: Ledger>(
        &mut self,
        t: ThreadNo,
        script: &[Stmt],
        stmt: &Stmt,
        out: &mut Lines,
        steps: &mut Steps<L>,
    )
        requires there { t < length self.old.tables.threads }
        requires next { (row_at self.old.tables.threads t).next < 2 ^ 16 - 1 }
        requires short { length script.now ≤ 512 }
        requires plain { is_plain stmt.now ≡ true }
        requires live { is_closed (row_at self.old.tables.threads t).stage ≡ false }
        requires free { HasNoMutex (state_of self.old) }
        requires lines { length out.old.items + 2 ≤ out.old.room }
        ensures acts { Acts self.old self.new out.old out.new 2 (next_plain script.now t stmt.now (state_of self.old)) }
        ensures numbers { self.new.numbers ≡ self.old.numbers }
    {
        let k = self.tables.next(t);
        out.push(Line::Done(self.name_of(t), k, Some(Code::Ok)));
        self.tables.set_next(t, k + 1);
        self.do_plain(t, script, stmt, out, steps);
    }
}
