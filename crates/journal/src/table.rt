//! The table of the lines of a trace's entries, by which they are read and written.

/// All kinds of lines. A row has the kind, the word, the line, and the fields with their places; those of statements have
/// the function that makes the line.
macro_rules! trace_rows {
    ($then:ident $($rest:tt)*) => {
        $then! {
            $($rest)*;
            plain {
                Run b"run" all1 (Line::Run(t)) {1 t: name()}
                Out b"out" all2 (Line::Out(t, h)) {1 t: name() 2 h: placed()}
                Wake b"wake" all2 (Line::Wake(t, w)) {1 t: name() 2 w: woken()}
                Cur b"prio" all2 (Line::Cur(t, a, b)) {1 t: name() 2 (a, b): changed()}
                Fire b"fire" all2 (Line::Fire(o, f)) {1 o: name() 2 f: acted()}
                Timeout b"timeout" all1 (Line::Timeout(t)) {1 t: name()}
                Rx b"rx" all2 (Line::Rx(d, t, n)) {1 d: name() 2 (t, n): received()}
                Tx b"tx" all2 (Line::Tx(d, t)) {1 d: name() 2 t: text()}
                Sleep b"sleep" all2 (Line::Sleep(m, n)) {1 m: mode() 2 n: number(0, 4294967295)}
                Suspend b"suspend" all1 (Line::Suspend(d)) {1 d: name()}
                Resume b"resume" all1 (Line::Resume(d)) {1 d: name()}
                Tick b"tick" all1 (Line::Tick(n)) {1 n: number(0, 4294967295)}
                Print b"print" all1 (Line::Print(t)) {1 t: text()}
                Close b"close" all1 (Line::Close(t)) {1 t: name()}
                Own b"own" all2 (Line::Own(m, t)) {1 m: name() 2 t: name()}
                Mode b"mode" all1 (Line::Mode(m)) {1 m: mode()}
                Work b"work" all2 (Line::Work(o, f)) {1 o: name() 2 f: acted()}
                Unwork b"unwork" all1 (Line::Unwork(o)) {1 o: name()}
            }
            stated {
                Done b"do" make_done
                Again b"again" make_again
            }
        }
    };
}

pub(crate) use trace_rows;
