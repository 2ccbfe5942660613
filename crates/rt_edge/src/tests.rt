ghost use Rattle.std.specs.Prelude.{◌≡◌, ◌++◌, ℕ, Some, IfOk, take};

use crate::{
    DiskFiles, Failed, Files, MemFiles, MemSink, OpenFault, Sink, StdSink, SureFiles, SureSink,
};
use rt_base::List;
use std::alloc::{AllocError, Global};
use std::io::{ErrorKind, Write};
use std::process::Abort;
use std::test::Fail;
use std::{fs, io};

fn list<T: Copy>(alloc: Global, items: &[T]) -> Result<List<T>, AllocError> {
    let mut all = List::new(alloc);
    for item in items {
        if all.push(*item).is_err() {
            return Err(AllocError);
        }
    }
    Ok(all)
}

// Two files of one name, of which the second doesn't count.
fn two_files(alloc: Global) -> Result<List<(List<u8>, List<u8>)>, AllocError> {
    let mut files = List::new(alloc);
    for content in [b"hello", b"other"] {
        let file = (list(alloc, b"a")?, list(alloc, content)?);
        if files.push(file).is_err() {
            return Err(AllocError);
        }
    }
    Ok(files)
}

// The next bytes of the open file, up to four.
fn expect_taken<F: Files>(rt: &impl Abort, files: &mut F, wanted: &[&[u8]]) {
    for piece in wanted {
        let mut buf = [0; 4];
        let n = files.take(&mut buf).unwrap_or(4);
        assert_eq!(rt; &buf[..n], *piece);
    }
}

#[test]
fn files_in_memory_fail_at_their_numbers(rt: HostRuntime) -> Result<(), Fail> {
    let alloc = rt.alloc();
    let mut files = MemFiles::new(two_files(alloc)?, 2, list(alloc, &[2u64, 6])?);
    assert_eq!(rt; files.open("a"), Ok(()));
    assert_eq!(rt; files.take(&mut [0; 4]), Err(Failed));
    expect_taken(&rt, &mut files, &[b"he", b"ll", b"o"]);
    assert_eq!(rt; files.open("a"), Err(OpenFault::Failed));
    expect_taken(&rt, &mut files, &[b""]);
    assert_eq!(rt; files.open("b"), Err(OpenFault::Missing));
    Ok(())
}

#[test]
fn sure_files_give_all(rt: HostRuntime) -> Result<(), Fail> {
    let mut files = SureFiles::new(two_files(rt.alloc())?, 3);
    assert_eq!(rt; files.open("b"), Err(OpenFault::Missing));
    assert_eq!(rt; files.open("a"), Ok(()));
    expect_taken(&rt, &mut files, &[b"hel", b"lo", b"", b""]);
    Ok(())
}

#[test]
fn a_sink_in_memory_fails_at_its_numbers_and_its_end(rt: HostRuntime) -> Result<(), Fail> {
    let alloc = rt.alloc();
    let mut sink = MemSink::new(alloc, 7, 4, list(alloc, &[2u64])?)?;
    assert_eq!(rt; sink.put(b"hello"), Ok(4));
    assert_eq!(rt; sink.put(b"o world"), Err(Failed));
    assert_eq!(rt; sink.put(b"o world"), Ok(3));
    assert_eq!(rt; sink.put(b"orld"), Err(Failed));
    assert_eq!(rt; sink.put(b""), Ok(0));
    assert_eq!(rt; sink.bytes(), b"hello w".as_slice());
    Ok(())
}

#[test]
fn a_sure_sink_takes_all(rt: HostRuntime) {
    let taken = SureSink::new().put(b"hello");
    prove!(matches!(taken, Ok(5)));
    assert_eq!(rt; taken, Ok(5));
}

#[test]
fn a_file_on_disk_is_read(rt: HostRuntime) -> Result<(), Fail> {
    let name = "rt_edge_board";
    fs::write(&rt, name, b"board 1\n".as_slice())?;
    let mut files = DiskFiles::new(&rt);
    let opened = files.open(name);
    fs::remove_file(&rt, name)?;
    assert_eq!(rt; opened, Ok(()));
    expect_taken(&rt, &mut files, &[b"boar", b"d 1\n", b""]);
    assert_eq!(rt; files.open(name), Err(OpenFault::Missing));
    Ok(())
}

// Each call of a file that isn't there, or that can't be opened or read, is told as what it is.
#[test]
fn errors_on_disk_are_no_missing_files_and_no_ends(rt: HostRuntime) -> Result<(), Fail> {
    let name = "rt_edge_folder";
    fs::create_dir(&rt, name)?;
    let mut files = DiskFiles::new(&rt);
    let opened = files.open(name);
    let taken = files.take(&mut [0; 4]);
    fs::remove_dir(&rt, name)?;
    assert_eq!(rt; opened, Ok(()));
    assert_eq!(rt; taken, Err(Failed));
    assert_eq!(rt; files.open("rt_edge\0"), Err(OpenFault::Failed));
    Ok(())
}

#[test]
fn a_standard_stream_takes_bytes(rt: HostRuntime) {
    let mut sink = StdSink::new(rt.stdout());
    assert_eq!(rt; sink.put(b"hello\n"), Ok(6));
}

// A stream tells what it holds, and so does the sink over it.
fn put_into(bytes: Vec<u8>, piece: &[u8]) -> Result<StdSink<Vec<u8>>, Failed>
    ensures { IfOk result (λ sink. (n : ℕ) × (sink.holds ≡ Some (bytes.items ++ take n piece.now))) }
{
    let mut sink = StdSink::new(bytes);
    sink.put(piece)?;
    Ok(sink)
}

#[test]
fn a_stream_holds_what_it_took(rt: HostRuntime) -> Result<(), Fail> {
    assert!(rt; put_into(Vec::new(rt.alloc()), b"hello").is_ok());
    let mut bytes = Vec::new(rt.alloc());
    assert_eq!(rt; StdSink::new(&mut bytes).put(b"hello"), Ok(5));
    assert_eq!(rt; bytes.as_slice(), b"hello".as_slice());
    Ok(())
}

// A stream that takes three bytes, and then fails or takes nothing.
#[derive(Drop)]
struct Narrow {
    calls: u8,
}

impl Write for Narrow {
    fn write(&mut self, buf: &[u8]) -> io::Result<usize> {
        self.calls = self.calls.saturating_add(1);
        match self.calls {
            1 => Ok(buf.len().min(3)),
            2 => Err(io::Error::from(ErrorKind::BrokenPipe)),
            _ => Ok(0),
        }
    }

    fn flush(&mut self) -> io::Result<()> {
        Ok(())
    }
}

#[test]
fn a_failing_stream_is_a_fault(rt: HostRuntime) {
    let mut sink = StdSink::new(Narrow { calls: 0 });
    assert_eq!(rt; sink.put(b"hello"), Ok(3));
    assert_eq!(rt; sink.put(b"lo"), Err(Failed));
    assert_eq!(rt; sink.put(b"lo"), Err(Failed));
    assert_eq!(rt; sink.put(b""), Ok(0));
}
