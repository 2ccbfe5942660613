use commands::rtsim;
use rt_base::List;
use rt_edge::{MemFiles, MemSink};
use std::alloc::{AllocError, Global};

/// What happens outside: the number of the call that fails (0 for none), of the files, of `out` and of `err`; the room of
/// `out`, and the most bytes that one call moves.
#[derive(Clone, Copy)]
pub struct Outside {
    pub read: u64,
    pub write: u64,
    pub line: u64,
    pub room: usize,
    pub most: usize,
}

/// Nothing fails, and all is moved in small pieces.
pub const GOOD: Outside = Outside {
    read: 0,
    write: 0,
    line: 0,
    room: 1_048_577,
    most: 16,
};

/// What a command has told.
#[derive(Drop)]
pub struct Told {
    pub status: u8,
    pub out: MemSink,
    pub err: MemSink,
}

/// A list of these items.
pub fn list<T: Copy>(alloc: Global, items: &[T]) -> Result<List<T>, AllocError> {
    let mut all = List::new(alloc);
    all.extend_from_slice(items)?;
    Ok(all)
}

// Adds a file.
fn add_file(
    alloc: Global,
    files: &mut List<(List<u8>, List<u8>)>,
    name: &[u8],
    bytes: &[u8],
) -> Result<(), AllocError> {
    let file = (list(alloc, name)?, list(alloc, bytes)?);
    match files.push(file) {
        Ok(()) => Ok(()),
        Err(_) => Err(AllocError),
    }
}

/// A trace in a file `t`, and a board in a file `b`.
pub fn two_files(
    alloc: Global,
    trace: &[u8],
    board: &[u8],
) -> Result<List<(List<u8>, List<u8>)>, AllocError> {
    let mut files = List::new(alloc);
    add_file(alloc, &mut files, b"t", trace)?;
    add_file(alloc, &mut files, b"b", board)?;
    Ok(files)
}

/// Does the command of the words over files `t` and `b`.
pub fn perform(
    alloc: Global,
    words: &[String],
    trace: &[u8],
    board: &[u8],
    outside: Outside,
) -> Result<Told, AllocError> {
    let most = outside.most.max(1);
    let mut files = MemFiles::new(
        two_files(alloc, trace, board)?,
        most,
        list(alloc, &[outside.read])?,
    );
    let mut out = MemSink::new(alloc, outside.room, most, list(alloc, &[outside.write])?)?;
    let mut err = MemSink::new(alloc, 100, 5, list(alloc, &[outside.line])?)?;
    let status = rtsim(alloc, words, &mut files, &mut out, &mut err);
    Ok(Told { status, out, err })
}
