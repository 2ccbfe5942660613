ghost use Rattle.std.specs.Prelude.{◌≡◌, ◌<◌, ◌≤◌, [], length, take, IfSome, IfNone};
ghost use Rattle.std.specs.Bool.{OnTrue, OnFalse};
ghost use Rattle.rt_edge.specs.Contents.{HasMoved};
ghost use Rattle.rt_edge.specs.Counts.{Rose, RoseBy};
ghost use Rattle.rt_edge.specs.Shelved.{names_of, content_of};

use rt_base::List;
use std::marker::Model;

// How far the open file was read: the file by its number, and the bytes taken.
#[derive(Clone, Copy)]
pub struct Place {
    pub number: usize,
    pub at: usize,
}

// Files in memory, of which at most so many bytes are taken at a time.
#[derive(Drop)]
pub(crate) struct Shelf {
    files: List<(List<u8>, List<u8>)>,
    most: usize,
    place: Option<Place>,
    missing: u64,
    taken: u64,
}

impl Model for Shelf {
    ghost use Rattle.std.specs.Prelude.{◌<◌};
    ghost use Rattle.rt_edge.specs.SureFilesSeen.{SureFilesSeen};
    ghost use Rattle.rt_edge.specs.Shelved.{left_of};

    ghost Value = { SureFilesSeen };

    ghost view = { λ s. record { files = s.files; left = left_of s.files s.place; missing = s.missing; taken = s.taken } };

    ghost invariant = { λ s. 0 < s.most };
}

// The number of the first file of a name.
fn find(files: &[(List<u8>, List<u8>)], name: &[u8]) -> Option<usize>
    ensures found { IfSome result (λ number. names_of files.now name.now ≡ Some (content_of files.now number)) }
    ensures none { IfNone result (names_of files.now name.now ≡ None) }
{
    for (number, file) in files.iter().enumerate() {
        if file.0.as_slice() == name {
            return Some(number);
        }
    }
    None
}

// What the file with a number holds.
fn content(files: &[(List<u8>, List<u8>)], number: usize) -> &[u8]
    ensures { result.now ≡ content_of files.now number }
{
    match files.get(number) {
        Some(file) => file.1.as_slice(),
        None => &[],
    }
}

// Copies the front of some bytes, as much as goes into a buffer and is allowed.
fn copy_front(from: &[u8], into: &mut [u8], most: usize) -> usize
    ensures within { (result ≤ length from.now) × (result ≤ length into.old) }
    ensures copied { take result into.new ≡ take result from.now }
    ensures some { 0 < length into.old → 0 < most → result ≡ 0 → from.now ≡ [] }
{
    let fits = from.len().min(into.len()).min(most);
    let (front, _) = into.split_at_mut(fits);
    front.copy_from_slice(&from[..fits]);
    fits
}

impl Shelf {
    pub(crate) fn new(files: List<(List<u8>, List<u8>)>, most: usize) -> Shelf
        requires { 0 < most }
        ensures { result ≡ record { files = files; left = []; missing = 0; taken = 0 } }
    {
        Shelf {
            files,
            most,
            place: None,
            missing: 0,
            taken: 0,
        }
    }

    // Leaves no file open.
    pub(crate) fn close(&mut self)
        ensures { self.new ≡ record self.old { left = [] } }
    {
        self.place = None;
    }

    // Opens the first file of a name, and tells whether there is one. No file is open if there is none.
    pub(crate) fn open(&mut self, name: &str) -> bool
        ensures files { self.new.files ≡ self.old.files }
        ensures opened { OnTrue result (names_of self.old.files name.now ≡ Some self.new.left) }
        ensures absent { OnFalse result (names_of self.old.files name.now ≡ None) }
        ensures closed { OnFalse result (self.new.left ≡ []) }
        ensures missing { self.old.missing ≤ self.new.missing }
        ensures taken { self.new.taken ≡ self.old.taken }
        ensures missed { OnFalse result (Rose self.old.missing self.new.missing) }
    {
        let found = find(self.files.as_slice(), name.as_bytes());
        self.place = found.map(|number| Place { number, at: 0 });
        if found.is_none() {
            self.missing = self.missing.saturating_add(1);
        }
        found.is_some()
    }

    // Moves bytes of the open file to the front of a buffer, and tells how many.
    pub(crate) fn take(&mut self, buf: &mut [u8]) -> usize
        requires { 0 < length buf.old }
        ensures fits { result ≤ length buf.old }
        ensures moved { HasMoved (Some self.old.left) (Some self.new.left) result buf.new }
        ensures taken { RoseBy self.old.taken self.new.taken result }
        ensures kept { self.new ≡ record self.old { left = self.new.left; taken = self.new.taken } }
    {
        let Some(place) = self.place else {
            return 0;
        };
        let whole = content(self.files.as_slice(), place.number);
        if place.at >= whole.len() {
            return 0;
        }
        let (_, left) = whole.split_at(place.at);
        let n = copy_front(left, buf, self.most);
        self.place = Some(Place {
            number: place.number,
            at: place.at + n,
        });
        self.taken = self.taken.saturating_add(n as u64);
        n
    }
}
