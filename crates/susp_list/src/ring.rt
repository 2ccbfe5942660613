ghost use Rattle.std.specs.Prelude.{◌≡◌, ◌+◌, ◌<◌, ◌≤◌, length, vec_len, slice_index, slice_set, replicate, IfOk};

use std::alloc::{AllocError, Global};

/// Links by thread number: the number behind each one, and the number before it.
#[derive(Drop)]
pub struct Ring {
    pub next: Vec<u16>,
    pub prev: Vec<u16>,
}

impl Ring {
    /// A ring of the root alone, with room for all lower numbers.
    pub fn new(alloc: Global, root: u16) -> Result<Ring, AllocError>
        ensures next { IfOk result (λ ring. ring.next.items ≡ replicate (root + 1) root) }
        ensures prev { IfOk result (λ ring. ring.prev.items ≡ replicate (root + 1) root) }
    {
        let next = vec![in alloc; root; root as usize + 1]?;
        let prev = vec![in alloc; root; root as usize + 1]?;
        Ok(Ring { next, prev })
    }

    /// Puts a number behind another one.
    pub fn insert(&mut self, thread: u16, before: u16)
        requires next { (thread < vec_len self.old.next) × (before < vec_len self.old.next) }
        requires prev { (thread < vec_len self.old.prev) × (slice_index self.old.next.items before < vec_len self.old.prev) }
        ensures next { let after = slice_index self.old.next.items before in
            self.new.next.items ≡ slice_set (slice_set self.old.next.items thread after) before thread }
        ensures prev { let after = slice_index self.old.next.items before in
            self.new.prev.items ≡ slice_set (slice_set self.old.prev.items thread before) after thread }
    {
        let after = self.next[before as usize];
        self.next[thread as usize] = after;
        self.next[before as usize] = thread;
        self.prev[thread as usize] = before;
        self.prev[after as usize] = thread;
    }

    /// Takes a number out.
    pub fn remove(&mut self, thread: u16)
        requires next { (thread < vec_len self.old.next) × (slice_index self.old.prev.items thread < vec_len self.old.next) }
        requires prev { (thread < vec_len self.old.prev) × (slice_index self.old.next.items thread < vec_len self.old.prev) }
        ensures next { let before = slice_index self.old.prev.items thread in
            let after = slice_index self.old.next.items thread in
            self.new.next.items ≡ slice_set self.old.next.items before after }
        ensures prev { let before = slice_index self.old.prev.items thread in
            let after = slice_index self.old.next.items thread in
            self.new.prev.items ≡ slice_set self.old.prev.items after before }
    {
        let before = self.prev[thread as usize];
        let after = self.next[thread as usize];
        self.next[before as usize] = after;
        self.prev[after as usize] = before;
    }
}
