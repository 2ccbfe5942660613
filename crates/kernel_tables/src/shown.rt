ghost use Rattle.std.specs.Prelude.{◌≡◌, ◌<◌, ◌≤◌, length, slice_get, Some};
ghost use Rattle.kernel_tables.specs.Shown.{shown};

use crate::threads::Threads;
use rt_base::ThreadNo;

impl Threads {
    /// How many threads haven't ended.
    #[tactic(auto, using(crate::proofs::ShownLemmas::shows))]
    pub fn shown_count(&self) -> usize
        ensures count { result ≡ length (shown self.now) }
        ensures few { result ≤ 256 }
    {
        let mut count = 0;
        for t in 0..self.len() {
            if !self.is_closed(ThreadNo(t as u16)) {
                count += 1;
            }
        }
        count
    }

    /// The thread at a place among those that haven't ended, counted from the newest one.
    #[tactic(auto, using(crate::proofs::ShownLemmas::shows))]
    pub fn shown_at(&self, place: usize) -> ThreadNo
        requires { place < length (shown self.now) }
        ensures is { slice_get (shown self.now) place ≡ Some result }
        ensures there { result < length self.now }
    {
        let mut newer = place;
        let mut i = self.len();
        while i > 0 {
            i -= 1;
            let t = ThreadNo(i as u16);
            if !self.is_closed(t) {
                if newer == 0 {
                    return t;
                }
                newer -= 1;
            }
        }
        unreachable!()
    }
}
