ghost use Rattle.std.specs.Prelude.{◌≡◌, ℕ, List, Option};
ghost use Rattle.rt_base.specs.declared.codes.Event.{Event};
ghost use Rattle.rt_plain.specs.kernel.State.{is_nest_of_other};
ghost use Rattle.cpus_lock.specs.Depths.{nest_of};

use rt_base::CoreNo;

/// A value that the cores share: it knows which core holds the lock over all cores, and for contracts it has
/// a root, which no hold changes, and a log of its events, which only grows.
pub trait Nested {
    ghost nest: { Self → Option (ℕ × ℕ) };

    ghost root: { Self → List ℕ };

    ghost log: { Self → List Event };

    /// The core that holds the lock, and how deep. None exactly where no core holds it.
    fn nest(&self) -> Option<(CoreNo, u8)>
        ensures { result ≡ nest self.now };
}

/// Whether another core holds the lock over all cores.
pub(crate) fn is_nested<K: Nested>(value: &K, core: CoreNo) -> bool
    ensures { result ≡ is_nest_of_other core (nest_of (K.nest value.now)) }
{
    value.nest().is_some_and(|(holder, _)| holder != core)
}
