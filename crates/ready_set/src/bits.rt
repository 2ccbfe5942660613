ghost use Rattle.std.specs.Prelude.{◌≡◌, ◌+◌, ◌*◌, ◌≤◌, ◌<◌, IfOk, IfSome, IfNone, replicate};
ghost use Rattle.ready_set.specs.Levels.{HasNoLevel, IsChangedAt, IsLeastLevel};

use crate::words::Words;
use rt_base::Steps;
use std::alloc::{AllocError, Global};
use std::marker::Model;
use std::sync::ledger::Ledger;

/// For each binding, which of 8 * G levels are set: a bitmap of G groups of 8 levels, with a word above it that has a
/// bit for each group. Contracts see the number of bindings and the groups.
#[derive(Drop)]
pub struct PrioBits<const G: usize> {
    pub(crate) tops: Words<u32>,
    pub(crate) groups: Words<u8>,
}

impl<const G: usize> Model for PrioBits<G> {
    ghost use Rattle.std.specs.Prelude.{length};
    ghost use Rattle.ready_set.specs.Levels.{Bitmaps, IsIndexed};

    ghost Value = { Bitmaps };

    ghost view = { λ b. record { bindings = length b.tops; groups = b.groups } };

    ghost invariant = { λ b. IsIndexed G b.tops b.groups };
}

impl<const G: usize> PrioBits<G> {
    /// Bitmaps with no level set. The only error is want of memory.
    pub fn new(alloc: Global, bindings: usize) -> Result<PrioBits<G>, AllocError>
        requires groups { G ≤ 32 }
        requires few { bindings ≤ 256 }
        ensures { IfOk result (λ b. b ≡ record { bindings = bindings; groups = replicate (bindings * G) 0 }) }
    {
        let tops = Words::new(alloc, 0, bindings)?;
        let groups = Words::new(alloc, 0, bindings * G)?;
        Ok(PrioBits { tops, groups })
    }

    /// Sets a level of a binding.
    pub fn set(&mut self, binding: usize, level: u8)
        requires binding_below { binding < self.old.bindings }
        requires level_below { level < 8 * G }
        ensures bindings { self.new.bindings ≡ self.old.bindings }
        ensures bits { IsChangedAt G self.old.groups self.new.groups binding level 1 }
    {
        let group = level / 8;
        let top = self.tops.stored(binding);
        self.tops.write(binding, top | (1 << group));
        let at = binding * G + group as usize;
        let word = self.groups.stored(at);
        self.groups.write(at, word | (1 << (level % 8)));
    }

    /// Clears a level of a binding.
    pub fn clear(&mut self, binding: usize, level: u8)
        requires binding_below { binding < self.old.bindings }
        requires level_below { level < 8 * G }
        ensures bindings { self.new.bindings ≡ self.old.bindings }
        ensures bits { IsChangedAt G self.old.groups self.new.groups binding level 0 }
    {
        let group = level / 8;
        let top = self.tops.stored(binding);
        let at = binding * G + group as usize;
        let word = self.groups.stored(at) & !(1 << (level % 8));
        self.groups.write(at, word);
        if word == 0 {
            self.tops.write(binding, top & !(1 << group));
        }
    }

    /// The least level that is set for a binding, or None exactly where none is. It reads at most two words.
    pub fn lowest<L: Ledger>(&self, binding: usize, steps: &mut Steps<L>) -> Option<u8>
        requires binding_below { binding < self.now.bindings }
        ensures cost { steps.new ≤ steps.old + 2 }
        ensures least { IfSome result (λ level. IsLeastLevel G self.now.groups binding level) }
        ensures none { IfNone result (HasNoLevel G self.now.groups binding) }
    {
        let top = self.tops.read(binding, steps);
        if top == 0 {
            return None;
        }
        let group = top.trailing_zeros();
        let word = self.groups.read(binding * G + group as usize, steps);
        Some((group * 8 + word.trailing_zeros()) as u8)
    }
}
