//! The answer of a memo for a tune. This module cannot read the entries: it recalls, builds and remembers.

ghost use Rattle.std.specs.Prelude.{◌≡◌, IfOk, OnErr};
ghost use Rattle.std.specs.Map.{lookup};
ghost use Rattle.lru.specs.LruCache.{promoted};
ghost use Rattle.abc_tune_memo.specs.Memo.{Remembers, AreItemsOf, IsFirstOrForgotten, counts_after};

use crate::key::TuneKey;
use crate::memo::TuneMemo;
use abc_tune_compiler::{Built, Compiler};
use std::alloc::AllocError;

impl<C: Compiler> TuneMemo<C> {
    /// Returns the remembered tune of a key, or builds it from its items and remembers it if no allocation fails. A key
    /// that is remembered is then the one asked for last. Other entries do not change, but the one asked for longest ago
    /// goes if there would be 65. It returns an error if an allocation for the answer fails.
    pub fn built(
        &mut self,
        compiler: &C,
        key: TuneKey<C::Defaults>,
        items: &[C::Items],
        work: &mut C::Work,
    ) -> Result<Built, AllocError>
        requires of_key { AreItemsOf (C.steps compiler.now) (C.rules compiler.now) key items.now }
        requires remembers { Remembers (C.steps compiler.now) (C.rules compiler.now) self.old }
        ensures bytes { IfOk result (λ built. built.bytes ≡ (C.rules compiler.now).bytes items.now) }
        ensures faults { IfOk result (λ built. built.faults ≡ (C.rules compiler.now).build_faults items.now) }
        ensures remembers { Remembers (C.steps compiler.now) (C.rules compiler.now) self.new }
        ensures entries { IfOk result (λ built. IsFirstOrForgotten (⟦<TuneKey<C::Defaults> as PartialEq>⟧.eq) key built self.old self.new) }
        ensures unchanged { OnErr result (self.new ≡ promoted (⟦<TuneKey<C::Defaults> as PartialEq>⟧.eq key) self.old) }
        ensures counted { C.Work.counts work.new
            ≡ counts_after (lookup (⟦<TuneKey<C::Defaults> as PartialEq>⟧.eq key) self.old) (C.Work.counts work.old) }
    {
        if let Some(known) = self.recall(&key)? {
            return Ok(known);
        }
        let built = compiler.build(self.allocator(), items, work)?;
        self.remember(key, &built);
        Ok(built)
    }
}
