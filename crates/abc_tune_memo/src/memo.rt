//! A memo of built tunes: its entries.

ghost use Rattle.std.specs.Prelude.{◌≡◌, ◌⊎◌, [], IfOk, OnErr, OnOk, true, is_some};
ghost use Rattle.std.specs.Map.{lookup};
ghost use Rattle.lru.specs.LruCache.{lru_cache, promoted, put_entries};

use crate::key::TuneKey;
use abc_tune_compiler::{Built, Compiler};
use lru::LruCache;
use std::alloc::{AllocError, Global};
use std::marker::Model;
use std::num::NonZeroUsize;

/// The most tunes that a memo remembers.
const MOST_TUNES: usize = 64;

/// The tunes that a compiler built and that were asked for last, at most `MOST_TUNES`. Contracts see the keys and the built
/// tunes, the one asked for last first.
#[derive(Drop)]
pub struct TuneMemo<C: Compiler> {
    entries: LruCache<TuneKey<C::Defaults>, Built>,
}

impl<C: Compiler> Model for TuneMemo<C> {
    ghost use Rattle.std.specs.Prelude.{◌≡◌, List};
    ghost use Rattle.abc_tune_compiler.specs.declared.built.Built.{Built};
    ghost use Rattle.abc_tune_memo.specs.declared.key.TuneKey.{TuneKey};

    ghost Value = { List (TuneKey C.Defaults × Built) };

    ghost view = { λ memo. memo.entries.entries };

    ghost invariant = { λ memo. memo.entries.cap ≡ 64 };
}

impl<C: Compiler> TuneMemo<C> {
    /// Returns an empty memo, or `AllocError` if an allocation fails.
    pub fn new(alloc: Global) -> Result<TuneMemo<C>, AllocError>
        ensures { IfOk result (λ memo. memo ≡ []) }
    {
        let most = NonZeroUsize::new(MOST_TUNES).unwrap();
        let entries = LruCache::new(alloc, most)?;
        Ok(TuneMemo { entries })
    }

    /// Returns the allocator of the entries.
    pub(crate) fn allocator(&self) -> Global {
        *self.entries.allocator()
    }

    /// Returns the tune that is remembered under a key, which becomes the one asked for last.
    pub(crate) fn recall(&mut self, key: &TuneKey<C::Defaults>) -> Result<Option<Built>, AllocError>
        ensures value { IfOk result (λ known. known
            ≡ lookup (⟦<TuneKey<C::Defaults> as PartialEq>⟧.eq key.now) self.old) }
        ensures refused { OnErr result (is_some (lookup (⟦<TuneKey<C::Defaults> as PartialEq>⟧.eq key.now) self.old) ≡ true) }
        ensures entries { self.new ≡ promoted (⟦<TuneKey<C::Defaults> as PartialEq>⟧.eq key.now) self.old }
    {
        match self.entries.get(key) {
            Some(known) => Ok(Some(known.share()?)),
            None => Ok(None),
        }
    }

    /// Puts an entry first.
    fn put(&mut self, key: TuneKey<C::Defaults>, built: &Built) -> Result<(), AllocError>
        ensures ok { OnOk result (self.new
            ≡ put_entries (⟦<TuneKey<C::Defaults> as PartialEq>⟧.eq) (lru_cache self.old 64) key built.now) }
        ensures unchanged { OnErr result (self.new ≡ self.old) }
    {
        let shared = built.share()?;
        self.entries.put(key, shared)?;
        Ok(())
    }

    /// Remembers what was built, and returns no error: if an allocation fails, the next call for the key builds again.
    /// Only this module reads the entries, so no other function can fail because an entry is missing.
    pub(crate) fn remember(&mut self, key: TuneKey<C::Defaults>, built: &Built)
        ensures { (self.new ≡ self.old)
            ⊎ (self.new ≡ put_entries (⟦<TuneKey<C::Defaults> as PartialEq>⟧.eq) (lru_cache self.old 64) key built.now) }
    {
        let _ = self.put(key, built);
    }
}
