//! The voices of a tune.

ghost use Rattle.std.specs.Prelude.{◌≡◌, ◌==◌, ◌<◌, [], ◌∷◌, ◌++◌, bytes_eq, length, slice_get, None, Some, IfSome, OnErr, OnOk};
ghost use Rattle.std.specs.Borrow.{sem};
ghost use Rattle.std.specs.List.{AllZip, IsDistinct};
ghost use Rattle.std.specs.Map.{keys_of};
ghost use Rattle.std.specs.Map.Iter.{deref_pair};
ghost use Rattle.std.specs.Option.{option_copied, option_copied_mut, option_map};
ghost use Rattle.abc_bars_header.specs.Voices.{place_of, voice_at};
ghost use Rattle.abc_bars_header.specs.VoicesLent.{lends_known, lends_voice};

use crate::names::Names;
use crate::voice_name::VoiceName;
use std::alloc::{AllocError, Global};
use std::marker::Model;

/// Voices in the order in which they were mentioned, each with a value (ABC 2.1 section 7.1). No two have the same name.
/// Contracts see pairs of a name and a value. Copies share the names.
#[derive(Drop)]
pub struct Voices<S> {
    names: Names,
    /// The value of each, in the order of the names.
    known: Vec<S>,
}

impl<S> Model for Voices<S> {
    ghost use Rattle.std.specs.Prelude.{◌≡◌, List, ℕ, length};
    ghost use Rattle.std.specs.Coded.{coded×, coded_list, coded_ℕ};
    ghost use Rattle.std.specs.List.{zip};

    ghost Value = { List (List ℕ × S) };

    ghost coded = { coded_list (coded× (coded_list coded_ℕ) S.code) };

    ghost view = { λ voices. zip voices.names voices.known.items };

    ghost invariant = { λ voices. length voices.known.items ≡ length voices.names };
}

impl<S> Voices<S> {
    /// No voices yet.
    pub fn new(alloc: Global) -> Self
        ensures { result ≡ [] }
    {
        Voices {
            names: Names::new(),
            known: Vec::new(alloc),
        }
    }

    /// How many voices there are.
    pub fn len(&self) -> usize
        ensures { result ≡ length self.now }
    {
        self.names.len()
    }

    /// Whether there are none.
    pub fn is_empty(&self) -> bool
        ensures { result ≡ (length self.now == 0) }
    {
        self.len() == 0
    }

    /// The index of the voice with this name.
    pub fn place_of(&self, name: &VoiceName) -> Option<usize>
        ensures value { result ≡ place_of name.now self.now }
        ensures inside { IfSome result (λ at. at < length self.now) }
    {
        self.names.index_of(name)
    }

    /// The name and the value of the voice at an index. No two voices have the same name.
    pub fn entry(&self, at: usize) -> Option<(&VoiceName, &S)>
        ensures value { option_map deref_pair result ≡ slice_get self.now at }
        ensures distinct { IsDistinct bytes_eq (keys_of self.now) }
    {
        let name = self.names.get(at)?;
        let known = self.known.get(at)?;
        Some((name, known))
    }

    /// The value of the voice at an index.
    pub fn get(&self, at: usize) -> Option<&S>
        ensures { option_copied result ≡ voice_at self.now at }
    {
        self.known.get(at)
    }

    /// The value of the voice at an index, to be changed.
    pub fn get_mut(&mut self, at: usize) -> Option<&mut S>
        ensures* writes_back { sem 𝓛 (lends_voice S.row self.entry at result) }
        ensures value { option_copied_mut result ≡ voice_at self.old at }
    {
        if at < self.len() {
            Some(self.known_mut(at))
        } else {
            None
        }
    }

    /// The value of an existing voice, to be changed.
    pub fn known_mut(&mut self, at: usize) -> &mut S
        requires { at < length self.old }
        ensures* writes_back { sem 𝓛 (lends_known S.row self.entry at result) }
        ensures value { voice_at self.old at ≡ Some result.now }
    {
        &mut self.known[at]
    }

    /// Adds a voice at the end. It returns an error if an allocation fails.
    pub fn push(&mut self, name: VoiceName, known: S) -> Result<(), AllocError>
    where
        S: Drop,
        requires { place_of name self.old ≡ None }
        ensures ok { OnOk result (self.new ≡ self.old ++ (name, known) ∷ []) }
        ensures unchanged { OnErr result (self.new ≡ self.old) }
    {
        let names = self.names.with(*self.known.allocator(), name)?;
        self.known.push(known)?;
        self.names = names;
        Ok(())
    }
}

impl<S: Clone> Clone for Voices<S> {
    ghost is_clone = { λ voices copies. AllZip (λ p q. (q.0 ≡ p.0) × S.is_clone p.1 q.1) voices copies };

    fn clone(&self) -> Result<Self, AllocError> {
        let names = self.names.share()?;
        let known = self.known.clone()?;
        Ok(Voices { names, known })
    }
}
