//! The names of a tune's voices.

ghost use Rattle.std.specs.Prelude.{◌≡◌, ◌<◌, [], ◌∷◌, ◌++◌, bytes_eq, length, position, slice_get, None, IfOk, IfSome};
ghost use Rattle.std.specs.List.{IsDistinct};
ghost use Rattle.std.specs.Option.{option_copied};

use crate::voice_name::VoiceName;
use abc_text::Shared;
use indexmap::IndexSet;
use std::alloc::{AllocError, Global};
use std::marker::Model;

/// The names of voices in the order in which they were mentioned, no two equal. Contracts see a list. Copies share the
/// names and their indexes: a copy reads none of their bytes.
#[derive(Drop)]
pub(crate) struct Names {
    /// None if there are none.
    set: Option<Shared<IndexSet<VoiceName>>>,
}

impl Model for Names {
    ghost use Rattle.std.specs.Prelude.{List, ℕ};
    ghost use Rattle.std.specs.Coded.{coded_list, coded_ℕ};

    ghost Value = { List (List ℕ) };

    ghost coded = { coded_list (coded_list coded_ℕ) };

    ghost use Rattle.abc_bars_header.specs.Names.{names_in};

    ghost view = { λ names. names_in names.set };
}

impl Names {
    /// No names yet.
    pub(crate) fn new() -> Names
        ensures { result ≡ [] }
    {
        Names { set: None }
    }

    /// How many there are.
    pub(crate) fn len(&self) -> usize
        ensures { result ≡ length self.now }
    {
        match &self.set {
            Some(set) => set.get().len(),
            None => 0,
        }
    }

    /// The index of a name.
    pub(crate) fn index_of(&self, name: &VoiceName) -> Option<usize>
        ensures value { result ≡ position (bytes_eq name.now) self.now }
        ensures inside { IfSome result (λ at. at < length self.now) }
    {
        match &self.set {
            Some(set) => set.get().get_index_of(name),
            None => None,
        }
    }

    /// The name at an index. No two are equal.
    pub(crate) fn get(&self, at: usize) -> Option<&VoiceName>
        ensures value { option_copied result ≡ slice_get self.now at }
        ensures distinct { IsDistinct bytes_eq self.now }
    {
        match &self.set {
            Some(set) => set.get().as_slice().get(at),
            None => None,
        }
    }

    /// A copy of the names that can be changed.
    fn to_set(&self, alloc: Global) -> Result<IndexSet<VoiceName>, AllocError>
        ensures { IfOk result (λ set. set.keys ≡ self.now) }
    {
        match &self.set {
            Some(set) => Ok(set.get().clone()?),
            None => Ok(IndexSet::new(alloc)),
        }
    }

    /// The names with one more at the end.
    pub(crate) fn with(&self, alloc: Global, name: VoiceName) -> Result<Names, AllocError>
        requires { position (bytes_eq name) self.now ≡ None }
        ensures { IfOk result (λ names. names ≡ self.now ++ name ∷ []) }
    {
        let mut set = self.to_set(alloc)?;
        set.insert(name)?;
        let set = Shared::new(alloc, set)?;
        Ok(Names { set: Some(set) })
    }

    /// The same names. It allocates nothing.
    pub(crate) fn share(&self) -> Result<Names, AllocError>
        ensures { IfOk result (λ names. names ≡ self.now) }
    {
        match &self.set {
            Some(set) => {
                let set = set.share()?;
                Ok(Names { set: Some(set) })
            }
            None => Ok(Names { set: None }),
        }
    }
}
