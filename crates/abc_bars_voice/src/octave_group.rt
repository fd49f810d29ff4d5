//! The accidentals of adjacent octaves.

ghost use Rattle.std.specs.Prelude.{◌≡◌, [], ◌∷◌, IfOk};
ghost use Rattle.std.specs.BTreeMap.{insert_entry};
ghost use Rattle.std.specs.Cmp.{partial_equiv_from_equiv};
ghost use Rattle.std.specs.Ordering.{int_cmp};
ghost use Rattle.abc_bars_voice.specs.Accidentals.{letters_in};
ghost use Rattle.abc_bars_voice.specs.Equality.{equivalence};
ghost use Rattle.abc_bars_voice.specs.OctaveGroups.{octaves_equality};

use crate::accidentals::{LetterAccidentals, NO_LETTERS};
use abc_text::Shared;
use std::alloc::{AllocError, Global};
use std::collections::BTreeMap;
use std::marker::Model;

/// The accidentals on the letters of each octave of a group that has any. Contracts see a list with rising octaves. Copies
/// share them.
#[derive(Drop)]
pub(crate) struct OctaveGroup {
    octaves: Shared<BTreeMap<i32, LetterAccidentals>>,
}

impl Model for OctaveGroup {
    ghost use Rattle.std.specs.Prelude.{List, ℤ};
    ghost use Rattle.abc_bars_voice.specs.declared.accidentals.LetterAccidentals.{LetterAccidentals};

    ghost Value = { List (ℤ × LetterAccidentals) };

    ghost view = { λ group. group.octaves.entries };
}

impl OctaveGroup {
    /// A group with accidentals in one octave.
    pub(crate) fn of_octave(
        alloc: Global,
        octave: i32,
        letters: LetterAccidentals,
    ) -> Result<OctaveGroup, AllocError>
        ensures { IfOk result (λ group. group ≡ (octave, letters) ∷ []) }
    {
        let mut octaves = BTreeMap::new(alloc);
        octaves.insert(octave, letters)?;
        let octaves = Shared::new(alloc, octaves)?;
        Ok(OctaveGroup { octaves })
    }

    /// The accidentals in an octave.
    #[tactic(auto, unfolding(crate::specs::Accidentals::letters_in))]
    pub(crate) fn letters_in(&self, octave: i32) -> LetterAccidentals
        ensures { result ≡ letters_in self.now octave }
    {
        let octaves = self.octaves.get();
        octaves.get(&octave).copied().unwrap_or(NO_LETTERS)
    }

    /// A copy of the octaves that can be changed.
    fn copy_octaves(&self) -> Result<BTreeMap<i32, LetterAccidentals>, AllocError>
        ensures { IfOk result (λ octaves. octaves.entries ≡ self.now) }
    {
        Ok(self.octaves.get().clone()?)
    }

    /// The group with these accidentals in an octave.
    pub(crate) fn with(
        &self,
        alloc: Global,
        octave: i32,
        letters: LetterAccidentals,
    ) -> Result<OctaveGroup, AllocError>
        ensures { IfOk result (λ group. group ≡ insert_entry int_cmp self.now octave letters) }
    {
        let mut octaves = self.copy_octaves()?;
        octaves.insert(octave, letters)?;
        let octaves = Shared::new(alloc, octaves)?;
        Ok(OctaveGroup { octaves })
    }
}

impl Clone for OctaveGroup {
    ghost is_clone = { λ group copy. copy ≡ group };

    fn clone(&self) -> Result<OctaveGroup, AllocError> {
        let octaves = self.octaves.share()?;
        Ok(OctaveGroup { octaves })
    }
}

impl PartialEq for OctaveGroup {
    ghost eq = { octaves_equality.same };

    ghost laws = { partial_equiv_from_equiv (equivalence octaves_equality) };

    fn eq(&self, other: &OctaveGroup) -> bool {
        self.octaves.get() == other.octaves.get()
    }
}
