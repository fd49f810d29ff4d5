//! The accidentals of all octaves, group by group.

ghost use Rattle.std.specs.Prelude.{◌≡◌, [], length, IfOk};
ghost use Rattle.std.specs.Option.{option_copied};
ghost use Rattle.std.specs.BTreeMap.{insert_entry, is_at};
ghost use Rattle.std.specs.Map.{lookup};
ghost use Rattle.std.specs.Ordering.{int_cmp};
ghost use Rattle.abc_bars_voice.specs.Accidentals.{letters_in};
ghost use Rattle.abc_bars_voice.specs.OctaveGroups.{group_at, group_of, with_value};

use crate::accidentals::{LetterAccidentals, NO_LETTERS};
use crate::octave_group::OctaveGroup;
use crate::same::Same;
use abc_text::Shared;
use std::alloc::{AllocError, Global};
use std::collections::BTreeMap;
use std::marker::Model;

/// The octaves of a group.
const GROUP_SIZE: i32 = 32;

/// The number of the group of an octave.
fn group_of(octave: i32) -> i32
    ensures { result ≡ group_of octave }
{
    octave.div_euclid(GROUP_SIZE)
}

/// Groups of octaves by their numbers. Contracts see a list with rising numbers. Copies share them: an added accidental
/// copies its own group, and a word or two for each other group.
#[derive(Drop)]
pub(crate) struct OctaveGroups {
    alloc: Global,
    /// None if there are none.
    groups: Option<Shared<BTreeMap<i32, OctaveGroup>>>,
}

impl Model for OctaveGroups {
    ghost use Rattle.std.specs.Prelude.{List, ℤ};
    ghost use Rattle.abc_bars_voice.specs.declared.accidentals.LetterAccidentals.{LetterAccidentals};
    ghost use Rattle.abc_bars_voice.specs.OctaveGroups.{groups_in};

    ghost Value = { List (ℤ × List (ℤ × LetterAccidentals)) };

    ghost view = { λ all. groups_in all.groups };
}

impl OctaveGroups {
    /// No groups.
    pub(crate) fn new(alloc: Global) -> OctaveGroups
        ensures { result ≡ [] }
    {
        OctaveGroups {
            alloc,
            groups: None,
        }
    }

    /// Returns an empty list of groups with the same allocator.
    pub(crate) fn without_groups(&self) -> OctaveGroups
        ensures { result ≡ [] }
    {
        OctaveGroups::new(self.alloc)
    }

    /// How many groups there are.
    pub(crate) fn len(&self) -> usize
        ensures { result ≡ length self.now }
    {
        match &self.groups {
            Some(groups) => groups.get().len(),
            None => 0,
        }
    }

    /// The group of this number.
    fn group(&self, number: i32) -> Option<&OctaveGroup>
        ensures { option_copied result ≡ lookup (is_at (int_cmp number)) self.now }
    {
        match &self.groups {
            Some(groups) => groups.get().get(&number),
            None => None,
        }
    }

    /// The accidentals in an octave.
    pub(crate) fn letters_in(&self, octave: i32) -> LetterAccidentals
        ensures { result ≡ letters_in (group_at self.now octave) octave }
    {
        match self.group(group_of(octave)) {
            Some(group) => group.letters_in(octave),
            None => NO_LETTERS,
        }
    }

    /// A copy of the groups that can be changed.
    fn copy_groups(&self) -> Result<BTreeMap<i32, OctaveGroup>, AllocError>
        ensures { IfOk result (λ groups. groups.entries ≡ self.now) }
    {
        match &self.groups {
            Some(groups) => Ok(groups.get().clone()?),
            None => Ok(BTreeMap::new(self.alloc)),
        }
    }

    /// The groups with this one at its number.
    fn with_group(&self, number: i32, group: OctaveGroup) -> Result<OctaveGroups, AllocError>
        ensures { IfOk result (λ all. all ≡ insert_entry int_cmp self.now number group) }
    {
        let mut groups = self.copy_groups()?;
        groups.insert(number, group)?;
        let groups = Shared::new(self.alloc, groups)?;
        Ok(OctaveGroups {
            alloc: self.alloc,
            groups: Some(groups),
        })
    }

    /// The group of an octave with these accidentals in it.
    fn group_with(&self, octave: i32, letters: LetterAccidentals) -> Result<OctaveGroup, AllocError>
        ensures { IfOk result (λ group. group ≡ insert_entry int_cmp (group_at self.now octave) octave letters) }
    {
        match self.group(group_of(octave)) {
            Some(group) => group.with(self.alloc, octave, letters),
            None => OctaveGroup::of_octave(self.alloc, octave, letters),
        }
    }

    /// The groups with these accidentals in an octave.
    pub(crate) fn with(
        &self,
        octave: i32,
        letters: LetterAccidentals,
    ) -> Result<OctaveGroups, AllocError>
        ensures { IfOk result (λ all. all ≡ with_value self.now octave letters) }
    {
        let group = self.group_with(octave, letters)?;
        self.with_group(group_of(octave), group)
    }
}

impl Same for OctaveGroups {
    fn same(&self, other: &OctaveGroups) -> bool {
        match (&self.groups, &other.groups) {
            (Some(groups), Some(with)) => groups.get() == with.get(),
            (Some(groups), None) | (None, Some(groups)) => groups.get().is_empty(),
            (None, None) => true,
        }
    }
}

impl Clone for OctaveGroups {
    ghost is_clone = { λ all copy. copy ≡ all };

    fn clone(&self) -> Result<OctaveGroups, AllocError> {
        let groups = match &self.groups {
            Some(groups) => Some(groups.share()?),
            None => None,
        };
        Ok(OctaveGroups {
            alloc: self.alloc,
            groups,
        })
    }
}
