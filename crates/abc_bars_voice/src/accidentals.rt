//! The accidentals of a bar.

ghost use Rattle.std.specs.Prelude.{◌≡◌, [], OnErr, OnOk};
ghost use Rattle.abc_bars_voice.specs.Accidentals.{letters_in, no_accidentals, on_letter, reach_of, with_accidental, with_letter};
ghost use Rattle.abc_bars_voice.specs.Accidentals.{with_octave, written_on};

use crate::octave_groups::OctaveGroups;
use crate::same::Same;
use abc_scan::{Letter, Note, Reach};
use std::alloc::{AllocError, Global};
use std::marker::Model;

/// By how many semitones the accidentals of a bar alter each letter; None if it has none (ABC 2.1 section 4.2).
#[derive(Clone, Copy, PartialEq, Eq)]
pub struct LetterAccidentals {
    pub c: Option<i8>,
    pub d: Option<i8>,
    pub e: Option<i8>,
    pub f: Option<i8>,
    pub g: Option<i8>,
    pub a: Option<i8>,
    pub b: Option<i8>,
}

/// The groups of octaves of usual music: from the octave of the middle C up, and below it.
const MOST_GROUPS: usize = 2;

/// No accidentals on any letter.
pub(crate) const NO_LETTERS: LetterAccidentals = LetterAccidentals {
    c: None,
    d: None,
    e: None,
    f: None,
    g: None,
    a: None,
    b: None,
};

/// The accidentals on the letters of each octave that has any. Contracts see a list with rising octaves, which is the same
/// in whatever order the accidentals were written. Copies share them.
#[derive(Drop)]
pub struct OctaveAccidentals {
    groups: OctaveGroups,
}

impl Model for OctaveAccidentals {
    ghost use Rattle.std.specs.Prelude.{List, ℤ};
    ghost use Rattle.abc_bars_voice.specs.declared.accidentals.LetterAccidentals.{LetterAccidentals};
    ghost use Rattle.abc_bars_voice.specs.OctaveGroups.{AreGrouped, octaves_of};

    ghost Value = { List (ℤ × LetterAccidentals) };

    ghost view = { λ o. octaves_of o.groups };

    ghost invariant = { λ o. AreGrouped o.groups };
}

/// The accidentals of a bar, as far as they reach (ABC 2.1 section 11.3).
#[derive(Drop)]
pub enum Accidentals {
    /// No accidental alters another note.
    Own,
    /// Each alters its letter in its octave.
    InOctaves(OctaveAccidentals),
    /// Each alters its letter in every octave.
    OnLetters(LetterAccidentals),
}

impl LetterAccidentals {
    /// By how many semitones the last accidental on a letter alters it, if there is one.
    fn on(&self, letter: Letter) -> Option<i8>
        ensures { result ≡ on_letter self.now letter }
    {
        match letter {
            Letter::C => self.c,
            Letter::D => self.d,
            Letter::E => self.e,
            Letter::F => self.f,
            Letter::G => self.g,
            Letter::A => self.a,
            Letter::B => self.b,
        }
    }

    /// Adds an accidental on a letter.
    fn set(&mut self, letter: Letter, by: i8)
        ensures { self.new ≡ with_letter self.old letter by }
    {
        match letter {
            Letter::C => self.c = Some(by),
            Letter::D => self.d = Some(by),
            Letter::E => self.e = Some(by),
            Letter::F => self.f = Some(by),
            Letter::G => self.g = Some(by),
            Letter::A => self.a = Some(by),
            Letter::B => self.b = Some(by),
        }
    }
}

impl OctaveAccidentals {
    /// No accidentals in any octave.
    fn new(alloc: Global) -> OctaveAccidentals
        ensures { result ≡ [] }
    {
        OctaveAccidentals {
            groups: OctaveGroups::new(alloc),
        }
    }

    /// The accidentals in an octave.
    fn letters_in(&self, octave: i32) -> LetterAccidentals
        ensures { result ≡ letters_in self.now octave }
    {
        self.groups.letters_in(octave)
    }

    /// Adds an accidental on a letter in an octave.
    fn set(&mut self, octave: i32, letter: Letter, by: i8) -> Result<(), AllocError>
        ensures ok { OnOk result (self.new ≡ with_octave self.old octave letter by) }
        ensures unchanged { OnErr result (self.new ≡ self.old) }
    {
        let mut letters = self.letters_in(octave);
        letters.set(letter, by);
        self.groups = self.groups.with(octave, letters)?;
        Ok(())
    }

    /// Whether they are in few groups of octaves, so that a comparison is cheap. No result depends on it.
    fn is_small(&self) -> bool {
        self.groups.len() <= MOST_GROUPS
    }

    /// Removes all accidentals.
    fn clear(&mut self)
        ensures { self.new ≡ [] }
    {
        self.groups = self.groups.without_groups();
    }
}

impl Same for OctaveAccidentals {
    fn same(&self, other: &OctaveAccidentals) -> bool {
        self.groups.same(&other.groups)
    }
}

impl Clone for OctaveAccidentals {
    ghost is_clone = { λ accidentals copy. copy ≡ accidentals };

    fn clone(&self) -> Result<OctaveAccidentals, AllocError> {
        Ok(OctaveAccidentals {
            groups: self.groups.clone()?,
        })
    }
}

impl Clone for Accidentals {
    ghost is_clone = { λ accidentals copy. copy ≡ accidentals };

    fn clone(&self) -> Result<Accidentals, AllocError> {
        match self {
            Accidentals::Own => Ok(Accidentals::Own),
            Accidentals::InOctaves(octaves) => {
                let octaves = octaves.clone()?;
                Ok(Accidentals::InOctaves(octaves))
            }
            Accidentals::OnLetters(letters) => Ok(Accidentals::OnLetters(*letters)),
        }
    }
}

impl Accidentals {
    /// The accidentals at the beginning of a bar, none, with this reach.
    pub fn none(alloc: Global, reach: Reach) -> Accidentals
        ensures { result ≡ no_accidentals reach }
    {
        match reach {
            Reach::Not => Accidentals::Own,
            Reach::Octave => Accidentals::InOctaves(OctaveAccidentals::new(alloc)),
            Reach::Pitch => Accidentals::OnLetters(NO_LETTERS),
        }
    }

    /// Whether a comparison is cheap. No result depends on it.
    pub fn is_small(&self) -> bool {
        match self {
            Accidentals::Own | Accidentals::OnLetters(_) => true,
            Accidentals::InOctaves(octaves) => octaves.is_small(),
        }
    }

    /// By how many semitones the last of the accidentals that reach a note alters it, if there is one.
    pub fn on(&self, note: Note) -> Option<i8>
        ensures { result ≡ written_on self.now note }
    {
        match self {
            Accidentals::Own => None,
            Accidentals::InOctaves(octaves) => octaves.letters_in(note.octave).on(note.letter),
            Accidentals::OnLetters(letters) => letters.on(note.letter),
        }
    }

    /// Adds the accidental of a note after the others. It returns an error if an allocation fails.
    pub fn set(&mut self, note: Note, by: i8) -> Result<(), AllocError>
        ensures ok { OnOk result (self.new ≡ with_accidental self.old note by) }
        ensures unchanged { OnErr result (self.new ≡ self.old) }
    {
        match self {
            Accidentals::Own => {}
            Accidentals::InOctaves(octaves) => octaves.set(note.octave, note.letter, by)?,
            Accidentals::OnLetters(letters) => letters.set(note.letter, by),
        }
        Ok(())
    }

    /// Removes all accidentals; later ones have the same reach.
    pub fn clear(&mut self)
        ensures { self.new ≡ no_accidentals (reach_of self.old) }
    {
        match self {
            Accidentals::Own => {}
            Accidentals::InOctaves(octaves) => octaves.clear(),
            Accidentals::OnLetters(letters) => *letters = NO_LETTERS,
        }
    }
}
