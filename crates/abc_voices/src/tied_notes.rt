//! Notes of time tokens, tied ones joined, from the last token to the first.

ghost use Rattle.std.specs.Prelude.{◌≡◌, ◌==◌, ◌≤◌, ◌<◌, ◌++◌, [], ◌∷◌, length, position, remove, slice_index_or, All, Some};
ghost use Rattle.std.specs.Prelude.{IfSome, OnOk};
ghost use Rattle.abc_bars_items.specs.Item.{IsTone};
ghost use Rattle.abc_time.specs.Grains.{grains_of_the_latest_end};
ghost use Rattle.abc_voices.specs.Layout.{all_notes};
ghost use Rattle.abc_voices.specs.TiedNotes.{before, next_place, notes_in, with_key, with_token_begun};

use abc_bars_items::Tone;
use abc_time::Grains;
use abc_voices_score::Sounding;
use std::alloc::{AllocError, Global};
use std::marker::Model;

/// Returns the place of the first note of a key.
fn place_of(notes: &[Sounding], key: u8) -> Option<usize>
    ensures { result ≡ position (λ note. note.key == key) notes.now }
{
    notes.iter().position(|note| note.key == key)
}

/// Returns the place of the note with which a tone is joined.
fn next_place(tied: bool, key: u8, next: &[Sounding]) -> Option<usize>
    ensures value { result ≡ next_place tied key next.now }
    ensures inside { IfSome result (λ place. place < length next.now) }
{
    if tied { place_of(next, key) } else { None }
}

/// The notes of a play, in one list. The last are those that begin at its first time token. Before them are those of the
/// next one to which none of these is tied. Contracts see the parts.
#[derive(Drop)]
pub(crate) struct ReverseNotes {
    notes: Vec<Sounding>,
    /// The place of the first that begins at the next time token.
    next: usize,
    /// The place of the first that begins at the first time token.
    begun: usize,
}

impl Model for ReverseNotes {
    ghost use Rattle.std.specs.Prelude.{◌≤◌, length, take, drop, slice_range};
    ghost use Rattle.abc_voices.specs.TiedNotes.{NotesInParts};

    ghost Value = { NotesInParts };

    ghost view = { λ one. record {
      linked = record { begun = drop one.begun one.notes.items; next = slice_range one.notes.items one.next one.begun };
      others = take one.next one.notes.items;
    } };

    ghost invariant = { λ one. (one.next ≤ one.begun) × (one.begun ≤ length one.notes.items) };
}

impl ReverseNotes {
    /// Returns an empty play.
    pub(crate) fn new(alloc: Global) -> ReverseNotes
        ensures { result ≡ record { linked = record { begun = []; next = [] }; others = [] } }
    {
        ReverseNotes {
            notes: Vec::new(alloc),
            next: 0,
            begun: 0,
        }
    }

    /// Makes room for `more` notes.
    pub(crate) fn reserve(&mut self, more: usize) -> Result<(), AllocError>
        ensures { self.new ≡ self.old }
    {
        self.notes.reserve(more)?;
        Ok(())
    }

    /// Returns the place of the note with which a tone is joined, among those that begin at the next time token.
    fn next_place(&self, tied: bool, key: u8) -> Option<usize>
        ensures value { result ≡ next_place tied key self.now.linked.next }
        ensures inside { IfSome result (λ place. place < length self.now.linked.next) }
    {
        next_place(tied, key, &self.notes[self.next..self.begun])
    }

    /// Removes the note at a place, among those that begin at the next time token. It is a call of its own, since few tones
    /// are tied.
    #[inline(never)]
    fn take_next(&mut self, place: usize) -> Sounding
        requires { place < length self.old.linked.next }
        ensures value { result ≡ slice_index_or self.old.linked.next place result }
        ensures rest { self.new ≡ record self.old { linked = record self.old.linked { next = remove self.old.linked.next place } } }
    {
        self.begun -= 1;
        self.notes.remove(self.next + place)
    }

    /// Appends a note that begins at the first time token.
    fn push(&mut self, note: Sounding) -> Result<(), AllocError>
        ensures { OnOk result (self.new
            ≡ record self.old { linked = record self.old.linked { begun = self.old.linked.begun ++ note ∷ [] } }) }
    {
        self.notes.push(note)?;
        Ok(())
    }

    /// Begins the note of a tone at a moment, if it has a key.
    #[tactic(auto, using(abc_time::proofs::GrainNumbers::grain_numbers))]
    fn begin_note(&mut self, at: Grains, tone: &Tone) -> Result<(), AllocError>
        requires at { at.0 ≤ grains_of_the_latest_end }
        requires tone { IsTone tone.now }
        ensures { OnOk result (self.new
            ≡ record self.old { linked = with_key at.0 tone.now self.old.linked tone.now.key }) }
    {
        let Some(key) = tone.key else {
            return Ok(());
        };
        let mut note = Sounding {
            key,
            on: at,
            off: Grains(at.0 + tone.length.0),
            velocity: tone.velocity,
        };
        if let Some(place) = self.next_place(tone.tied, key) {
            note.off = self.take_next(place).off;
        }
        self.push(note)
    }

    /// Begins a time token before the first one.
    fn begin_token(&mut self)
        ensures { self.new ≡ with_token_begun self.old }
    {
        self.next = self.begun;
        self.begun = self.notes.len();
    }

    /// Puts a time token before the play.
    pub(crate) fn put_token(&mut self, at: Grains, tones: &[Tone]) -> Result<(), AllocError>
        requires at { at.0 ≤ grains_of_the_latest_end }
        requires tones { All IsTone tones.now }
        ensures { OnOk result (notes_in self.new ≡ before at.0 (Some tones.now) (notes_in self.old)) }
    {
        self.begin_token();
        for tone in tones {
            self.begin_note(at, tone)?;
        }
        Ok(())
    }

    /// Puts a time token of one tone before the play.
    pub(crate) fn put_tone(&mut self, at: Grains, tone: &Tone) -> Result<(), AllocError>
        requires at { at.0 ≤ grains_of_the_latest_end }
        requires tone { IsTone tone.now }
        ensures { OnOk result (notes_in self.new ≡ before at.0 (Some (tone.now ∷ [])) (notes_in self.old)) }
    {
        self.begin_token();
        self.begin_note(at, tone)
    }

    /// Returns all notes.
    pub(crate) fn into_notes(self) -> Vec<Sounding>
        ensures { result.items ≡ all_notes (notes_in self) }
    {
        self.notes
    }
}
