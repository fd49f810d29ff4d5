//! How the tones of a note or chord change when it is performed.

ghost use Rattle.std.specs.Prelude.{◌≡◌, ◌≤◌, All, IfOk, IfSome, map, option_and_then};
ghost use Rattle.abc_bars_items.specs.Item.{IsTone};
ghost use Rattle.abc_bars_items.specs.Velocity.{IsVelocity};
ghost use Rattle.abc_perform_note.specs.Key.{transposed_key};
ghost use Rattle.abc_perform_item.specs.ToneChange.{IsChange, IsChangeable, changed_key, changed_tone, changed_velocity, is_tied, moved_key, short_length};

use abc_bars_items::{HIGHEST_KEY, HIGHEST_VELOCITY, Tone};
use abc_perform_note::transposed_key;
use abc_text::ShortSequence;
use abc_time::Grains;
use std::alloc::{AllocError, Global};

/// What changes at each tone of a note or chord.
#[derive(Clone, Copy)]
pub struct ToneChange {
    /// The semitones by which it is moved.
    pub transpose: i8,
    /// What a fermata multiplies its length by: 2, or 1 without one.
    pub factor: u8,
    /// What grace notes take of it.
    pub taken: Grains,
    /// What accents add to its velocity.
    pub added: u8,
    /// What staccato or wedge divides its sound by, or 1.
    pub divisor: u8,
}

/// Returns the key some semitones higher; a silent key stays silent.
pub(crate) fn moved_key(transpose: i8, key: Option<u8>) -> Option<u8>
    ensures value { result ≡ moved_key transpose key }
    ensures range { IfSome result (λ moved. moved ≤ HIGHEST_KEY) }
{
    match key {
        Some(key) => transposed_key(key, i64::from(transpose)),
        None => None,
    }
}

impl ToneChange {
    /// Returns the key where a key is moved to.
    pub(crate) fn key(self, key: Option<u8>) -> Option<u8>
        ensures value { result ≡ changed_key self key }
        ensures range { IfSome result (λ moved. moved ≤ HIGHEST_KEY) }
    {
        moved_key(self.transpose, key)
    }

    /// Returns the velocity with accents, at most the highest one.
    pub(crate) fn velocity(self, velocity: u8) -> u8
        requires { IsVelocity velocity }
        ensures value { result ≡ changed_velocity self velocity }
        ensures range { IsVelocity result }
    {
        velocity.saturating_add(self.added).min(HIGHEST_VELOCITY)
    }

    /// Returns how long a sound of this length is.
    pub(crate) fn short_length(self, length: Grains) -> Grains
        requires { IsChange self }
        ensures value { result ≡ short_length self length }
        ensures most { result.0 ≤ length.0 }
    {
        Grains(length.0 / u64::from(self.divisor))
    }

    /// Returns whether a tie of a tone counts: what is shortened is not tied.
    pub(crate) fn is_tied(self, tied: bool) -> bool
        ensures { result ≡ is_tied self tied }
    {
        tied && self.divisor == 1
    }

    /// Returns a tone as it is performed.
    #[tactic(auto, unfolding(abc_time::specs::Grains::grains_of_a_whole_note, abc_time::specs::Grains::grains_of_the_longest_length))]
    pub(crate) fn tone(self, tone: Tone) -> Tone
        requires change { IsChange self }
        requires tone { IsChangeable self tone }
        ensures value { result ≡ changed_tone self tone }
        ensures range { IsTone result }
    {
        let held = u64::from(self.factor) * tone.length.0;
        let left = Grains(held.saturating_sub(self.taken.0));
        Tone {
            length: self.short_length(left),
            key: self.key(tone.key),
            velocity: self.velocity(tone.velocity),
            tied: self.is_tied(tone.tied),
        }
    }

    /// Returns tones as they are performed.
    pub(crate) fn tones(
        self,
        alloc: Global,
        tones: &[Tone],
    ) -> Result<ShortSequence<Tone>, AllocError>
        requires change { IsChange self }
        requires tones { All (IsChangeable self) tones.now }
        ensures value { IfOk result (λ changed. changed ≡ map (changed_tone self) tones.now) }
        ensures range { IfOk result (λ changed. All IsTone changed) }
    {
        let mut changed = ShortSequence::new(alloc);
        for tone in tones {
            changed.push(self.tone(*tone))?;
        }
        Ok(changed)
    }
}
