//! The parts of the voices of a tune in a section.

ghost use Rattle.std.specs.Prelude.{◌≡◌, ◌<◌, ◌≤◌, ◌^◌, map, option_copied, slice_get, sum_by, IfOk};
ghost use Rattle.abc_repeat.specs.declared.play.TheConstants.{MOST_PLACES};
ghost use Rattle.abc_time.specs.Grains.{grains_of_the_latest_end};
ghost use Rattle.abc_voices_sections.specs.PlayedSection.{count_in, time_in, section_time};
ghost use Rattle.abc_voices_sections.specs.Stage.{steps_at, part_in, stage_in, part_size, stage_size};

use crate::play::{duration, played_steps};
use crate::section::Section;
use crate::step::AsItem;
use abc_repeat::RepeatFault;
use abc_text::Sequence;
use abc_time::Grains;
use std::alloc::{AllocError, Global};
use thiserror::Error;

/// The steps that a voice plays of a section.
#[derive(Drop)]
pub struct VoicePart<T> {
    /// The steps, in order of play.
    pub steps: Sequence<T>,
    /// Their time.
    pub length: Grains,
}

/// The parts of all voices of a tune in a section.
#[derive(Drop)]
pub struct Stage<T> {
    /// The part of each voice, in the order of the voices.
    pub parts: Sequence<VoicePart<T>>,
    /// The length of the section: that of the longest part.
    pub longest: Grains,
}

/// The reason why a tune has no stages.
#[derive(Clone, Copy, Debug, PartialEq, Eq, Error)]
pub enum StageError {
    /// More steps are played than there is room for.
    #[error("more than 1,000,000 notes, chords, rests, fields and programs would be played")]
    TooMany,
    /// A section is longer than a tune may be.
    #[error("the tune would be longer than 131,072 whole notes")]
    TooLate,
    /// An allocation fails.
    #[error("out of memory")]
    OutOfMemory,
}

impl From<AllocError> for StageError {
    ghost use Rattle.abc_voices_sections.specs.declared.stage.StageError.TheVariants as faults;

    ghost from_gives = { λ _ fault. fault ≡ faults.OutOfMemory };

    fn from(_e: AllocError) -> StageError {
        StageError::OutOfMemory
    }
}

impl From<RepeatFault> for StageError {
    ghost use Rattle.abc_voices_sections.specs.Stage.{stage_error};

    ghost from_gives = { λ why fault. fault ≡ stage_error why };

    fn from(why: RepeatFault) -> StageError {
        match why {
            RepeatFault::TooLong => StageError::TooMany,
            RepeatFault::OutOfMemory => StageError::OutOfMemory,
        }
    }
}

impl<T: AsItem> VoicePart<T> {
    /// Returns the part of a voice in a section. It returns `TooMany` if that has more than `room` steps, `TooLate` if it is longer
    /// than a tune may be, and `OutOfMemory` if an allocation fails.
    pub fn of(
        alloc: Global,
        section: &Section<'_, T>,
        voice: &[u8],
        room: u64,
    ) -> Result<VoicePart<T>, StageError>
        requires { room ≤ MOST_PLACES }
        ensures value { IfOk result (λ own. own ≡ part_in T.item_of (steps_at section.now) voice.now) }
        ensures within { IfOk result (λ own. part_size own ≤ room) }
        ensures in_time { IfOk result (λ own. own.length.0 ≤ grains_of_the_latest_end) }
        ensures too_many { result ≡ Err StageError.TooMany
            → room < count_in T.item_of (steps_at section.now) voice.now }
        ensures too_late { result ≡ Err StageError.TooLate
            → grains_of_the_latest_end < time_in T.item_of (steps_at section.now) voice.now }
    {
        let steps = played_steps(alloc, section, voice, room)?;
        match duration(&steps) {
            Some(length) => Ok(VoicePart {
                steps: Sequence::from(steps),
                length,
            }),
            None => Err(StageError::TooLate),
        }
    }

    /// Returns the number of steps that are played.
    pub fn size(&self) -> u64
        ensures { result ≡ part_size self.now }
    {
        self.steps.len() as u64
    }
}

impl<T: AsItem> Stage<T> {
    /// Returns the parts of the voices in a section. It returns `TooMany` if they have more than `room` steps, `TooLate` if one is
    /// longer than a tune may be, and `OutOfMemory` if an allocation fails.
    pub fn of(
        alloc: Global,
        section: &Section<'_, T>,
        voices: &[&[u8]],
        room: u64,
    ) -> Result<Stage<T>, StageError>
        requires { room ≤ MOST_PLACES }
        ensures value { IfOk result (λ stage. stage
            ≡ stage_in T.item_of (map (λ voice. voice.now) voices.now) (steps_at section.now)) }
        ensures size { IfOk result (λ stage. stage_size stage
            ≡ sum_by (count_in T.item_of (steps_at section.now)) (map (λ voice. voice.now) voices.now)) }
        ensures within { IfOk result (λ stage. stage_size stage ≤ room) }
        ensures in_time { IfOk result (λ stage. stage.longest.0 ≤ grains_of_the_latest_end) }
        ensures too_many { result ≡ Err StageError.TooMany
            → room < sum_by (count_in T.item_of (steps_at section.now)) (map (λ voice. voice.now) voices.now) }
        ensures too_late { result ≡ Err StageError.TooLate
            → grains_of_the_latest_end
            < section_time T.item_of (map (λ voice. voice.now) voices.now) (steps_at section.now) }
    {
        let mut parts = Sequence::new(alloc);
        let mut left = room;
        let mut longest = Grains(0);
        for voice in voices {
            let own = VoicePart::of(alloc, section, voice, left)?;
            left -= own.size();
            longest = longest.max(own.length);
            parts.push(own)?;
        }
        Ok(Stage { parts, longest })
    }

    /// Returns the part of the voice at an index, if there is one.
    pub fn part(&self, voice: usize) -> Option<&VoicePart<T>>
        ensures { option_copied result ≡ slice_get self.now.parts voice }
    {
        self.parts.as_slice().get(voice)
    }

    /// Returns the number of steps that the voices play together.
    pub fn size(&self) -> u64
        requires { stage_size self.now < 2 ^ 64 }
        ensures { result ≡ stage_size self.now }
    {
        self.parts.as_slice().iter().map(|own| own.size()).sum()
    }
}
