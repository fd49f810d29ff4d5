//! What holds of the accompaniment at a moment.

ghost use Rattle.std.specs.Prelude.{◌≡◌, All};
ghost use Rattle.abc_perform_harmony.specs.Harmony.{IsHarmony, IsHarmonyMark, IsTimedMark, harmony_after, opening, with_mark, without_chord};

use crate::harmony_mark::{HarmonyMark, SoundingChord, TimedMark};

/// The velocity of chords without a directive. Not in ABC 2.1.
const CHORD_VELOCITY: u8 = 50;

/// The velocity of the bass without a directive. Not in ABC 2.1.
const BASS_VELOCITY: u8 = 60;

/// What holds of the accompaniment at a moment.
#[derive(Clone, Copy)]
pub struct Harmony {
    /// None before the first chord name and after `"N.C."`.
    pub chord: Option<SoundingChord>,
    /// Whether it is heard.
    pub on: bool,
    pub chord_velocity: u8,
    pub bass_velocity: u8,
}

impl Harmony {
    /// Returns what holds before all marks.
    pub fn opening() -> Harmony
        ensures value { result ≡ opening }
        ensures range { IsHarmony result }
    {
        Harmony {
            chord: None,
            on: true,
            chord_velocity: CHORD_VELOCITY,
            bass_velocity: BASS_VELOCITY,
        }
    }

    /// Returns the same without a chord, as a pickup begins.
    pub(crate) fn without_chord(self) -> Harmony
        requires { IsHarmony self }
        ensures value { result ≡ without_chord self }
        ensures range { IsHarmony result }
    {
        Harmony {
            chord: None,
            on: self.on,
            chord_velocity: self.chord_velocity,
            bass_velocity: self.bass_velocity,
        }
    }

    /// Returns what holds after a mark.
    fn with_mark(self, mark: HarmonyMark) -> Harmony
        requires harmony { IsHarmony self }
        requires mark { IsHarmonyMark mark }
        ensures value { result ≡ with_mark self mark }
        ensures range { IsHarmony result }
    {
        let mut after = self;
        match mark {
            HarmonyMark::Chord(chord) => after.chord = Some(chord),
            HarmonyMark::NoChord => after.chord = None,
            HarmonyMark::On => after.on = true,
            HarmonyMark::Off => after.on = false,
            HarmonyMark::ChordVelocity(velocity) => after.chord_velocity = velocity,
            HarmonyMark::BassVelocity(velocity) => after.bass_velocity = velocity,
            HarmonyMark::ChordProgram(_) | HarmonyMark::BassProgram(_) => {}
        }
        after
    }
}

/// Returns what holds of the accompaniment after marks.
pub fn harmony_after(harmony: Harmony, marks: &[TimedMark]) -> Harmony
    requires harmony { IsHarmony harmony }
    requires marks { All IsTimedMark marks.now }
    ensures value { result ≡ harmony_after harmony marks.now }
    ensures range { IsHarmony result }
{
    let mut after = harmony;
    for timed in marks {
        after = after.with_mark(timed.mark);
    }
    after
}
