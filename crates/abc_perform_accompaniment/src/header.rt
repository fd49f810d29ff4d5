//! What the directives of a header say of the accompaniment.

ghost use Rattle.std.specs.Prelude.{◌≡◌, All, OnOk, false};
ghost use Rattle.abc_fields.specs.Meter.{IsMeterInRange};
ghost use Rattle.abc_perform_item.specs.Performance.{IsPerformed};
ghost use Rattle.abc_perform_harmony.specs.Harmony.{IsHarmonyMark};
ghost use Rattle.abc_perform_accompaniment.specs.Header.{IsHeaderSetting, after_directives, header_opening, opening_program, with_directive, with_harmony};
ghost use Rattle.abc_perform_accompaniment.specs.VoiceStep.{IsVoiceStep};

use crate::stretch_items::made_item;
use crate::voice_setting::VoiceSetting;
use crate::voice_step::VoiceStep;
use abc_bars_items::Item;
use abc_fields::Meter;
use abc_perform_harmony::{HarmonyMark, Part, TimedMark, harmony_after};
use abc_perform_item::Performed;
use abc_time::Grains;
use std::alloc::AllocError;

/// What a header says of the accompaniment.
#[derive(Drop)]
pub struct HeaderSetting {
    pub setting: VoiceSetting,
    /// The program with which the chords begin.
    pub chord_program: u8,
    /// The program with which the bass begins.
    pub bass_program: u8,
}

impl HeaderSetting {
    /// What holds before all directives, in the meter of the header.
    pub fn opening(meter: Meter) -> HeaderSetting
        requires { IsMeterInRange meter }
        ensures value { result ≡ header_opening meter }
        ensures range { IsHeaderSetting result }
    {
        HeaderSetting {
            setting: VoiceSetting::opening(meter),
            chord_program: 0,
            bass_program: 0,
        }
    }

    /// Adds a directive, except of pattern or transposition.
    fn add_harmony(&mut self, mark: HarmonyMark)
        requires setting { IsHeaderSetting self.old }
        requires mark { IsHarmonyMark mark }
        ensures value { self.new ≡ with_harmony self.old mark }
        ensures range { IsHeaderSetting self.new }
    {
        match mark {
            HarmonyMark::Chord(_) | HarmonyMark::NoChord => {}
            HarmonyMark::ChordProgram(program) => self.chord_program = program,
            HarmonyMark::BassProgram(program) => self.bass_program = program,
            _ => {
                let timed = [TimedMark {
                    moment: Grains(0),
                    mark,
                }];
                self.setting.harmony = harmony_after(self.setting.harmony, &timed);
            }
        }
    }

    /// Adds a directive; all other steps have no effect. `layered` says whether an overlay mark is before it in its stretch.
    fn add_step(&mut self, layered: bool, step: &VoiceStep) -> Result<(), AllocError>
        requires setting { IsHeaderSetting self.old }
        requires step { IsVoiceStep step.now }
        ensures value { OnOk result (self.new ≡ with_directive self.old layered step.now) }
        ensures range { OnOk result (IsHeaderSetting self.new) }
    {
        match step {
            VoiceStep::Transpose(by) => self.setting.transpose = *by,
            VoiceStep::Pattern(pattern) if !layered => {
                self.setting.pattern = Some(pattern.share()?);
            }
            VoiceStep::Harmony(mark) if !layered => self.add_harmony(*mark),
            _ => {}
        }
        Ok(())
    }

    /// Adds the directives of a header, or those of a section of a voice without a track: they count as a header's. Chord names
    /// and meters have no effect.
    pub fn add_steps(&mut self, steps: &[VoiceStep]) -> Result<(), AllocError>
        requires setting { IsHeaderSetting self.old }
        requires steps { All IsVoiceStep steps.now }
        ensures value { OnOk result (self.new ≡ after_directives self.old false steps.now) }
        ensures range { OnOk result (IsHeaderSetting self.new) }
    {
        let mut layered = false;
        for step in steps {
            self.add_step(layered, step)?;
            layered = step.is_layered_after(layered);
        }
        Ok(())
    }
}

/// Returns the item with which a voice of the accompaniment begins the opening section: its program.
pub fn opening_program(part: Part, header: &HeaderSetting) -> Performed
    requires { IsHeaderSetting header.now }
    ensures value { result ≡ opening_program part header.now }
    ensures range { IsPerformed result }
{
    let program = match part {
        Part::Chords => header.chord_program,
        Part::Bass => header.bass_program,
    };
    made_item(Item::Program {
        opening: false,
        number: Some(program),
    })
}
