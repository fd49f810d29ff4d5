//! How far a stretch of the accompanied voice has come.

ghost use Rattle.std.specs.Prelude.{◌≡◌, ◌+◌, ◌==◌, ◌&&◌, IfOk, OnOk, true};
ghost use Rattle.abc_perform_accompaniment.specs.Stretch.{IsStretch, begun, closing, moved_by, next_stretch, opens_pickup, section_opening, step_fits, with_mark, with_step, with_time};
ghost use Rattle.abc_perform_accompaniment.specs.VoiceSetting.{IsVoiceSetting};
ghost use Rattle.abc_perform_accompaniment.specs.VoiceStep.{IsVoiceStep};
ghost use Rattle.abc_perform_harmony.specs.Harmony.{IsHarmony, IsHarmonyMark, harmony_after};
ghost use Rattle.abc_perform_note.specs.Length.{IsLengthOfANote};

use crate::voice_setting::{Pattern, VoiceSetting, share_pattern};
use crate::voice_step::VoiceStep;
use abc_fields::Meter;
use abc_perform_harmony::{Harmony, HarmonyMark, SoundingChord, TimedMark, harmony_after};
use abc_scan::BarLine;
use abc_text::Sequence;
use abc_time::Grains;
use std::alloc::{AllocError, Global};

/// What holds at the first note, chord or rest of a stretch in the voice's first layer.
#[derive(Drop)]
pub struct StretchBegin {
    pub meter: Meter,
    /// None if the meter's own pattern holds.
    pub pattern: Option<Pattern>,
}

/// How far a stretch has come: what is between two bar lines or ending marks of the accompanied voice.
#[derive(Drop)]
pub struct StretchState {
    /// What holds here. Its harmony is that of the stretch's beginning.
    pub setting: VoiceSetting,
    /// Whether the stretch is a pickup if it is shorter than a bar.
    pub first: bool,
    /// Whether an overlay mark is before this place in the stretch.
    pub layered: bool,
    /// The length of the first layer so far.
    pub length: Grains,
    /// None if the first layer has no note, chord or rest so far.
    pub begin: Option<StretchBegin>,
    /// The marks of the first layer so far.
    pub marks: Sequence<TimedMark>,
}

/// Returns the semitones by which a chord is moved: those of a directive and of a property, as far as 64 bits count.
fn moved_by(directive: i8, property: i64) -> i64
    ensures { result ≡ moved_by directive property }
{
    property.saturating_add(i64::from(directive))
}

/// Returns whether a short stretch after a bar line is a pickup, if the stretch before it has no length.
fn opens_pickup(line: BarLine, before: bool) -> bool
    ensures { result ≡ opens_pickup line before }
{
    line.closes != 0 || line.opens != 0 || line.double || before
}

impl StretchState {
    /// The beginning of a section.
    pub(crate) fn section_opening(
        alloc: Global,
        setting: &VoiceSetting,
    ) -> Result<StretchState, AllocError>
        requires { IsVoiceSetting setting.now }
        ensures value { IfOk result (λ state. state ≡ section_opening setting.now) }
        ensures range { IfOk result IsStretch }
    {
        Ok(StretchState {
            setting: setting.share()?,
            first: true,
            layered: false,
            length: Grains(0),
            begin: None,
            marks: Sequence::new(alloc),
        })
    }

    /// Returns what holds at the first note, chord or rest if it is here.
    fn begin_here(&self) -> Result<StretchBegin, AllocError>
        ensures { IfOk result (λ begin. begin ≡ begun self.now.setting) }
    {
        Ok(StretchBegin {
            meter: self.setting.meter,
            pattern: share_pattern(&self.setting.pattern)?,
        })
    }

    /// Adds a note, chord or rest of the first layer.
    #[tactic(auto, unfolding(abc_time::specs::Grains::grains_of_a_whole_note, abc_time::specs::Grains::grains_of_the_longest_length))]
    fn add_time(&mut self, length: Grains) -> Result<(), AllocError>
        requires state { IsStretch self.old }
        requires room { IsLengthOfANote (self.old.length.0 + length.0) }
        ensures value { OnOk result (self.new ≡ with_time self.old length) }
        ensures range { OnOk result (IsStretch self.new) }
    {
        if self.begin.is_none() {
            self.begin = Some(self.begin_here()?);
        }
        self.length = Grains(self.length.0 + length.0);
        Ok(())
    }

    /// Adds a mark of the first layer.
    fn add_mark(&mut self, mark: HarmonyMark) -> Result<(), AllocError>
        requires state { IsStretch self.old }
        requires mark { IsHarmonyMark mark }
        ensures value { OnOk result (self.new ≡ with_mark self.old mark) }
        ensures range { OnOk result (IsStretch self.new) }
    {
        self.marks.push(TimedMark {
            moment: self.length,
            mark,
        })
    }

    /// Adds a step that is neither a bar line nor an ending.
    pub(crate) fn add_step(&mut self, step: &VoiceStep) -> Result<(), AllocError>
        requires state { IsStretch self.old }
        requires step { IsVoiceStep step.now }
        requires room { step_fits self.old step.now ≡ true }
        ensures value { OnOk result (self.new ≡ with_step self.old step.now) }
        ensures range { OnOk result (IsStretch self.new) }
    {
        match step {
            VoiceStep::Meter(meter) => {
                self.setting.meter = *meter;
                self.setting.pattern = None;
                Ok(())
            }
            VoiceStep::Transpose(by) => {
                self.setting.transpose = *by;
                Ok(())
            }
            VoiceStep::Overlay => {
                self.layered = true;
                Ok(())
            }
            _ if self.layered => Ok(()),
            VoiceStep::Time(length) => self.add_time(*length),
            VoiceStep::Pattern(pattern) => {
                self.setting.pattern = Some(pattern.share()?);
                Ok(())
            }
            VoiceStep::ChordName {
                name,
                transpose,
                place,
            } => self.add_mark(HarmonyMark::Chord(SoundingChord {
                name: *name,
                by: moved_by(self.setting.transpose, *transpose),
                place: *place,
            })),
            VoiceStep::Harmony(mark) => self.add_mark(*mark),
            _ => Ok(()),
        }
    }

    /// Returns what holds after the marks of the stretch.
    fn last_harmony(&self) -> Harmony
        requires { IsStretch self.now }
        ensures value { result ≡ harmony_after self.now.setting.harmony self.now.marks }
        ensures range { IsHarmony result }
    {
        harmony_after(self.setting.harmony, self.marks.as_slice())
    }

    /// Begins the stretch after this one.
    pub(crate) fn begin_next(&mut self, alloc: Global, first: bool)
        requires { IsStretch self.old }
        ensures value { self.new ≡ next_stretch self.old first }
        ensures range { IsStretch self.new }
    {
        self.setting.harmony = self.last_harmony();
        self.first = first;
        self.layered = false;
        self.length = Grains(0);
        self.begin = None;
        self.marks = Sequence::new(alloc);
    }

    /// Returns what holds after the section that ends here.
    pub(crate) fn into_setting(mut self) -> VoiceSetting
        requires { IsStretch self }
        ensures value { result ≡ closing self }
        ensures range { IsVoiceSetting result }
    {
        self.setting.harmony = self.last_harmony();
        self.setting
    }

    /// Returns whether the stretch after a bar line is a pickup if it is shorter than a bar.
    pub(crate) fn opens_pickup(&self, line: BarLine) -> bool
        ensures { result ≡ opens_pickup line (self.now.first && self.now.length.0 == 0) }
    {
        opens_pickup(line, self.first && self.length.0 == 0)
    }
}
