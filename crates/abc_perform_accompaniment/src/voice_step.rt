//! The steps of an accompanied voice.

ghost use Rattle.std.specs.Prelude.{◌≡◌, IfOk};
ghost use Rattle.abc_bars_items.specs.Item.{IsItem};
ghost use Rattle.abc_marks.specs.Directive.{IsPlayingDirective};
ghost use Rattle.abc_marks.specs.Mark.{IsMark};
ghost use Rattle.abc_perform_accompaniment.specs.VoiceStep.{IsVoiceStep, is_layered_after, role_of, step_of_directive, step_of_item, step_of_mark};

use crate::voice_setting::Pattern;
use abc_bars_items::Item;
use abc_fields::Meter;
use abc_marks::{ChordName, Mark, MarkKind, PlayingDirective};
use abc_perform_harmony::HarmonyMark;
use abc_perform_item::Place;
use abc_perform_layers::Role;
use abc_scan::BarLine;
use abc_time::Grains;
use std::alloc::AllocError;

/// What a step of a voice is to its accompaniment. The steps are the items and marks of the voice in a section, in order of text.
#[derive(Drop)]
pub enum VoiceStep {
    /// A note, chord, rest or bar rest of this length.
    Time(Grains),
    Bar(BarLine),
    /// The beginning of an ending, with its passes as an item has them.
    Ending(u32),
    /// An accepted meter of the tune's body.
    Meter(Meter),
    /// A program of the voice.
    Program,
    /// An overlay mark (ABC 2.1 section 7.4): chord names and directives after it in its stretch have no effect.
    Overlay,
    /// The semitones by which a directive moves the voice from here on.
    Transpose(i8),
    /// The pattern of the accompaniment from here on.
    Pattern(Pattern),
    /// A chord name (ABC 2.1 section 4.18).
    ChordName {
        name: ChordName,
        /// The semitones of the `transpose=` property that holds here.
        transpose: i64,
        /// The mark.
        place: Place,
    },
    /// Any other mark of the accompaniment.
    Harmony(HarmonyMark),
    /// All else.
    Other,
}

/// Returns what a directive is to the accompaniment.
fn step_of_directive(directive: &PlayingDirective) -> Result<VoiceStep, AllocError>
    requires { IsPlayingDirective directive.now }
    ensures value { IfOk result (λ step. step ≡ step_of_directive directive.now) }
    ensures range { IfOk result IsVoiceStep }
{
    Ok(match directive {
        PlayingDirective::Pattern(steps) => VoiceStep::Pattern(steps.share()?),
        PlayingDirective::AccompanimentOn => VoiceStep::Harmony(HarmonyMark::On),
        PlayingDirective::AccompanimentOff => VoiceStep::Harmony(HarmonyMark::Off),
        PlayingDirective::Transpose(by) => VoiceStep::Transpose(*by),
        PlayingDirective::ChordVelocity(n) => VoiceStep::Harmony(HarmonyMark::ChordVelocity(*n)),
        PlayingDirective::BassVelocity(n) => VoiceStep::Harmony(HarmonyMark::BassVelocity(*n)),
        PlayingDirective::ChordProgram(n) => VoiceStep::Harmony(HarmonyMark::ChordProgram(*n)),
        PlayingDirective::BassProgram(n) => VoiceStep::Harmony(HarmonyMark::BassProgram(*n)),
    })
}

impl VoiceStep {
    /// Returns what an item of a section is to the accompaniment.
    pub fn of_item(item: &Item) -> VoiceStep
        requires { IsItem item.now }
        ensures value { result ≡ step_of_item item.now }
        ensures range { IsVoiceStep result }
    {
        match item {
            Item::Tone { length, .. } | Item::Rest { length, .. } => VoiceStep::Time(*length),
            Item::Bar(line) => VoiceStep::Bar(*line),
            Item::Ending(passes) => VoiceStep::Ending(*passes),
            Item::Meter {
                meter: Some(meter),
                ..
            } => VoiceStep::Meter(*meter),
            Item::Program { .. } => VoiceStep::Program,
            _ => VoiceStep::Other,
        }
    }

    /// Returns what a mark with a place is to the accompaniment. It allocates nothing.
    pub fn of_mark(mark: &Mark, place: Place) -> Result<VoiceStep, AllocError>
        requires { IsMark mark.now }
        ensures value { IfOk result (λ step. step ≡ step_of_mark mark.now place) }
        ensures range { IfOk result IsVoiceStep }
    {
        match &mark.kind {
            MarkKind::ChordName {
                name,
                transpose,
                ..
            } => Ok(VoiceStep::ChordName {
                name: *name,
                transpose: *transpose,
                place,
            }),
            MarkKind::NoChord => Ok(VoiceStep::Harmony(HarmonyMark::NoChord)),
            MarkKind::Overlay => Ok(VoiceStep::Overlay),
            MarkKind::Directive(directive) => step_of_directive(directive),
            _ => Ok(VoiceStep::Other),
        }
    }

    /// Returns what the step is to the layers of its voice.
    pub fn role(&self) -> Role
        ensures { result ≡ role_of self.now }
    {
        match self {
            VoiceStep::Time(length) => Role::Time(*length),
            VoiceStep::Bar(_) | VoiceStep::Ending(_) => Role::Bound,
            VoiceStep::Program => Role::Program,
            VoiceStep::Overlay => Role::Overlay,
            _ => Role::Other,
        }
    }

    /// Returns whether an overlay mark is in the stretch after the step, if it is known whether one is before it.
    pub(crate) fn is_layered_after(&self, before: bool) -> bool
        ensures { result ≡ is_layered_after before self.now }
    {
        match self {
            VoiceStep::Overlay => true,
            VoiceStep::Bar(_) | VoiceStep::Ending(_) => false,
            _ => before,
        }
    }
}
