//! What holds for the accompaniment at a place of the accompanied voice.

ghost use Rattle.std.specs.Prelude.{◌≡◌, IfOk};
ghost use Rattle.abc_fields.specs.Meter.{IsMeterInRange};
ghost use Rattle.abc_perform_accompaniment.specs.VoiceSetting.{IsVoiceSetting, opening};

use abc_fields::Meter;
use abc_marks::Step;
use abc_perform_harmony::Harmony;
use abc_text::{Sequence, Shared};
use std::alloc::AllocError;

/// A pattern of the accompaniment, which its copies share.
pub type Pattern = Shared<Sequence<Step>>;

/// What holds for the accompaniment at a place of the accompanied voice.
#[derive(Drop)]
pub struct VoiceSetting {
    pub meter: Meter,
    /// The pattern of the last directive after the last meter; None if the meter's own one holds.
    pub pattern: Option<Pattern>,
    /// The semitones by which a directive moves the voice.
    pub transpose: i8,
    pub harmony: Harmony,
}

/// Returns a copy of a pattern, which shares it. It allocates nothing.
pub(crate) fn share_pattern(pattern: &Option<Pattern>) -> Result<Option<Pattern>, AllocError>
    ensures { IfOk result (λ copy. copy ≡ pattern.now) }
{
    match pattern {
        Some(pattern) => Ok(Some(pattern.share()?)),
        None => Ok(None),
    }
}

impl VoiceSetting {
    /// What holds before all directives, in the meter of the tune's header.
    pub fn opening(meter: Meter) -> VoiceSetting
        requires { IsMeterInRange meter }
        ensures value { result ≡ opening meter }
        ensures range { IsVoiceSetting result }
    {
        VoiceSetting {
            meter,
            pattern: None,
            transpose: 0,
            harmony: Harmony::opening(),
        }
    }

    /// A copy, which shares the pattern. It allocates nothing.
    pub fn share(&self) -> Result<VoiceSetting, AllocError>
        ensures { IfOk result (λ copy. copy ≡ self.now) }
    {
        Ok(VoiceSetting {
            meter: self.meter,
            pattern: share_pattern(&self.pattern)?,
            transpose: self.transpose,
            harmony: self.harmony,
        })
    }
}
