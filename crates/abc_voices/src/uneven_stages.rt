//! Whether voices are uneven in stages that are played.

ghost use Rattle.std.specs.Prelude.{◌≡◌};
ghost use Rattle.std.specs.List.{list_any};
ghost use Rattle.abc_voices.specs.Turns.{stages_in, parts_differ, is_stage_uneven};
ghost use Rattle.abc_voices_sections.specs.Stage.{part_items, stage_items};

use crate::timing::plays_time;
use abc_bars_items::Item;
use abc_voices_sections::{Stage, Turn, VoicePart};

/// Whether two parts that play time differ in length.
fn parts_differ(a: &VoicePart<&Item>, b: &VoicePart<&Item>) -> bool
    ensures { result ≡ parts_differ (part_items a.now) (part_items b.now) }
{
    plays_time(a.steps.as_slice()) && plays_time(b.steps.as_slice()) && a.length != b.length
}

/// Whether a part that plays time differs in length from one of some others.
fn differs_from_one(a: &VoicePart<&Item>, parts: &[VoicePart<&Item>]) -> bool
    ensures { result ≡ list_any (λ b. parts_differ (part_items a.now) (part_items b)) parts.now }
{
    parts.iter().any(|b| parts_differ(a, b))
}

/// Whether two of some parts that play time differ in length.
fn are_uneven(parts: &[VoicePart<&Item>]) -> bool
    ensures { result ≡ list_any (λ a. list_any (λ b. parts_differ (part_items a) (part_items b)) parts.now) parts.now }
{
    parts.iter().any(|a| differs_from_one(a, parts))
}

/// Whether two voices that play time in a stage differ in length there.
fn is_stage_uneven(stage: &Stage<&Item>) -> bool
    ensures { result ≡ is_stage_uneven (stage_items stage.now) }
{
    are_uneven(stage.parts.as_slice())
}

/// Whether voices are uneven in one of some stages.
pub(crate) fn is_uneven(turns: &[Turn<'_, &Item>]) -> bool
    ensures { result ≡ list_any is_stage_uneven (stages_in turns.now) }
{
    for turn in turns {
        if is_stage_uneven(turn.stage) {
            return true;
        }
    }
    false
}
