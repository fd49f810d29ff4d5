//! The parts of a chord that give its tones.

ghost use Rattle.std.specs.Prelude.{◌≡◌, List, IfOk};
ghost use Rattle.abc_bars_notes.specs.TokenRole.{is_note_part};
ghost use Rattle.abc_bars_notes.specs.declared.chords.ChordContext.{ChordContext};
ghost use Rattle.abc_bars_voice.specs.declared.voice_state.VoiceState.{VoiceState};
ghost use Rattle.abc_time.specs.declared.ratio.Ratio.{Ratio};
ghost use Rattle.abc_play_places.specs.ToneGivers.{tone_parts, tone_givers};

use abc_bars_items::MOST_CHORD_NOTES;
use abc_scan::{ChordPart, ChordPartKind};
use std::alloc::{AllocError, Global};

/// Whether a part of a chord is a note.
fn is_note_part(kind: &ChordPartKind) -> bool
    ensures { result ≡ is_note_part kind.now }
{
    matches!(kind, ChordPartKind::Note(_))
}

/// Returns for each tone of a chord the index of the part that gives it: its first sixteen notes. It returns an error if an
/// allocation fails.
pub fn tone_parts_of(alloc: Global, parts: &[ChordPart]) -> Result<Vec<usize>, AllocError>
    ensures value { IfOk result (λ found. found.items ≡ tone_parts 0 0 parts.now) }
    ensures exact { IfOk result (λ found. (state : VoiceState) (broken : List Ratio) (context : ChordContext)
        → found.items ≡ tone_givers state broken context parts.now) }
{
    let mut found = Vec::new(alloc);
    for (at, part) in parts.iter().enumerate() {
        if is_note_part(&part.kind) && found.len() < MOST_CHORD_NOTES {
            found.push(at)?;
        }
    }
    Ok(found)
}
