//! The roles of tokens in their voice.

ghost use Rattle.std.specs.Prelude.{◌≡◌};
ghost use Rattle.abc_bars_notes.specs.TokenRole.{has_note, token_role};

use abc_scan::{BrokenRhythm, ChordPart, ChordPartKind, TokenKind};

/// The role of a token in its voice. It determines what takes time, what ties see, and what marks of broken rhythm see.
#[derive(Clone, Copy)]
pub enum TokenRole {
    /// A note, or a chord, which has a note or not.
    Sound { noted: bool },
    Rest,
    /// A mark of broken rhythm.
    Mark(BrokenRhythm),
    Tie,
    /// A token that no mark of broken rhythm reaches over: a field, or a rest of bars.
    Barrier,
    /// Anything else.
    Other,
}

/// Whether a chord has a note.
pub fn has_note(inside: &[ChordPart]) -> bool
    ensures { result ≡ has_note inside.now }
{
    inside
        .iter()
        .any(|part| matches!(part.kind, ChordPartKind::Note(_)))
}

/// The role of a token in its voice.
pub fn token_role(kind: &TokenKind) -> TokenRole
    ensures { result ≡ token_role kind.now }
{
    match kind {
        TokenKind::Note(_) => TokenRole::Sound { noted: true },
        TokenKind::Chord(chord) => TokenRole::Sound {
            noted: has_note(chord.get().parts.as_slice()),
        },
        TokenKind::Rest(_) => TokenRole::Rest,
        TokenKind::Broken(mark) => TokenRole::Mark(*mark),
        TokenKind::Tie => TokenRole::Tie,
        TokenKind::BarRest(_) | TokenKind::InlineField(_) | TokenKind::Field(_) => {
            TokenRole::Barrier
        }
        _ => TokenRole::Other,
    }
}
