//! A token of a line as C sees it.

ghost use Rattle.std.specs.Prelude.{◌≡◌};
ghost use Rattle.c_handle.specs.TokenRecords.{kind_number, token_record};

use abc_live::{LineToken, LineTokenKind};

/// The columns of a token, the number of its kind, and its depth. In C it is four `uint32_t`.
#[repr(C)]
#[derive(Clone, Copy)]
pub struct TokenRecord {
    /// The column of its first byte, from 1.
    pub from: u32,
    /// The column after its last byte.
    pub to: u32,
    pub kind: u32,
    /// 1 for a part of a chord, else 0.
    pub depth: u32,
}

/// Returns the number of a kind. Numbers keep their meaning within a major version: new kinds come at the end.
fn kind_number(kind: LineTokenKind) -> u32
    ensures { result ≡ kind_number kind }
{
    match kind {
        LineTokenKind::Note => 1,
        LineTokenKind::Rest => 2,
        LineTokenKind::BarRest => 3,
        LineTokenKind::Chord => 4,
        LineTokenKind::InlineField => 5,
        LineTokenKind::BarLine => 6,
        LineTokenKind::Ending => 7,
        LineTokenKind::Tuplet => 8,
        LineTokenKind::BrokenRhythm => 9,
        LineTokenKind::Tie => 10,
        LineTokenKind::Dynamic => 11,
        LineTokenKind::Blank => 12,
        LineTokenKind::Quoted => 13,
        LineTokenKind::Decoration => 14,
        LineTokenKind::Grace => 15,
        LineTokenKind::Space => 16,
        LineTokenKind::NoEffect => 17,
        LineTokenKind::BadByte => 18,
        LineTokenKind::Unclosed => 19,
        LineTokenKind::Comment => 20,
        LineTokenKind::NumberField => 21,
        LineTokenKind::TitleField => 22,
        LineTokenKind::KeyField => 23,
        LineTokenKind::OtherField => 24,
        LineTokenKind::Directive => 25,
        LineTokenKind::FreeText => 26,
    }
}

impl TokenRecord {
    /// Returns the record of a token.
    pub fn of(token: LineToken) -> TokenRecord
        ensures { result ≡ token_record token }
    {
        TokenRecord {
            from: token.from,
            to: token.to,
            kind: kind_number(token.kind),
            depth: u32::from(token.depth),
        }
    }
}
