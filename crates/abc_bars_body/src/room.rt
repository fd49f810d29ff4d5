//! The room for the items of a cell.

use abc_bars_header::{FieldKind, kind_of};
use abc_scan::{Field, Token, TokenKind};

/// Whether a field of a body gives an item, unless it is refused.
fn is_item_field(field: &Field) -> bool {
    match kind_of(field.letter) {
        FieldKind::Meter
        | FieldKind::Tempo
        | FieldKind::Parts
        | FieldKind::Voice
        | FieldKind::Key => true,
        FieldKind::Reference | FieldKind::Title | FieldKind::UnitLength | FieldKind::Other => false,
    }
}

/// Whether a token gives an item, unless it is refused or has no effect.
fn may_give(token: &Token) -> bool {
    match &token.kind {
        TokenKind::Note(_)
        | TokenKind::Rest(_)
        | TokenKind::BarRest(_)
        | TokenKind::Chord(_)
        | TokenKind::Bar(_)
        | TokenKind::Ending(_)
        | TokenKind::Directive(_) => true,
        TokenKind::Field(field) | TokenKind::InlineField(field) => is_item_field(field.get()),
        _ => false,
    }
}

/// The number of items for which there is room at first: exact unless a token is refused or has no effect. The items are
/// stored with their room, so spare room would be stored too. No result depends on it.
pub(crate) fn room_for(cell: &[Token]) -> usize {
    cell.iter().filter(|token| may_give(token)).count()
}
