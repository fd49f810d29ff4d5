//! The items of cells that have a place, and the tokens that give them.

ghost use Rattle.std.specs.Prelude.{◌≡◌};
ghost use Rattle.abc_play_places.specs.Givers.{has_place, gives_place};

use abc_bars_items::Item;
use abc_bars_notes::has_note;
use abc_scan::TokenKind;

/// Whether an item is a note, a chord, a rest, a bar rest or a bar line.
pub(crate) fn has_place(item: &Item) -> bool
    ensures { result ≡ has_place item.now }
{
    matches!(item, Item::Tone { .. } | Item::Rest { .. } | Item::Bar(_))
}

/// Whether a token gives such an item.
pub(crate) fn gives_place(kind: &TokenKind) -> bool
    ensures { result ≡ gives_place kind.now }
{
    match kind {
        TokenKind::Note(_) | TokenKind::Rest(_) | TokenKind::BarRest(_) | TokenKind::Bar(_) => true,
        TokenKind::Chord(chord) => has_note(chord.get().parts.as_slice()),
        _ => false,
    }
}
