//! Information fields.

ghost use Rattle.std.specs.Prelude.{◌≡◌, IfOk};
ghost use Rattle.abc_scan.specs.Field.{begins_field, field_of};

use abc_text::{Sequence, trim_blanks};
use std::alloc::{AllocError, Global};

/// An information field (ABC 2.1 section 3).
#[derive(Clone, Drop)]
pub struct Field {
    /// The letter before the colon, or `+`.
    pub letter: u8,
    /// The text after the colon, without the blanks at its ends.
    pub value: Sequence<u8>,
}

/// Returns whether a text begins with a letter and a colon.
pub(crate) fn begins_field(text: &[u8]) -> bool
    ensures { result ≡ begins_field text.now }
{
    match text {
        [letter, b':', ..] => letter.is_ascii_alphabetic(),
        _ => false,
    }
}

/// The field of a text: its letter, its colon, and its value.
pub(crate) fn field_of(alloc: Global, text: &[u8]) -> Result<Field, AllocError>
    ensures { IfOk result (λ field. field ≡ field_of text.now) }
{
    let letter = text.first().copied().unwrap_or(0);
    let following = if text.len() < 2 { &[] } else { &text[2..] };
    let value = Sequence::from_slice(alloc, trim_blanks(following))?;
    Ok(Field { letter, value })
}
