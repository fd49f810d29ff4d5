//! An entry of the title index.

use abc_text::Sequence;

/// The reference number and the title of a tune.
#[derive(Debug, Drop)]
pub struct Title {
    pub number: u32,
    /// The title's bytes, empty if the tune has none.
    pub text: Sequence<u8>,
}
