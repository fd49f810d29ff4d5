//! A part of a line or of a chord, and its place.

/// A part with its value read, and the bytes that it takes. A token's places are counted from its
/// line's first byte, and those of a part of a chord from the chord's first byte.
#[derive(Clone, Drop)]
pub struct Spanned<K> {
    pub kind: K,
    /// The place of its first byte, counted from 0.
    pub from: u32,
    /// The place after its last byte.
    pub to: u32,
}
