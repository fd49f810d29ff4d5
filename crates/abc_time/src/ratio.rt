//! Fractions as a tune book writes them.

/// A fraction of a whole note or of a length, as `1/8` or `3/2`. It need not be in lowest terms.
/// Each call that takes one requires that both parts are from 1 to 999,999,999.
#[derive(Clone, Copy, PartialEq, Eq)]
pub struct Ratio {
    pub num: u32,
    pub den: u32,
}
