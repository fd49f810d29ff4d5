//! The steps of a layer's voice.

use abc_time::Grains;

/// A step of the voice that plays a layer. An index is that of a step of the voice that is written.
#[derive(Clone, Copy, Debug, PartialEq, Eq, Drop)]
pub enum LayerStep {
    /// A note, chord, rest or bar rest of the layer.
    Written { index: usize, length: Grains },
    /// The bar line or ending mark that ends a stretch.
    Bound { index: usize },
    /// A program of the voice.
    Program { index: usize },
    /// A rest for what the layer lacks of the stretch.
    Fill { length: Grains },
}
