//! The music inside bars: the fold over the cells of a file header and of a tune. Laws define its results by looking back over
//! all that is before a cell.
#![tactic(auto)]

mod bar_fold;
pub mod laws;

pub use abc_bars_body::{Body, CellResult, Entry};
pub use abc_bars_header::{Defaults, Header, TuneProgram};
pub use abc_bars_items::{
    HIGHEST_PROGRAM, Item, ItemText, Items, LocalFault, MOST_VOICES, Tone, Tones, TonesView,
};
pub use abc_bars_voice::{TuneMeter, TuneTempo, UnitLength, VoiceState};
pub use abc_fields::{FaultCode, Key, Meter, Tempo};
pub use abc_fold::{Fold, Work};
pub use abc_scan::{BarLine, Cell, Note, Reach, Spanned, Token, TokenKind};
pub use abc_time::{Grains, Ratio};
pub use bar_fold::BarFold;
