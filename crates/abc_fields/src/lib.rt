//! The readers of information fields: meter, unit note length, tempo, key, parts and voice. Each reader returns the
//! value of its grammar or a named fault.
#![tactic(auto)]

mod accidental;
mod clef;
mod fault_code;
mod key;
mod listed;
mod meter;
mod mode;
mod parts;
mod power;
mod property;
mod shift;
mod signature;
mod tempo;
mod tonic;
mod unit;
mod voice;

pub use abc_text::Letter;
pub use abc_time::Ratio;
pub use fault_code::FaultCode;
pub use key::{EMPTY_KEY, Key, key_set_by, read_key};
pub use meter::{Meter, read_meter};
pub use parts::{DEEPEST_GROUP, read_parts};
pub use shift::Shift;
pub use signature::{NATURAL, Signature, alteration};
pub use tempo::{Tempo, read_tempo};
pub use unit::read_unit;
pub use voice::{Voice, read_voice};
