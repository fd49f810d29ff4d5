//! Standard MIDI Files 1.0 as bytes: variable-length quantities, events in their order, tracks as chunks, and the file of a
//! score.
#![tactic(auto)]

mod chunk;
mod conductor;
mod event;
mod event_bytes;
mod file;
mod groups;
pub mod laws;
mod number;
mod order;
mod track;
mod track_bytes;
mod voice;
mod voice_bytes;
mod voice_event;
mod voice_track;

pub use abc_text::Sequence;
pub use abc_time::Grains;
pub use abc_voices_score::{Change, ChangeKind, ProgramChange, Score, Sounding};
pub use event::Event;
pub use event_bytes::{EventBytes, ROOM_IN_PLACE};
pub use file::file_of;
pub use number::{NumberFault, put_number, read_number};
pub use order::order_events;
