//! What the C library does, call by call: a struct of the caller owns a session in a box. C holds its bytes, moves them, and never
//! copies or changes them.
#![tactic(auto)]

mod box_parts;
mod code_names;
mod codes;
mod copying;
mod editing;
mod fault_names;
mod fault_record;
mod faults;
mod files;
mod handle;
pub mod laws;
mod open_session;
mod opening;
mod play_record;
mod plays;
mod refusal;
mod reports;
mod slot;
mod text_change;
mod texts;
mod titles;
mod token_record;
mod tokens;
mod whole_text;

pub use abc_fold::Work;
pub use abc_live::{Report, Session};
pub use code_names::copy_code_name;
pub use copying::CopyAnswer;
pub use editing::{delete_lines, insert_lines, replace_lines};
pub use fault_names::copy_fault_name;
pub use fault_record::FaultRecord;
pub use faults::copy_faults;
pub use files::{copy_numbers, copy_output};
pub use handle::Handle;
pub use open_session::OpenSession;
pub use opening::{close_slot, open_slot};
pub use play_record::PlayRecord;
pub use plays::{copy_play, copy_tracks};
pub use reports::{copy_removed, copy_written};
pub use slot::{OPEN, SessionSlot};
pub use texts::{copy_line, count_lines};
pub use titles::{copy_title, count_titles};
pub use token_record::TokenRecord;
pub use tokens::copy_tokens;
pub use whole_text::set_text;
