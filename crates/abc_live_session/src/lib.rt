//! The session over a text, for any compiler of tunes. After each edit of lines it has the files by their reference numbers,
//! the titles and the faults, always those of the whole present text. Editors ask it for the tokens of a line.
#![tactic(auto)]

mod book_patch;
mod compiled_lines;
mod edit;
mod edit_splice;
mod session;
mod stretch_lines;
mod tokens_error;

pub use abc_fields::FaultCode;
pub use abc_fold::{Counts, Fold, Shared, Work};
pub use abc_lines::{EditError, MOST_LINES};
pub use abc_live_text::KeptText;
pub use abc_scan::{LineClass, class_of};
pub use abc_text::Sequence;
pub use abc_tokens::{LineToken, LineTokenKind};
pub use abc_tune_compiler::{Built, Compiler, Fault, Report, Title};
pub use edit::Edit;
pub use session::{EditPatch, LiveSession};
pub use tokens_error::TokensError;
