//! The state in a file header and in a tune's header: the values that are set, the voices that are declared, and the
//! results of lines.
#![tactic(auto)]

mod defaults;
mod field_fault;
mod field_kind;
mod file_header;
mod header;
mod names;
mod opening;
mod reference;
mod same_header;
mod tune_program;
mod voice_name;
mod voices;

pub use defaults::{Defaults, NO_DEFAULTS, meter_in, unit_in};
pub use field_kind::{FieldKind, kind_of};
pub use file_header::{FileHeaderResult, file_header_directive_result, file_header_result};
pub use header::{Header, HeaderResult, OwnResult, header_directive_result, header_result};
pub use tune_program::TuneProgram;
pub use voice_name::VoiceName;
pub use voices::Voices;
