//! The session over a text in ABC notation, and the names that a caller of it or the author of another compiler needs.
#![tactic(auto)]

mod abc;

pub use abc::Session;
pub use abc_live_session::{
    Built, Compiler, Counts, Edit, EditError, EditPatch, Fault, FaultCode, Fold, LineClass,
    LineToken, LineTokenKind, LiveSession, MOST_LINES, Report, Sequence, Shared, Title,
    TokensError, Work, class_of,
};
pub use abc_tune::Abc;
