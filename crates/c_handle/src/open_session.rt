//! What a handle owns.

use abc_live::{Report, Session};

/// A session and the report of its last edit.
#[derive(Drop)]
pub struct OpenSession {
    pub session: Session,
    /// What the last edit changed, or nothing before the first.
    pub report: Report,
}
