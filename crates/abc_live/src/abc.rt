//! The session over a text in ABC notation.

use abc_live_session::LiveSession;
use abc_tune::Abc;

/// A session over a text in ABC notation. `Session::new` returns one with no lines.
pub type Session = LiveSession<Abc>;
