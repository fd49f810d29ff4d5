//! Which calls of a stream or a store fail.

/// Which calls fail, counted from 1.
#[derive(Clone, Copy)]
pub enum Failing {
    Never,
    /// One call, and those after it succeed.
    Once(u64),
    /// A call and all after it.
    ForGood(u64),
}

impl Failing {
    /// Whether a call fails.
    pub fn at(self, call: u64) -> bool {
        match self {
            Failing::Never => false,
            Failing::Once(failing) => call == failing,
            Failing::ForGood(failing) => call >= failing,
        }
    }
}
