//! Edits of a text.

/// A change of a range of lines. Lines are counted from 1, and a list of lines may be empty.
#[derive(Debug, Drop)]
pub enum Edit {
    /// Inserts lines before line `at`, from 1 to the count of lines plus one; else the edit is a `BadRange`.
    Insert {
        at: u32,
        lines: Vec<Vec<u8>>,
    },
    /// Replaces the lines `from` to `to`. Both lines are included: `from` is at least 1 and at most `to`, and `to` at
    /// most the count of lines; else the edit is a `BadRange`.
    Replace {
        from: u32,
        to: u32,
        lines: Vec<Vec<u8>>,
    },
    /// Takes out the lines `from` to `to`. Both lines are included: `from` is at least 1 and at most `to`, and `to` at
    /// most the count of lines; else the edit is a `BadRange`.
    Delete {
        from: u32,
        to: u32,
    },
}
