//! The difference between the files of two books.

/// The reference numbers whose files differ, each list rising.
#[derive(Debug, Drop)]
pub struct Report {
    /// Numbers whose file is new or has other bytes than before.
    pub written: Vec<u32>,
    /// Numbers that had a file and have none now.
    pub removed: Vec<u32>,
}
