//! A block of a text.

/// The kind of a block of a text (ABC 2.1 section 2.2).
#[derive(Clone, Copy, Debug, PartialEq, Eq)]
pub enum BlockKind {
    /// The lines before the first blank line or tune, if the first of them is a field or a directive. They set defaults
    /// for all tunes.
    FileHeader,
    /// A tune, which an X: line begins.
    Tune,
    /// Text outside tunes, which has no effect.
    Free,
}

/// The lines of a block, counted from 0: from `from`, its first line, up to but not including `to`. Comments at its
/// ends do not count.
#[derive(Clone, Copy, Debug, PartialEq, Eq)]
pub struct Block {
    pub kind: BlockKind,
    pub from: usize,
    pub to: usize,
}
