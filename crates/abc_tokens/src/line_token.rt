//! A token of a line, as editors see it.

/// What a token of a line is.
#[derive(Clone, Copy, Debug, PartialEq, Eq)]
pub enum LineTokenKind {
    Note,
    Rest,
    /// A rest of whole bars.
    BarRest,
    /// A chord, with its brackets and its length. Its parts follow it.
    Chord,
    /// A field in a music line, as `[K:G]`.
    InlineField,
    BarLine,
    Ending,
    Tuplet,
    BrokenRhythm,
    Tie,
    Dynamic,
    /// One space or tab of a music line, or a whole blank line.
    Blank,
    /// A text in quotes, as a chord symbol or an annotation.
    Quoted,
    /// A decoration between exclamation marks that is no dynamic.
    Decoration,
    /// Grace notes in braces.
    Grace,
    /// A `y`, which sets notes apart.
    Space,
    /// Another byte without effect.
    NoEffect,
    /// A byte that begins no token.
    BadByte,
    /// An opening byte without its closing byte.
    Unclosed,
    /// A comment, from its `%` to the end of the line.
    Comment,
    /// The field `X:`, with which a tune begins.
    NumberField,
    /// The field `T:`.
    TitleField,
    /// The field `K:`.
    KeyField,
    /// Another field.
    OtherField,
    /// A directive, with its comment.
    Directive,
    /// A line of text outside the file header and the tunes.
    FreeText,
}

/// A part of a line. Columns are bytes, counted from 1.
#[derive(Clone, Copy, Debug, PartialEq, Eq)]
pub struct LineToken {
    /// The column of its first byte.
    pub from: u32,
    /// The column after its last byte.
    pub to: u32,
    pub kind: LineTokenKind,
    /// 1 for a part of a chord, else 0.
    pub depth: u8,
}
