//! The kind of token that a text can begin with, by its first bytes.

ghost use Rattle.std.specs.Prelude.{◌≡◌};
ghost use Rattle.abc_scan.specs.Start.{byte_start, bracket_start, start_of};

/// The kinds of token by their first bytes: a token of one kind never begins as a token of another.
#[derive(Clone, Copy)]
pub(crate) enum Start {
    Note,
    Rest,
    BarRest,
    BarLine,
    InlineField,
    /// A `[` of a chord or of an ending.
    Bracket,
    /// A digit, which begins an ending after a bar line.
    Digit,
    /// A `(` of a tuplet, or one without effect.
    Parenthesis,
    Broken,
    Tie,
    Blank,
    /// Quoted text, a decoration or a grace group.
    Delimited,
    /// The `y` of a space.
    Space,
    /// A byte that has no effect.
    Single,
    /// No token begins so.
    Nothing,
}

/// Returns the kind of token that a byte other than `[` begins.
#[tactic(auto, unfolding(crate::specs::Start::byte_start))]
fn byte_start(byte: u8) -> Start
    ensures { result ≡ byte_start byte }
{
    match byte {
        b'A'..=b'G' | b'a'..=b'g' | b'^' | b'_' | b'=' => Start::Note,
        b' ' | b'\t' => Start::Blank,
        b'z' | b'x' => Start::Rest,
        b'Z' | b'X' => Start::BarRest,
        b'|' | b':' => Start::BarLine,
        b'(' => Start::Parenthesis,
        b'>' | b'<' => Start::Broken,
        b'-' => Start::Tie,
        b'0'..=b'9' => Start::Digit,
        b'"' | b'!' | b'{' => Start::Delimited,
        b'y' => Start::Space,
        b'H'..=b'W' | b'h'..=b'w' => Start::Single,
        b'`' | b'.' | b'~' | b'\\' | b'$' | b'#' | b'*' | b';' | b'?' | b'@' | b')' =>
            Start::Single,
        _ => Start::Nothing,
    }
}

/// Returns the kind of token that a `[` begins, by the bytes after it.
#[tactic(auto, unfolding(crate::specs::Start::bracket_start))]
fn bracket_start(rest: &[u8]) -> Start
    ensures { result ≡ bracket_start rest.now }
{
    match rest {
        [b'|', ..] => Start::BarLine,
        [letter, b':', ..] if letter.is_ascii_alphabetic() => Start::InlineField,
        _ => Start::Bracket,
    }
}

/// Returns the kind of token that a text begins with.
pub(crate) fn start_of(text: &[u8]) -> Start
    ensures { result ≡ start_of text.now }
{
    match text {
        [] => Start::Nothing,
        [b'[', rest @ ..] => bracket_start(rest),
        [byte, ..] => byte_start(*byte),
    }
}
