//! Directives.

ghost use Rattle.std.specs.Prelude.{◌≡◌, ◌==◌, IfSome, MatchOption, drop, false, true};
ghost use Rattle.abc_text.specs.Word.{leading_blanks};
ghost use Rattle.abc_scan.specs.Directive.{after_gap, directive_at_end, directive_of, is_comment_or_none, is_directive};
ghost use Rattle.abc_scan.specs.Directive.{midi_directive, program_directive, reach_directive};

use crate::number::number_at;
use abc_text::leading_blanks;

/// The reach of a note's accidental, up to the end of its bar (ABC 2.1 section 11.3; the meaning of the three words is
/// not in ABC 2.1).
#[derive(Clone, Copy, PartialEq, Eq)]
pub enum Reach {
    /// To its own note alone.
    Not,
    /// To the notes of its letter in its octave.
    Octave,
    /// To the notes of its letter in all octaves.
    Pitch,
}

/// An instruction to a program (ABC 2.1 section 11). Other such lines are comments.
#[derive(Clone, Copy)]
pub enum Directive {
    /// The MIDI program to play with, by its number as written. MIDI may have no such program (an extension of
    /// abc2midi).
    Program(u32),
    /// The reach of accidentals.
    Reach(Reach),
}

/// Returns whether a text is empty or begins as a comment.
fn is_comment_or_none(text: &[u8]) -> bool
    ensures { result ≡ is_comment_or_none text.now }
{
    match text {
        [] => true,
        [byte, ..] => *byte == b'%',
    }
}

/// A directive, if only blanks and a comment follow.
fn directive_at_end(directive: Directive, end: &[u8]) -> Option<Directive>
    ensures { result ≡ directive_at_end directive end.now }
{
    if is_comment_or_none(&end[leading_blanks(end)..]) {
        Some(directive)
    } else {
        None
    }
}

/// The program whose number a text begins with.
fn program_directive(text: &[u8]) -> Option<Directive>
    ensures { result ≡ program_directive text.now }
{
    let (number, size) = number_at(text)?;
    directive_at_end(Directive::Program(number), &text[size..])
}

/// The rest of a text after its leading blanks; none if it has no leading blank.
fn skip_gap(text: &[u8]) -> Option<&[u8]>
    ensures value { IfSome result (λ rest. rest.now ≡ drop (leading_blanks text.now) text.now) }
    ensures gap { MatchOption result ((leading_blanks text.now == 0) ≡ true) (λ _. (leading_blanks text.now == 0) ≡ false) }
{
    let blanks = leading_blanks(text);
    if blanks == 0 {
        return None;
    }
    Some(&text[blanks..])
}

/// The program directive whose number follows a gap.
fn number_after_gap(text: &[u8]) -> Option<Directive>
    ensures { result ≡ after_gap program_directive text.now }
{
    program_directive(skip_gap(text)?)
}

/// The directive that a text names after `%%MIDI` and a gap.
fn midi_directive(text: &[u8]) -> Option<Directive>
    ensures { result ≡ midi_directive text.now }
{
    number_after_gap(text.strip_prefix(b"program")?)
}

/// The directive of the word that a text begins with, after `%%propagate-accidentals` and a gap.
fn reach_directive(text: &[u8]) -> Option<Directive>
    ensures { result ≡ reach_directive text.now }
{
    if let Some(end) = text.strip_prefix(b"not") {
        directive_at_end(Directive::Reach(Reach::Not), end)
    } else if let Some(end) = text.strip_prefix(b"octave") {
        directive_at_end(Directive::Reach(Reach::Octave), end)
    } else if let Some(end) = text.strip_prefix(b"pitch") {
        directive_at_end(Directive::Reach(Reach::Pitch), end)
    } else {
        None
    }
}

/// The directive that a text names after a gap.
fn midi_after_gap(text: &[u8]) -> Option<Directive>
    ensures { result ≡ after_gap midi_directive text.now }
{
    midi_directive(skip_gap(text)?)
}

/// The directive of the word that follows a gap.
fn reach_after_gap(text: &[u8]) -> Option<Directive>
    ensures { result ≡ after_gap reach_directive text.now }
{
    reach_directive(skip_gap(text)?)
}

/// The directive that a text without a carriage return at its end spells.
#[tactic(auto, unfolding(crate::specs::Directive::directive_of))]
pub(crate) fn directive_of(text: &[u8]) -> Option<Directive>
    ensures value { result ≡ directive_of text.now }
{
    if let Some(after) = text.strip_prefix(b"%%MIDI") {
        midi_after_gap(after)
    } else if let Some(after) = text.strip_prefix(b"%%propagate-accidentals") {
        reach_after_gap(after)
    } else {
        None
    }
}

/// Returns whether a text spells a directive.
pub(crate) fn is_directive(text: &[u8]) -> bool
    ensures { result ≡ is_directive text.now }
{
    directive_of(text).is_some()
}
