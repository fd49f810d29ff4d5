//! The directives that are heard.

ghost use Rattle.std.specs.Prelude.{◌≡◌, ◌≤◌, IfOk, IfSome, is_some, option_map};
ghost use Rattle.abc_bars_items.specs.Velocity.{IsVelocity};
ghost use Rattle.abc_marks.specs.Directive.{IsPlayingDirective, IsTransposition};
ghost use Rattle.abc_marks_readers.specs.Directive.{after_midi, before_comment, directive_named, number_up_to, plain_directive_of, playing_directive_of};
ghost use Rattle.abc_marks_readers.specs.Directive.{first_number, flag_of, name_and_value, pattern_directive_of, program_directive_of, signed_number, transposition_of, velocity_directive_of, velocity_in};

use crate::pattern::{is_pattern, pattern_of};
use abc_bars_items::{HIGHEST_PROGRAM, HIGHEST_VELOCITY};
use abc_marks::PlayingDirective;
use abc_text::{
    Shared, cut_at, first_word, leading_blanks, number_of, trim_blanks, without_return,
};
use std::alloc::{AllocError, Global};

/// The most half tones of a transposition, up or down.
const MOST_HALF_TONES: i64 = 60;

/// Returns a text up to its first `%`.
#[tactic(auto, unfolding(abc_text::specs::Cut::cut_at))]
fn before_comment(text: &[u8]) -> &[u8]
    ensures { result.now ≡ before_comment text.now }
{
    match cut_at(text, b'%') {
        Some((front, _)) => front,
        None => text,
    }
}

/// Returns the text after `%%MIDI` and blanks, without its comment.
fn after_midi(line: &[u8]) -> Option<&[u8]>
    ensures { option_map (λ text. text.now) result ≡ after_midi line.now }
{
    let text = without_return(line).strip_prefix(b"%%MIDI")?;
    if leading_blanks(text) == 0 {
        return None;
    }
    Some(before_comment(text))
}

/// Returns the first word of a text, and the rest without the blanks at its ends.
fn name_and_value(text: &[u8]) -> Option<(&[u8], &[u8])>
    ensures { option_map (λ r. (r.0.now, r.1.now)) result ≡ name_and_value text.now }
{
    let (from, to) = first_word(text)?;
    Some((&text[from..to], trim_blanks(&text[to..])))
}

/// Returns the number that a text spells, if it is no higher.
fn number_up_to(highest: u8, text: &[u8]) -> Option<u8>
    ensures value { result ≡ number_up_to highest text.now }
    ensures range { IfSome result (λ number. number ≤ highest) }
{
    let number = number_of(text)?;
    if number <= u32::from(highest) {
        Some(number as u8)
    } else {
        None
    }
}

/// Returns the number that the first word of a text spells, if it is no higher. More words are skipped.
#[tactic(auto, unfolding(abc_text::specs::Word::first_word))]
fn first_number(highest: u8, text: &[u8]) -> Option<u8>
    ensures value { result ≡ first_number highest text.now }
    ensures range { IfSome result (λ number. number ≤ highest) }
{
    let (from, to) = first_word(text)?;
    number_up_to(highest, &text[from..to])
}

/// Returns the velocity that a text spells, 1 to 127.
fn velocity_in(text: &[u8]) -> Option<u8>
    ensures value { result ≡ velocity_in text.now }
    ensures range { IfSome result IsVelocity }
{
    let velocity = number_up_to(HIGHEST_VELOCITY, text)?;
    if velocity == 0 { None } else { Some(velocity) }
}

/// Returns the number that a sign or none and one to nine digits spell.
#[tactic(auto, unfolding(abc_text::specs::Number::number_of))]
fn signed_number(text: &[u8]) -> Option<i64>
    ensures { result ≡ signed_number text.now }
{
    match text {
        [b'-', digits @ ..] => Some(-i64::from(number_of(digits)?)),
        [b'+', digits @ ..] => Some(i64::from(number_of(digits)?)),
        digits => Some(i64::from(number_of(digits)?)),
    }
}

/// Returns the half tones that a text spells, from -60 to 60.
fn transposition_of(text: &[u8]) -> Option<i8>
    ensures value { result ≡ transposition_of text.now }
    ensures range { IfSome result IsTransposition }
{
    let half_tones = signed_number(text)?;
    if half_tones < -MOST_HALF_TONES || half_tones > MOST_HALF_TONES {
        None
    } else {
        Some(half_tones as i8)
    }
}

/// Returns a directive without a value.
fn flag_of(directive: PlayingDirective, value: &[u8]) -> Option<PlayingDirective>
    requires { IsPlayingDirective directive }
    ensures value { result ≡ flag_of directive value.now }
    ensures range { IfSome result IsPlayingDirective }
{
    if value.is_empty() {
        Some(directive)
    } else {
        None
    }
}

/// Returns the directive of this name and value that sets a program.
#[tactic(auto, unfolding(crate::specs::Directive::program_directive_of))]
fn program_directive_of(name: &[u8], value: &[u8]) -> Option<PlayingDirective>
    ensures value { result ≡ program_directive_of name.now value.now }
    ensures range { IfSome result IsPlayingDirective }
{
    if name == b"chordprog".as_slice() {
        Some(PlayingDirective::ChordProgram(first_number(HIGHEST_PROGRAM, value)?))
    } else if name == b"bassprog".as_slice() {
        Some(PlayingDirective::BassProgram(first_number(HIGHEST_PROGRAM, value)?))
    } else {
        None
    }
}

/// Returns the directive of this name and value that sets a velocity.
#[tactic(auto, unfolding(crate::specs::Directive::velocity_directive_of))]
fn velocity_directive_of(name: &[u8], value: &[u8]) -> Option<PlayingDirective>
    ensures value { result ≡ velocity_directive_of name.now value.now }
    ensures range { IfSome result IsPlayingDirective }
{
    if name == b"chordvol".as_slice() {
        Some(PlayingDirective::ChordVelocity(velocity_in(value)?))
    } else if name == b"bassvol".as_slice() {
        Some(PlayingDirective::BassVelocity(velocity_in(value)?))
    } else {
        program_directive_of(name, value)
    }
}

/// Returns the directive of this name and value, if it has no pattern.
#[tactic(auto, unfolding(crate::specs::Directive::plain_directive_of))]
fn plain_directive_of(name: &[u8], value: &[u8]) -> Option<PlayingDirective>
    ensures value { result ≡ plain_directive_of name.now value.now }
    ensures range { IfSome result IsPlayingDirective }
{
    if name == b"gchordon".as_slice() {
        flag_of(PlayingDirective::AccompanimentOn, value)
    } else if name == b"gchordoff".as_slice() {
        flag_of(PlayingDirective::AccompanimentOff, value)
    } else if name == b"transpose".as_slice() {
        Some(PlayingDirective::Transpose(transposition_of(value)?))
    } else {
        velocity_directive_of(name, value)
    }
}

/// Returns the directive of a pattern.
#[tactic(auto, unfolding(crate::specs::Pattern::pattern_of))]
fn pattern_directive_of(alloc: Global, value: &[u8]) -> Result<Option<PlayingDirective>, AllocError>
    ensures value { IfOk result (λ found. found ≡ pattern_directive_of value.now) }
    ensures range { IfOk result (λ found. IfSome found IsPlayingDirective) }
{
    match pattern_of(alloc, value)? {
        Some(steps) => {
            let steps = Shared::new(alloc, steps)?;
            Ok(Some(PlayingDirective::Pattern(steps)))
        }
        None => Ok(None),
    }
}

/// Returns the directive that a line spells, if it is heard when a tune is performed (extensions of abc2midi): `%%MIDI`,
/// blanks, a name, blanks and a value; a comment may end it. It returns an error if an allocation fails.
#[tactic(auto, unfolding(crate::specs::Directive::playing_directive_of))]
pub fn playing_directive_of(
    alloc: Global,
    line: &[u8],
) -> Result<Option<PlayingDirective>, AllocError>
    ensures value { IfOk result (λ found. found ≡ playing_directive_of line.now) }
    ensures range { IfOk result (λ found. IfSome found IsPlayingDirective) }
{
    let Some(text) = after_midi(line) else {
        return Ok(None);
    };
    let Some((name, value)) = name_and_value(text) else {
        return Ok(None);
    };
    if name == b"gchord".as_slice() {
        return pattern_directive_of(alloc, value);
    }
    Ok(plain_directive_of(name, value))
}

/// Returns whether a directive of this name and value is heard.
#[tactic(auto, using(crate::proofs::Steps::pattern_named))]
fn is_named(name: &[u8], value: &[u8]) -> bool
    ensures { result ≡ is_some (directive_named (name.now, value.now)) }
{
    if name == b"gchord".as_slice() {
        is_pattern(value)
    } else {
        plain_directive_of(name, value).is_some()
    }
}

/// Returns whether a line spells a directive that is heard when a tune is performed. It allocates nothing.
#[tactic(auto, unfolding(crate::specs::Directive::playing_directive_of))]
pub fn is_playing_directive(line: &[u8]) -> bool
    ensures { result ≡ is_some (playing_directive_of line.now) }
{
    let Some(text) = after_midi(line) else {
        return false;
    };
    let Some((name, value)) = name_and_value(text) else {
        return false;
    };
    is_named(name, value)
}
