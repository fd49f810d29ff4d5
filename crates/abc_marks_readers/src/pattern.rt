//! Patterns of the accompaniment.

ghost use Rattle.std.specs.Prelude.{◌≡◌, ◌<◌, ◌≤◌, length, IfOk, IfSome, MatchOption, is_some};
ghost use Rattle.abc_marks.specs.Directive.{IsPattern, IsStep, IsStepSound};
ghost use Rattle.abc_marks_readers.specs.Pattern.{count_of, pattern_of, sound_of, step_at};

use abc_marks::{MOST_STEPS, Step, StepSound};
use abc_text::{Sequence, digits, number_of};
use std::alloc::{AllocError, Global};

/// The greatest count of a step.
const GREATEST_COUNT: u32 = 99;

/// One note of a chord.
fn note(index: u8, lower: bool) -> StepSound
    ensures { result ≡ StepSound.Note index lower }
{
    StepSound::Note { index, lower }
}

/// Returns what a step of this letter plays.
fn sound_of(letter: u8) -> Option<StepSound>
    ensures value { result ≡ sound_of letter }
    ensures range { IfSome result IsStepSound }
{
    match letter {
        b'f' => Some(StepSound::Bass),
        b'c' => Some(StepSound::Chord),
        b'b' => Some(StepSound::Both),
        b'z' => Some(StepSound::Rest),
        b'g' => Some(note(0, false)),
        b'h' => Some(note(1, false)),
        b'i' => Some(note(2, false)),
        b'j' => Some(note(3, false)),
        b'G' => Some(note(0, true)),
        b'H' => Some(note(1, true)),
        b'I' => Some(note(2, true)),
        b'J' => Some(note(3, true)),
        _ => None,
    }
}

/// Returns the count that digits spell: one without digits.
fn count_of(digits: &[u8]) -> Option<u8>
    ensures value { result ≡ count_of digits.now }
    ensures range { IfSome result (λ count. (1 ≤ count) × (count ≤ 99)) }
{
    if digits.is_empty() {
        return Some(1);
    }
    let count = number_of(digits)?;
    if count >= 1 && count <= GREATEST_COUNT {
        Some(count as u8)
    } else {
        None
    }
}

/// Returns the step at the front of a text, and the rest after it.
fn step_at(text: &[u8]) -> Option<(Step, &[u8])>
    ensures value { MatchOption result (step_at text.now ≡ None) (λ r. step_at text.now ≡ Some (r.0, r.1.now)) }
    ensures range { IfSome result (λ r. IsStep r.0) }
    ensures shorter { IfSome result (λ r. length r.1.now < length text.now) }
{
    match text {
        [letter, following @ ..] => {
            let sound = sound_of(*letter)?;
            let size = digits(following);
            let count = count_of(&following[..size])?;
            Some((Step { sound, count }, &following[size..]))
        }
        [] => None,
    }
}

/// Returns whether a text spells a pattern. It allocates nothing.
#[tactic(auto, using(crate::proofs::Steps::none_left, crate::proofs::Steps::none_read, crate::proofs::Steps::one_read), unfolding(crate::specs::Pattern::pattern_of))]
pub fn is_pattern(text: &[u8]) -> bool
    ensures { result ≡ is_some (pattern_of text.now) }
{
    if text.is_empty() {
        return false;
    }
    let mut left = MOST_STEPS;
    let mut rest = text;
    while !rest.is_empty() {
        if left == 0 {
            return false;
        }
        let Some((_, following)) = step_at(rest) else {
            return false;
        };
        rest = following;
        left -= 1;
    }
    true
}

/// Returns the pattern that a text spells (an extension of abc2midi): 1 to 64 letters, each with a count from 1 to 99 or none.
/// It returns an error if an allocation fails.
#[tactic(auto, using(crate::proofs::Steps::none_left, crate::proofs::Steps::none_read, crate::proofs::Steps::none_before, crate::proofs::Steps::step_added, crate::proofs::Steps::all_read), unfolding(crate::specs::Pattern::pattern_of))]
pub fn pattern_of(alloc: Global, text: &[u8]) -> Result<Option<Sequence<Step>>, AllocError>
    ensures value { IfOk result (λ steps. steps ≡ pattern_of text.now) }
    ensures range { IfOk result (λ steps. IfSome steps IsPattern) }
{
    let mut steps = Sequence::new(alloc);
    let mut left = MOST_STEPS;
    let mut rest = text;
    if rest.is_empty() {
        return Ok(None);
    }
    while !rest.is_empty() {
        if left == 0 {
            return Ok(None);
        }
        let Some((step, following)) = step_at(rest) else {
            return Ok(None);
        };
        steps.push(step)?;
        rest = following;
        left -= 1;
    }
    Ok(Some(steps))
}
