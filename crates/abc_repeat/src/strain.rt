//! The beginnings and ends of strains.

ghost use Rattle.std.specs.Prelude.{◌≡◌, false, ◌<◌, ◌≤◌, length};
ghost use Rattle.abc_repeat.specs.Strain.{leads_to_ending, ends_strain, strain_of, first_text, opens_after};

use crate::mark::Mark;

/// Returns whether only single bars come before the next ending's sign.
fn leads_to_ending(marks: &[Mark]) -> bool
    ensures { result ≡ leads_to_ending marks.now }
{
    for mark in marks {
        if !mark.is_single() {
            return mark.is_ending();
        }
    }
    false
}

/// Returns whether a mark ends its strain, in its common part or inside an ending; `rest` comes after the mark.
fn ends_strain(opened: bool, inside: bool, mark: Mark, rest: &[Mark]) -> bool
    ensures { result ≡ ends_strain opened inside mark rest.now }
{
    if inside {
        mark.closes_ending() && (mark.opens_next() || !leads_to_ending(rest))
    } else {
        mark.closes_common(opened)
    }
}

/// Returns the marks of the first strain, opened or not.
#[tactic(auto, unfolding(crate::specs::Strain::first_text))]
pub(crate) fn first_strain(marks: &[Mark], opened: bool) -> &[Mark]
    ensures value { result.now ≡ first_text opened marks.now }
    ensures bounded { length result.now ≤ length marks.now }
    ensures some { 0 < length marks.now → 0 < length result.now }
{
    let mut inside = false;
    for (at, mark) in marks.iter().enumerate() {
        if ends_strain(opened, inside, *mark, &marks[at + 1..]) {
            return &marks[..at + 1];
        }
        inside = inside || mark.is_ending();
    }
    marks
}

/// Returns whether the last of these marks opens the strain after them.
pub(crate) fn opens_after(marks: &[Mark]) -> bool
    ensures { result ≡ opens_after false marks.now }
{
    !marks.is_empty() && marks[marks.len() - 1].opens_next()
}

/// Returns the marks before the next ending's sign: the common part of a strain, or the run of an ending.
pub(crate) fn up_to_ending(text: &[Mark]) -> &[Mark]
    ensures value { result.now ≡ (strain_of text.now).common }
    ensures bounded { length result.now ≤ length text.now }
{
    for (at, mark) in text.iter().enumerate() {
        if mark.is_ending() {
            return &text[..at];
        }
    }
    text
}
