//! The pattern of the accompaniment that a meter has.

ghost use Rattle.std.specs.Prelude.{◌≡◌, ◌++◌, ◌/◌, IfOk, OnOk};
ghost use Rattle.abc_perform_patterns.specs.MeterPattern.{compound_pattern, default_pattern, has_four, is_compound, pattern_of_parts, plain_pattern, repeated, step_of};

use abc_fields::Meter;
use abc_marks::{Step, StepSound};
use abc_text::Sequence;
use std::alloc::{AllocError, Global};

/// Returns a step of count 1.
fn step_of(sound: StepSound) -> Step
    ensures { result ≡ step_of sound }
{
    Step { sound, count: 1 }
}

/// Appends steps `times` times.
fn put_repeated(pattern: &mut Sequence<Step>, times: u8, steps: &[Step]) -> Result<(), AllocError>
    ensures { OnOk result (pattern.new ≡ pattern.old ++ repeated times steps.now) }
{
    for _ in 0..times {
        put_steps(pattern, steps)?;
    }
    Ok(())
}

/// Appends steps.
fn put_steps(pattern: &mut Sequence<Step>, steps: &[Step]) -> Result<(), AllocError>
    ensures { OnOk result (pattern.new ≡ pattern.old ++ steps.now) }
{
    for step in steps {
        pattern.push(*step)?;
    }
    Ok(())
}

/// Returns whether a bar has four beats of a bass, a rest, a chord and a rest, as 4/4 and 2/2 do.
fn has_four(num: u8, den: u8) -> bool
    ensures { result ≡ has_four num den }
{
    num == 4 && den == 4 || num == 2 && den == 2
}

/// Returns whether three parts of a bar are a beat.
fn is_compound(num: u8, den: u8) -> bool
    ensures { result ≡ is_compound num den }
{
    den == 8 && (num == 6 || num == 9 || num == 12)
}

/// Returns the pattern of a bar of beats of three parts: bass, rest and chord.
fn compound_pattern(alloc: Global, beats: u8) -> Result<Sequence<Step>, AllocError>
    ensures { IfOk result (λ pattern. pattern ≡ compound_pattern beats) }
{
    let mut pattern = Sequence::new(alloc);
    let beat = [
        step_of(StepSound::Bass),
        step_of(StepSound::Rest),
        step_of(StepSound::Chord),
    ];
    put_repeated(&mut pattern, beats, &beat)?;
    Ok(pattern)
}

/// Returns the pattern of a bass and then chords, each with a rest after it.
fn plain_pattern(alloc: Global, chords: u8) -> Result<Sequence<Step>, AllocError>
    ensures { IfOk result (λ pattern. pattern ≡ plain_pattern chords) }
{
    let mut pattern = Sequence::new(alloc);
    let bass = [step_of(StepSound::Bass), step_of(StepSound::Rest)];
    let chord = [step_of(StepSound::Chord), step_of(StepSound::Rest)];
    put_steps(&mut pattern, &bass)?;
    put_repeated(&mut pattern, chords, &chord)?;
    Ok(pattern)
}

/// Returns the pattern of a bar of four steps of a bass, a rest, a chord and a rest, twice.
fn four_pattern(alloc: Global) -> Result<Sequence<Step>, AllocError>
    ensures { IfOk result (λ pattern. pattern ≡ plain_pattern 1 ++ plain_pattern 1) }
{
    let mut pattern = plain_pattern(alloc, 1)?;
    let again = plain_pattern(alloc, 1)?;
    put_steps(&mut pattern, again.as_slice())?;
    Ok(pattern)
}

/// Returns the pattern of a bar with some parts.
fn pattern_of_parts(alloc: Global, num: u8, den: u8) -> Result<Sequence<Step>, AllocError>
    ensures { IfOk result (λ pattern. pattern ≡ pattern_of_parts num den) }
{
    if has_four(num, den) {
        four_pattern(alloc)
    } else if is_compound(num, den) {
        compound_pattern(alloc, num / 3)
    } else {
        plain_pattern(alloc, num.saturating_sub(1))
    }
}

/// Returns the pattern that a meter has if no directive sets one, as abc2midi has it: without a meter, chord and bass together.
/// It returns an error if an allocation fails.
pub fn default_pattern(alloc: Global, meter: Meter) -> Result<Sequence<Step>, AllocError>
    ensures { IfOk result (λ pattern. pattern ≡ default_pattern meter) }
{
    match meter {
        Meter::Free => {
            let both = [step_of(StepSound::Both)];
            Ok(Sequence::from_slice(alloc, &both)?)
        }
        Meter::Of { num, den } => pattern_of_parts(alloc, num, den),
    }
}
