//! MIDI files, by `smf_bytes`.

ghost use Rattle.std.specs.Prelude.{◌≡◌, ◌<◌, ◌^◌, ◌++◌, ◌↔◌, ℕ, IfOk, OnOk};
ghost use Rattle.smf_bytes.specs.File.{file_bytes};
ghost use Rattle.smf_bytes.specs.Limits.{IsWithinLimits};
ghost use Rattle.smf_bytes.specs.Number.{StartsWithNumber, number_text};
ghost use Rattle.smf_bytes.specs.Order.{in_order};

use smf_bytes::{
    Change, ChangeKind, Event, Grains, NumberFault, ProgramChange, Score, Sequence, Sounding,
    file_of, order_events, put_number, read_number,
};
use std::alloc::{AllocError, Global};

/// Puts a number.
pub fn put_delta(out: &mut Vec<u8>, n: u32) -> Result<(), AllocError>
    requires { n < 2 ^ 28 }
    ensures ok { OnOk result (out.new.items ≡ out.old.items ++ number_text n) }
{
    put_number(out, n)
}

/// Reads a number.
pub fn read_delta(bytes: &[u8]) -> Result<(u32, usize), NumberFault>
    ensures ok { (n used : ℕ) → (result ≡ Ok (n, used)) ↔ StartsWithNumber bytes.now n used }
{
    read_number(bytes)
}

/// Whether a number is refused because its bytes end early.
pub fn is_cut_off(fault: NumberFault) -> bool {
    match fault {
        NumberFault::Padded | NumberFault::TooLong => false,
        NumberFault::Truncated => true,
    }
}

/// Orders events.
pub fn order(events: Vec<Event>) -> Result<Vec<Event>, AllocError>
    ensures value { IfOk result (λ ordered. ordered.items ≡ in_order events.items) }
{
    order_events(events)
}

/// Returns the file of a score.
pub fn score_file(alloc: Global, score: &Score) -> Result<Vec<u8>, AllocError>
    requires { IsWithinLimits score.now }
    ensures value { IfOk result (λ file. file.items ≡ file_bytes score.now) }
{
    file_of(alloc, score)
}

/// Returns a score without voices.
pub fn silent_score(
    alloc: Global,
    title: Sequence<u8>,
    end: Grains,
    change: Change,
) -> Result<Score, AllocError> {
    let mut conductor: Sequence<Change> = Sequence::new(alloc);
    conductor.push(change)?;
    let voices: Sequence<Sequence<Sounding>> = Sequence::new(alloc);
    let programs: Sequence<Sequence<ProgramChange>> = Sequence::new(alloc);
    Ok(Score {
        title,
        end,
        conductor,
        voices,
        programs,
    })
}

/// Returns a change of tempo.
pub fn tempo_change(at: Grains, micros: u32) -> Change {
    let what = ChangeKind::Tempo(micros);
    Change { at, what }
}
