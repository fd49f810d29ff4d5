//! Bringing the files of a store up to date with a session.

ghost use Rattle.std.specs.Prelude.{◌≡◌, string_bytes, ◌<◌, ◌^◌, ◌++◌, ◌∷◌, [], None, Some, IfOk, IfSome, OnErr, is_ok};
ghost use Rattle.std.specs.Prelude.{option_copied};
ghost use Rattle.abc_publish.specs.Publisher.{without_job, maps_of, with_entry};
ghost use Rattle.abc_publish.specs.declared.slot.Stored.TheVariants.{Unknown};
ghost use Rattle.abc2midi_live.specs.Building.{answer_line, answer_of, entry_after, stage_of, BuildsBy, BuildStops, Extends};
ghost use Rattle.abc2midi_live.specs.Building.{IsIdle, StopsAtOnce, StoresBy, StoresOne, StoresOneAtMost};
ghost use Rattle.abc2midi_live.specs.Storing.{file_name, Follows};

use crate::streams::{Store, StoreFault};
use abc_live::Session;
use abc_publish::{Job, Publisher};
use abc2midi_live_protocol::{put_failed, put_stored};
use std::alloc::{AllocError, Global};

/// Returns the name of the file of a number.
#[tactic(auto, unfolding(crate::specs::Storing::file_name))]
fn file_name(alloc: Global, number: u32) -> Result<String, AllocError>
    ensures { IfOk result (λ name. string_bytes name ≡ file_name number) }
{
    format!(in alloc; "{number}.mid")
}

/// Puts the bytes of a number's file into the store, or removes the file.
fn put_or_remove<S: Store>(
    store: &mut S,
    number: u32,
    name: &str,
    bytes: Option<&[u8]>,
) -> Result<(), StoreFault>
    requires { name.now ≡ file_name number }
    ensures { StoresOne (S.seen store.old) (S.seen store.new) (answer_of (is_ok result)) number (option_copied bytes.entry) }
{
    match bytes {
        Some(bytes) => store.put(name, bytes),
        None => store.remove(name),
    }
}

/// Stores the file of a job, appends its answer line to the text, and returns whether it was stored.
fn store_file<S: Store>(
    alloc: Global,
    job: &Job,
    store: &mut S,
    text: &mut Vec<u8>,
) -> Result<bool, AllocError>
    ensures text { IfOk result (λ stored. text.new.items ≡ text.old.items
        ++ answer_line (answer_of stored) job.now.number job.now.bytes) }
    ensures store { IfOk result (λ stored. StoresOne (S.seen store.old) (S.seen store.new)
        (answer_of stored) job.now.number job.now.bytes) }
    ensures stop { OnErr result (StoresOneAtMost (S.seen store.old) (S.seen store.new) job.now.number job.now.bytes) }
{
    let number = job.number();
    let bytes = job.bytes();
    let name = file_name(alloc, number)?;
    let stored = put_or_remove(store, number, &name, bytes).is_ok();
    if stored {
        put_stored(text, number, bytes)?;
    } else {
        put_failed(text, number)?;
    }
    Ok(stored)
}

/// Carries out a job and ends it, and returns whether its file was stored. If an allocation fails, the file is unknown.
fn carry_out<S: Store>(
    alloc: Global,
    publisher: &mut Publisher,
    job: Job,
    store: &mut S,
    text: &mut Vec<u8>,
) -> Result<bool, AllocError>
    requires { (maps_of publisher.old).jobs job.number ≡ Some job.bytes }
    ensures text { IfOk result (λ stored. text.new.items ≡ text.old.items ++ answer_line (answer_of stored) job.number job.bytes) }
    ensures publisher { IfOk result (λ stored. maps_of publisher.new
        ≡ without_job (maps_of publisher.old) job.number (entry_after (answer_of stored) job.bytes)) }
    ensures unknown { OnErr result (maps_of publisher.new ≡ without_job (maps_of publisher.old) job.number (Some Unknown)) }
    ensures store { IfOk result (λ stored. Follows (S.seen store.old) (S.seen store.new)
        (answer_of stored ∷ []) (maps_of publisher.old).directory (maps_of publisher.new).directory) }
    ensures stop { OnErr result (StoresOneAtMost (S.seen store.old) (S.seen store.new) job.number job.bytes) }
    ensures jobs { (maps_of publisher.new).jobs ≡ with_entry (maps_of publisher.old).jobs job.number None }
{
    let stored = store_file(alloc, &job, store, text);
    if stored.unwrap_or(false) {
        publisher.done(job);
    } else {
        publisher.failed(job);
    }
    stored
}

/// Takes the job of the least pending number from `from` on, and carries it out. Returns the number to go on from: None
/// if none is pending, after a fault, and after the last number that there can be.
fn store_next<S: Store>(
    alloc: Global,
    publisher: &mut Publisher,
    session: &Session,
    from: u32,
    store: &mut S,
    text: &mut Vec<u8>,
) -> Result<Option<u32>, AllocError>
    requires { IsIdle (maps_of publisher.old) }
    ensures stored { IfOk result (λ next. StoresBy session.now.text (stage_of publisher.old (Some from))
        (stage_of publisher.new next)
        (Extends text.old.items text.new.items) (S.seen store.old) (S.seen store.new)) }
    ensures stop { OnErr result (StopsAtOnce session.now.text (stage_of publisher.old (Some from)) (S.seen store.old)
        (S.seen store.new)) }
    ensures onward { IfOk result (λ next. IfSome next (λ n. (from < n) × (n < 2 ^ 32))) }
    ensures idle { IsIdle (maps_of publisher.new) }
{
    let Some(job) = publisher.take_from(session, from)? else {
        return Ok(None);
    };
    let number = job.number();
    if carry_out(alloc, publisher, job, store, text)? {
        Ok(number.checked_add(1))
    } else {
        Ok(None)
    }
}

/// Puts and removes the files of the pending numbers, rising, up to the first fault of the store, and returns the answer. It
/// returns an error if an allocation fails.
pub fn build<S: Store>(
    alloc: Global,
    publisher: &mut Publisher,
    session: &Session,
    store: &mut S,
) -> Result<Vec<u8>, AllocError>
    requires { IsIdle (maps_of publisher.old) }
    ensures answer { IfOk result (λ text. BuildsBy session.now.text (maps_of publisher.old).directory
        (maps_of publisher.new).directory
        text.items (S.seen store.old) (S.seen store.new)) }
    ensures stop { OnErr result (BuildStops session.now.text (maps_of publisher.old).directory (S.seen store.old)
        (S.seen store.new)) }
    ensures idle { IsIdle (maps_of publisher.new) }
{
    let mut text = Vec::new(alloc);
    // Each job is searched after the last one; a search from 0 would visit all stored files each time.
    let mut next = Some(0);
    while let Some(from) = next {
        next = store_next(alloc, publisher, session, from, store, &mut text)?;
    }
    text.extend_from_slice(b"end\n")?;
    Ok(text)
}
