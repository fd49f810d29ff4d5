//! The voices of a tune, and the state in its header and its body.

use crate::music::entry_after;
use crate::report::{call, done};
use crate::retry;
use abc_bars::BarFold;
use abc_bars_body::Entry;
use abc_bars_header::{VoiceName, Voices};
use abc_fold::{Fold, Shared, Work};
use std::alloc::{AllocError, Global};
use std::rt::Runtime;

/// Puts a voice after others, unless one has its name.
fn put(alloc: Global, voices: &mut Voices<u8>, name: &[u8], known: u8) -> Result<(), AllocError> {
    let name = VoiceName::new(alloc, name)?;
    if voices.place_of(&name).is_none() {
        voices.push(name, known)?;
    }
    Ok(())
}

/// A second voice after a copy of the first, in which no room is left.
pub fn second_voice(rt: &impl Runtime, alloc: Global) -> Result<bool, AllocError> {
    let mut first: Voices<u8> = Voices::new(alloc);
    put(alloc, &mut first, b"1", 7)?;
    let mut voices = first.clone()?;
    let name = VoiceName::new(alloc, b"2")?;
    if voices.place_of(&name).is_some() {
        return Ok(false);
    }
    call(rt, "Voices::push");
    retry!(
        rt,
        voices.push(name.clone()?, 8),
        voices.len() == 1 && voices.place_of(&name).is_none(),
        voices.len() == 2 && voices.place_of(&name) == Some(1)
    )
}

/// Two voices again.
pub fn copy_voices(rt: &impl Runtime, alloc: Global) -> Result<bool, AllocError> {
    let mut voices: Voices<u8> = Voices::new(alloc);
    put(alloc, &mut voices, b"1", 7)?;
    put(alloc, &mut voices, b"2", 8)?;
    call(rt, "Voices::clone");
    let copy = voices.clone()?;
    done(rt);
    Ok(copy.len() == 2 && copy.get(1).copied() == Some(8))
}

/// The state in a header with a voice, again.
pub fn copy_header<R: Runtime>(rt: &R, alloc: Global) -> Result<bool, AllocError> {
    let mut work = Work::mint(rt);
    let entry = entry_after(alloc, &[b"X:1", b"V:1"], &mut work)?;
    let Entry::Header(header) = &entry else {
        return Ok(false);
    };
    call(rt, "Header::clone");
    let copy = header.get().clone()?;
    done(rt);
    let copy = Entry::Header(Shared::new(alloc, copy)?);
    Ok(BarFold::same(&copy, &entry))
}

/// The state in a body with two voices, of which one ties a chord, again.
pub fn copy_body<R: Runtime>(rt: &R, alloc: Global) -> Result<bool, AllocError> {
    let mut work = Work::mint(rt);
    let lines: [&[u8]; 5] = [b"X:1", b"V:1", b"K:C", b"V:2", b"[CE]-"];
    let entry = entry_after(alloc, &lines, &mut work)?;
    let Entry::Body(body) = &entry else {
        return Ok(false);
    };
    call(rt, "Body::clone");
    let copy = body.get().clone()?;
    done(rt);
    let copy = Entry::Body(Shared::new(alloc, copy)?);
    Ok(BarFold::same(&copy, &entry))
}
