//! Lists, shared values, and lines.

use crate::report::{call, done, silent};
use crate::retry;
use abc_fold::Shared;
use abc_lines::{EditError, GapList, LineBuffer};
use abc_text::{Sequence, ShortSequence};
use abc_tune_compiler::sort_dedup;
use std::alloc::{AllocError, Global};
use std::rt::Runtime;

/// Three bytes as a sequence.
pub fn sequence(rt: &impl Runtime, alloc: Global) -> Result<bool, AllocError> {
    call(rt, "Sequence::from_slice");
    let sequence = Sequence::from_slice(alloc, b"abc")?;
    done(rt);
    Ok(sequence.as_slice() == b"abc".as_slice())
}

/// One more byte.
pub fn longer_sequence(rt: &impl Runtime, alloc: Global) -> Result<bool, AllocError> {
    let mut sequence = Sequence::from_slice(alloc, b"abc")?;
    call(rt, "Sequence::push");
    retry!(
        rt,
        sequence.push(b'd'),
        sequence.as_slice() == b"abc".as_slice(),
        sequence.as_slice() == b"abcd".as_slice()
    )
}

/// The same bytes again.
pub fn copy_sequence(rt: &impl Runtime, alloc: Global) -> Result<bool, AllocError> {
    let sequence = Sequence::from_slice(alloc, b"abc")?;
    call(rt, "Sequence::clone");
    let copy = sequence.clone()?;
    done(rt);
    Ok(copy.as_slice() == b"abc".as_slice())
}

/// A second element, which has no room in place.
pub fn longer_short_sequence(rt: &impl Runtime, alloc: Global) -> Result<bool, AllocError> {
    let mut sequence = ShortSequence::new(alloc);
    sequence.push(b'a')?;
    call(rt, "ShortSequence::push");
    retry!(
        rt,
        sequence.push(b'b'),
        sequence.as_slice() == b"a".as_slice(),
        sequence.as_slice() == b"ab".as_slice()
    )
}

/// Two elements again.
pub fn copy_short_sequence(rt: &impl Runtime, alloc: Global) -> Result<bool, AllocError> {
    let mut sequence = ShortSequence::new(alloc);
    sequence.push(b'a')?;
    sequence.push(b'b')?;
    call(rt, "ShortSequence::clone");
    let copy: ShortSequence<u8> = sequence.clone()?;
    done(rt);
    Ok(copy.as_slice() == b"ab".as_slice())
}

/// A byte that may be shared.
pub fn shared_value(rt: &impl Runtime, alloc: Global) -> Result<bool, AllocError> {
    call(rt, "Shared::new");
    let shared = Shared::new(alloc, b'a')?;
    done(rt);
    Ok(*shared.get() == b'a')
}

/// Room for one byte, which comes and goes.
pub fn roomy_list(rt: &impl Runtime, alloc: Global) -> Result<bool, AllocError> {
    call(rt, "GapList::with_room");
    let mut list = GapList::with_room(alloc, 1)?;
    done(rt);
    silent(rt, "GapList::insert");
    list.insert(0, b'a');
    done(rt);
    silent(rt, "GapList::remove");
    let byte = list.remove(0);
    done(rt);
    Ok(byte == b'a' && list.len() == 0 && list.room() == 1)
}

/// Three bytes for a list without room, and four more whose patch is dropped.
pub fn spliced_list(rt: &impl Runtime, alloc: Global) -> Result<bool, AllocError> {
    let bytes = Vec::from_slice(alloc, b"abc")?;
    let mut list = GapList::with_room(alloc, 0)?;
    call(rt, "GapList::splice_prepare");
    let patch = list.splice_prepare(alloc, 0, 0, bytes)?;
    done(rt);
    silent(rt, "GapList::commit");
    list.commit(patch);
    done(rt);
    let more = Vec::from_slice(alloc, b"defg")?;
    // For the prover: the splice is in the list.
    if list.len() != 3 {
        return Ok(false);
    }
    let patch = list.splice_prepare(alloc, 3, 0, more)?;
    silent(rt, "SplicePatch::drop_patch");
    patch.drop_patch();
    done(rt);
    Ok(list.len() == 3)
}

/// Each text as a line.
pub fn lines_of(alloc: Global, texts: &[&[u8]]) -> Result<Vec<Vec<u8>>, AllocError> {
    let mut lines = Vec::new(alloc);
    for text in texts {
        lines.push(Vec::from_slice(alloc, text)?)?;
    }
    Ok(lines)
}

/// Two lines for a text without any.
pub fn spliced_lines(rt: &impl Runtime, alloc: Global) -> Result<bool, AllocError> {
    let lines = lines_of(alloc, &[b"X:1", b"K:C"])?;
    let mut buffer = LineBuffer::new(alloc)?;
    call(rt, "LineBuffer::splice_prepare");
    match buffer.splice_prepare(0, 0, &lines) {
        Ok(patch) => {
            done(rt);
            silent(rt, "LineBuffer::commit");
            buffer.commit(patch);
            done(rt);
            Ok(buffer.len() == 2)
        }
        Err(EditError::OutOfMemory) => Err(AllocError),
        Err(_) => Ok(false),
    }
}

/// The same lines, whose patch is dropped.
pub fn dropped_lines(rt: &impl Runtime, alloc: Global) -> Result<bool, AllocError> {
    let lines = lines_of(alloc, &[b"X:1", b"K:C"])?;
    let buffer = LineBuffer::new(alloc)?;
    match buffer.splice_prepare(0, 0, &lines) {
        Ok(patch) => {
            silent(rt, "LinePatch::drop_patch");
            patch.drop_patch();
            done(rt);
            Ok(buffer.len() == 0)
        }
        Err(EditError::OutOfMemory) => Err(AllocError),
        Err(_) => Ok(false),
    }
}

/// Numbers in order, each once.
pub fn sorted_numbers(rt: &impl Runtime, alloc: Global) -> Result<bool, AllocError> {
    call(rt, "sort_dedup");
    let sorted = sort_dedup(alloc, &[3_u8, 1, 3, 2])?;
    done(rt);
    Ok(sorted.as_slice() == [1, 2, 3].as_slice())
}
