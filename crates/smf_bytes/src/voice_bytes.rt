//! The bytes of a voice's events, each after its delta time.
ghost use Rattle.std.specs.Prelude.{◌≡◌, ◌<◌, ◌^◌, ◌++◌, IsTrue, OnOk};
ghost use Rattle.smf_bytes.specs.Number.{number_text};
ghost use Rattle.smf_bytes.specs.Voice.{bytes_of, is_note};

use crate::number::leading_byte;
use crate::track_bytes::TrackBytes;
use crate::voice_event::{VoiceEvent, VoiceEventKind};
use std::alloc::AllocError;

/// Whether the first event begins a note and the second ends one.
pub(crate) fn is_note(first: &VoiceEvent, second: &VoiceEvent) -> bool
    ensures kinds { IsTrue result → (first.now.kind ≡ VoiceEventKind.NoteOn) × (second.now.kind ≡ VoiceEventKind.NoteOff) }
    ensures exact { result ≡ is_note first.now.kind second.now.kind }
{
    first.kind == VoiceEventKind::NoteOn && second.kind == VoiceEventKind::NoteOff
}

/// Appends an event of a voice, `delta` ticks after the one before it.
pub(crate) fn put_voice_event(
    out: &mut TrackBytes,
    delta: u32,
    channel: u8,
    event: &VoiceEvent,
) -> Result<(), AllocError>
    requires delta { delta < 2 ^ 28 }
    requires channel { channel < 16 }
    ensures { OnOk result (out.new
        ≡ out.old ++ number_text delta ++ bytes_of event.now.kind channel event.now.key event.now.value) }
{
    let status = match event.kind {
        VoiceEventKind::NoteOff => 0x80,
        VoiceEventKind::NoteOn => 0x90,
        VoiceEventKind::ProgramChange => {
            out.put_number(delta)?;
            return out.put(&[0xC0 + channel, event.value]);
        }
    };
    put_note(out, delta, [status + channel, event.key, event.value])
}

/// Appends the bytes of a note that begins or ends, `delta` ticks after the event before it. A delta time of one or two
/// bytes, as most are, is appended in the same call.
#[inline(always)]
#[tactic(auto, unfolding(crate::specs::Number::number_text))]
fn put_note(out: &mut TrackBytes, delta: u32, bytes: [u8; 3]) -> Result<(), AllocError>
    requires delta { delta < 2 ^ 28 }
    ensures { OnOk result (out.new ≡ out.old ++ number_text delta ++ bytes) }
{
    let [status, key, velocity] = bytes;
    if delta < 0x80 {
        out.put(&[delta as u8, status, key, velocity])
    } else if delta < 0x4000 {
        let last = (delta % 0x80) as u8;
        out.put(&[leading_byte(delta / 0x80), last, status, key, velocity])
    } else {
        out.put_number(delta)?;
        out.put(&bytes)
    }
}

/// Appends the bytes of a note's beginning and end, each after its delta time. Most notes follow at once on the one before
/// them, which takes one byte, and have a length of two bytes: then one call appends all.
#[inline(always)]
#[tactic(auto, unfolding(crate::specs::Number::number_text))]
pub(crate) fn put_both(
    out: &mut TrackBytes,
    rest: u32,
    on: [u8; 3],
    length: u32,
    off: [u8; 3],
) -> Result<(), AllocError>
    requires rest { rest < 2 ^ 28 }
    requires length { length < 2 ^ 28 }
    ensures { OnOk result (out.new ≡ out.old ++ number_text rest ++ on ++ number_text length ++ off) }
{
    if 0x80 <= rest || length < 0x80 || 0x4000 <= length {
        return put_apart(out, rest, on, length, off);
    }
    let first = leading_byte(length / 0x80);
    let last = (length % 0x80) as u8;
    let [begins, key, velocity] = on;
    let [ends, same_key, release] = off;
    out.put(&[
        rest as u8, begins, key, velocity, first, last, ends, same_key, release,
    ])
}

/// Appends the bytes of a note's beginning and end, one after the other.
#[inline(never)]
fn put_apart(
    out: &mut TrackBytes,
    rest: u32,
    on: [u8; 3],
    length: u32,
    off: [u8; 3],
) -> Result<(), AllocError>
    requires rest { rest < 2 ^ 28 }
    requires length { length < 2 ^ 28 }
    ensures { OnOk result (out.new ≡ out.old ++ number_text rest ++ on ++ number_text length ++ off) }
{
    put_note(out, rest, on)?;
    put_note(out, length, off)
}
