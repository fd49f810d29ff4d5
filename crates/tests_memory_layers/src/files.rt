//! The bytes of MIDI files.

ghost use Rattle.std.specs.Prelude.{◌<◌};

use crate::report::{call, done};
use crate::retry;
use smf_bytes::{Event, EventBytes, order_events, put_number};
use std::alloc::{AllocError, Global};
use std::rt::Runtime;

/// The file of a tune `T:A`, `K:C` whose note is `C`.
pub const FILE_OF_C: &[u8] = b"MThd\0\0\0\x06\0\x01\0\x02\x01\xE0\
    MTrk\0\0\0\x17\0\xFF\x03\x01A\0\xFFQ\x03\x07\xA1\x20\0\xFFY\x02\0\0\x81p\xFF\x2F\0\
    MTrk\0\0\0\x0D\0\x90\x3CP\x81p\x80\x3C\x40\0\xFF\x2F\0";

/// The number 240.
pub fn quantity(rt: &impl Runtime, alloc: Global) -> Result<bool, AllocError> {
    let mut bytes = Vec::new(alloc);
    call(rt, "put_number");
    retry!(
        rt,
        put_number(&mut bytes, 240),
        bytes.is_empty(),
        bytes.as_slice() == b"\x81\x70".as_slice()
    )
}

/// More bytes than have room in place.
pub fn event_bytes(rt: &impl Runtime, alloc: Global) -> Result<bool, AllocError> {
    call(rt, "EventBytes::from_slice");
    let bytes = EventBytes::from_slice(alloc, b"a long title")?;
    done(rt);
    Ok(bytes.as_slice() == b"a long title".as_slice())
}

/// How many events there are to be put in order.
const EVENTS: u32 = 40;

/// An event at a tick.
fn event(alloc: Global, tick: u32) -> Result<Event, AllocError> {
    Ok(Event {
        tick,
        class: 1,
        key: 0,
        bytes: EventBytes::from_slice(alloc, b"\xB0\x7B\0")?,
    })
}

/// Events of a track, seven ticks further each time, and round.
fn events(alloc: Global) -> Result<Vec<Event>, AllocError> {
    let mut events = Vec::new(alloc);
    for number in 0..EVENTS {
        let tick = number.saturating_mul(7) % EVENTS;
        events.push(event(alloc, tick)?)?;
    }
    Ok(events)
}

/// Whether each event is at the tick of its place.
fn are_in_order(events: &[Event]) -> bool {
    for (place, event) in events.iter().enumerate() {
        if event.tick as usize != place {
            return false;
        }
    }
    true
}

/// These events in order.
pub fn ordered_events(rt: &impl Runtime, alloc: Global) -> Result<bool, AllocError> {
    let events = events(alloc)?;
    call(rt, "order_events");
    let ordered = order_events(events)?;
    done(rt);
    Ok(ordered.len() == 40 && are_in_order(&ordered))
}
