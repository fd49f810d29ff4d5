//! Tracks as chunks.
ghost use Rattle.std.specs.Prelude.{◌≡◌, ◌≤◌, ◌<◌, ◌^◌, ◌-◌, ◌++◌, ◌∷◌, [], length, All, OnOk};
ghost use Rattle.smf_bytes.specs.Number.{number_text};
ghost use Rattle.smf_bytes.specs.Track.{track_body, track};
ghost use Rattle.smf_bytes.specs.TrackEvents.{AreEventsWithin, events_in};

use crate::chunk::put_u32;
use crate::event::Event;
use crate::number::put_number;
use crate::order::order_events;
use crate::voice_track::{VoiceMusic, put_music};
use byteorder::{BigEndian, ByteOrder};
use std::alloc::AllocError;

/// The events of a track, in any order.
#[derive(Drop)]
pub(crate) enum TrackEvents<'a> {
    /// Those of the first track.
    Conductor(Vec<Event>),
    /// Those of a voice.
    Voice(VoiceMusic<'a>),
}

/// Appends the track of these events that ends at the tick `end`.
#[tactic(auto, unfolding(crate::specs::Track::track))]
pub(crate) fn put_track(out: &mut Vec<u8>, end: u32, events: TrackEvents) -> Result<(), AllocError>
    requires end { end < 2 ^ 28 }
    requires within { AreEventsWithin end events }
    requires length { length (track_body end (events_in events)) < 2 ^ 32 }
    ensures { OnOk result (out.new.items ≡ out.old.items ++ track end (events_in events.entry)) }
{
    out.extend_from_slice(b"MTrk")?;
    // The length is known after the body, and then replaces the zero.
    let start = out.len();
    put_u32(out, 0)?;
    put_body(out, end, events)?;
    let length = out.len() - start - 4;
    BigEndian::write_u32(&mut out[start..], length as u32);
    Ok(())
}

/// Appends the events in their order, each after its delta time, and the end of the track.
fn put_body(out: &mut Vec<u8>, end: u32, events: TrackEvents) -> Result<(), AllocError>
    requires end { end < 2 ^ 28 }
    requires within { AreEventsWithin end events }
    ensures { OnOk result (out.new.items ≡ out.old.items ++ track_body end (events_in events.entry)) }
{
    match events {
        TrackEvents::Conductor(events) => put_events(out, end, events),
        TrackEvents::Voice(music) => put_music(out, music),
    }
}

/// Appends events in their order, each after its delta time, and the end of the track.
fn put_events(out: &mut Vec<u8>, end: u32, events: Vec<Event>) -> Result<(), AllocError>
    requires end { end < 2 ^ 28 }
    requires before_end { All (λ event. event.tick ≤ end) events.items }
    ensures { OnOk result (out.new.items ≡ out.old.items ++ track_body end events.items) }
{
    let ordered = order_events(events)?;
    let mut before = 0;
    for event in &ordered {
        put_number(out, event.tick - before)?;
        out.extend_from_slice(event.bytes.as_slice())?;
        before = event.tick;
    }
    put_end(out, end - before)
}

/// Appends the end of a track, `delta` ticks after its last event.
pub(crate) fn put_end(out: &mut Vec<u8>, delta: u32) -> Result<(), AllocError>
    requires { delta < 2 ^ 28 }
    ensures { OnOk result (out.new.items ≡ (out.old.items ++ number_text delta) ++ 255 ∷ 47 ∷ 0 ∷ []) }
{
    put_number(out, delta)?;
    out.extend_from_slice(&[0xFF, 0x2F, 0])?;
    Ok(())
}
