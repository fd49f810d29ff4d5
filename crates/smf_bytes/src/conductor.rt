//! The events of the first track: the title, and the changes of tempo, meter and key.
ghost use Rattle.std.specs.Prelude.{◌≡◌, ◌≤◌, ◌<◌, ◌∷◌, [], length, All, IfOk};
ghost use Rattle.abc_time.specs.Grains.{grains_of_the_latest_end};
ghost use Rattle.abc_voices_score.specs.declared.limits.TheConstants.{LONGEST_TITLE};
ghost use Rattle.smf_bytes.specs.Event.{title_events, class_of, change_bytes, change_event};
ghost use Rattle.abc_voices_score.specs.Limits.{IsWritable, IsChangeWithin};
ghost use Rattle.smf_bytes.specs.Track.{conductor_events};

use crate::event::{Event, meta_event};
use crate::event_bytes::EventBytes;
use abc_time::{Grains, tick_of};
use abc_voices_score::{Change, ChangeKind};
use byteorder::{BigEndian, ByteOrder};
use std::alloc::{AllocError, Global};

/// Returns the events of the first track, of a tune that ends at `end`.
pub(crate) fn conductor_events(
    alloc: Global,
    end: Grains,
    title: &[u8],
    changes: &[Change],
) -> Result<Vec<Event>, AllocError>
    requires end { end.0 ≤ grains_of_the_latest_end }
    requires title { length title.now ≤ LONGEST_TITLE }
    requires changes { All (IsChangeWithin end) changes.now }
    ensures { IfOk result (λ events. events.items ≡ conductor_events title.now changes.now) }
{
    let mut events = Vec::new(alloc);
    if !title.is_empty() {
        events.push(title_event(alloc, title)?)?;
    }
    for change in changes {
        events.push(change_event(alloc, end, change)?)?;
    }
    Ok(events)
}

/// Returns the event of a title.
fn title_event(alloc: Global, title: &[u8]) -> Result<Event, AllocError>
    requires some { 0 < length title.now }
    requires short { length title.now ≤ LONGEST_TITLE }
    ensures { IfOk result (λ event. event ∷ [] ≡ title_events title.now) }
{
    Ok(Event {
        tick: 0,
        class: 1,
        key: 0,
        bytes: meta_event(alloc, 0x03, title)?,
    })
}

/// Returns the event of a change, which comes before the end or at it.
fn change_event(alloc: Global, end: Grains, change: &Change) -> Result<Event, AllocError>
    requires end { end.0 ≤ grains_of_the_latest_end }
    requires within { IsChangeWithin end change.now }
    ensures { IfOk result (λ event. event ≡ change_event change.now) }
{
    Ok(Event {
        tick: tick_of(change.at),
        class: class_of(change.what),
        key: 0,
        bytes: bytes_of(alloc, change.what)?,
    })
}

/// Returns the class of a change, by which events at one tick are ordered.
fn class_of(what: ChangeKind) -> u8
    ensures { result ≡ class_of what }
{
    match what {
        ChangeKind::Tempo(_) => 2,
        ChangeKind::Meter { .. } => 3,
        ChangeKind::Key { .. } => 4,
    }
}

/// Returns the bytes of a change.
fn bytes_of(alloc: Global, what: ChangeKind) -> Result<EventBytes, AllocError>
    requires { IsWritable what }
    ensures { IfOk result (λ bytes. bytes ≡ change_bytes what) }
{
    match what {
        ChangeKind::Tempo(micros) => {
            let mut content = [0; 3];
            BigEndian::write_u24(&mut content, micros);
            meta_event(alloc, 0x51, &content)
        }
        ChangeKind::Meter { num, den } => {
            meta_event(alloc, 0x58, &[num, den.trailing_zeros() as u8, 24, 8])
        }
        ChangeKind::Key { sharps, minor } => meta_event(
            alloc,
            0x59,
            &[sharps.cast_unsigned(), minor as u8],
        ),
    }
}
