//! Events of a track.
ghost use Rattle.std.specs.Prelude.{◌≡◌, ◌^◌, ◌<◌, length, IfOk};
ghost use Rattle.smf_bytes.specs.Event.{meta_event};

use crate::event_bytes::EventBytes;
use crate::number::put_number;
use std::alloc::{AllocError, Global};

/// An event of a track. Events are ordered by tick, then class, then key, then bytes.
#[derive(Debug, PartialEq, Eq, PartialOrd, Ord, Drop)]
pub struct Event {
    /// The tick at which it comes, from the start of the track.
    pub tick: u32,
    /// Its rank among the events of one tick. 1: a title or a note off. 2: a tempo or a program. 3: a meter or a note on.
    /// 4: a key. 5: the end of the track.
    pub class: u8,
    /// The key of a note, else 0.
    pub key: u8,
    /// Its bytes in the track, after its delta time.
    pub bytes: EventBytes,
}

/// Returns the bytes of a meta event of this type.
pub(crate) fn meta_event(alloc: Global, kind: u8, content: &[u8]) -> Result<EventBytes, AllocError>
    requires { length content.now < 2 ^ 28 }
    ensures { IfOk result (λ bytes. bytes ≡ meta_event kind content.now) }
{
    let mut bytes = Vec::new(alloc);
    bytes.extend_from_slice(&[0xFF, kind])?;
    put_number(&mut bytes, content.len() as u32)?;
    bytes.extend_from_slice(content)?;
    EventBytes::from_slice(alloc, &bytes)
}
