//! The events of a voice before they are written: few bytes each.
ghost use Rattle.std.specs.Prelude.{◌≡◌, IfOk, IsPermutation, ℕ, map};
ghost use Rattle.smf_bytes.specs.Order.{in_order};
ghost use Rattle.smf_bytes.specs.Voice.{event_at};

use std::alloc::AllocError;

/// An event of a voice. Events are ordered by tick, then kind, then key, then value.
#[derive(Clone, Copy, PartialEq, Eq, PartialOrd, Ord)]
pub(crate) struct VoiceEvent {
    /// The tick at which it comes, from the start of the track.
    pub(crate) tick: u32,
    pub(crate) kind: VoiceEventKind,
    /// The key of a note, else 0.
    pub(crate) key: u8,
    /// The velocity of a note, the number of a program.
    pub(crate) value: u8,
}

/// A voice has many events: each takes eight bytes.
const _: () = prove!(size_of::<VoiceEvent>() == 8);

/// The kind of an event of a voice. At one tick notes end first, then programs change, then notes begin.
#[derive(Clone, Copy, PartialEq, Eq, PartialOrd, Ord)]
pub(crate) enum VoiceEventKind {
    NoteOff,
    ProgramChange,
    NoteOn,
}

/// Sorts events into the order of a track.
pub(crate) fn order_voice(events: Vec<VoiceEvent>) -> Result<Vec<VoiceEvent>, AllocError>
    ensures permutation { IfOk result (λ ordered. IsPermutation events.items ordered.items) }
    ensures exact { IfOk result (λ ordered. (channel : ℕ)
        → map (event_at channel) ordered.items ≡ in_order (map (event_at channel) events.items)) }
{
    let mut events = events;
    events.sort()?;
    Ok(events)
}
