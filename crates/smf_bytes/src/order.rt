//! The events of a track in their order.
ghost use Rattle.std.specs.Prelude.{◌≡◌, IfOk, IsPermutation, IsSorted};
ghost use Rattle.smf_bytes.specs.Order.{event_cmp, in_order};

use crate::event::Event;
use std::alloc::AllocError;

/// Sorts events by tick, then class, then key, then bytes. It returns `AllocError` if an allocation fails.
pub fn order_events(events: Vec<Event>) -> Result<Vec<Event>, AllocError>
    ensures permutation { IfOk result (λ ordered. IsPermutation events.items ordered.items) }
    ensures sorted { IfOk result (λ ordered. IsSorted event_cmp ordered.items) }
    ensures exact { IfOk result (λ ordered. ordered.items ≡ in_order events.items) }
{
    let mut events = events;
    events.sort()?;
    Ok(events)
}
