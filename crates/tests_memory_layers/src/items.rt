//! Items and faults that are put together, the tones of a chord, and texts of items.

use crate::report::{call, done};
use crate::retry;
use abc_bars_header::VoiceName;
use abc_bars_items::{Item, ItemText, Items, ItemsBuilder, LocalFault, Tone, Tones, TonesView};
use abc_fields::FaultCode;
use abc_text::ShortSequence;
use std::alloc::{AllocError, Global};
use std::rt::Runtime;

/// The part A, and a fault.
const PART: Item = Item::Section(b'A');

const FAULT: LocalFault = (1, FaultCode::BadByte);

/// How many items and faults there are.
pub fn counts(items: &ItemsBuilder) -> (usize, usize) {
    (items.items().len(), items.faults().len())
}

/// Room for an item.
pub fn roomy_items(rt: &impl Runtime, alloc: Global) -> Result<bool, AllocError> {
    call(rt, "ItemsBuilder::with_capacity");
    let items = ItemsBuilder::with_capacity(alloc, 1)?;
    done(rt);
    Ok(counts(&items) == (0, 0))
}

/// An item after none.
pub fn item(rt: &impl Runtime, alloc: Global) -> Result<bool, AllocError> {
    let mut items = ItemsBuilder::with_capacity(alloc, 0)?;
    call(rt, "ItemsBuilder::push_item");
    retry!(
        rt,
        items.push_item(PART),
        counts(&items) == (0, 0),
        counts(&items) == (1, 0)
    )
}

/// A fault after none.
pub fn fault(rt: &impl Runtime, alloc: Global) -> Result<bool, AllocError> {
    let mut items = ItemsBuilder::with_capacity(alloc, 0)?;
    call(rt, "ItemsBuilder::push_fault");
    retry!(
        rt,
        items.push_fault(FAULT),
        counts(&items) == (0, 0),
        counts(&items) == (0, 1)
    )
}

/// Two faults after none.
pub fn faults(rt: &impl Runtime, alloc: Global) -> Result<bool, AllocError> {
    let mut items = ItemsBuilder::with_capacity(alloc, 0)?;
    call(rt, "ItemsBuilder::push_faults");
    retry!(
        rt,
        items.push_faults(&[FAULT, FAULT]),
        counts(&items) == (0, 0),
        counts(&items) == (0, 2)
    )
}

/// An item and a fault.
fn item_and_fault(alloc: Global) -> Result<ItemsBuilder, AllocError> {
    let mut items = ItemsBuilder::with_capacity(alloc, 1)?;
    items.push_item(PART)?;
    items.push_fault(FAULT)?;
    Ok(items)
}

/// Both, put together.
pub fn shared_items(rt: &impl Runtime, alloc: Global) -> Result<bool, AllocError> {
    let given = item_and_fault(alloc)?;
    call(rt, "Items::new");
    let items = Items::new(alloc, given)?;
    done(rt);
    Ok((items.items().len(), items.faults().len()) == (1, 1))
}

/// Two tones.
fn two_tones(alloc: Global) -> Result<ShortSequence<Tone>, AllocError> {
    let mut tones = ShortSequence::new(alloc);
    tones.push(Tone::default())?;
    tones.push(Tone::default())?;
    Ok(tones)
}

/// How many tones there are.
fn tone_count(tones: &Tones) -> usize {
    match tones.view() {
        TonesView::One(_) => 1,
        TonesView::List(tones) => tones.len(),
    }
}

/// Two tones, moved out.
pub fn tones(rt: &impl Runtime, alloc: Global) -> Result<bool, AllocError> {
    let tones = two_tones(alloc)?;
    call(rt, "Tones::of");
    let kept = Tones::of(alloc, tones)?;
    done(rt);
    Ok(tone_count(&kept) == 2)
}

/// A title.
pub fn title(rt: &impl Runtime, alloc: Global) -> Result<bool, AllocError> {
    call(rt, "ItemText::new");
    let title = ItemText::new(alloc, b"a title")?;
    done(rt);
    Ok(title.as_slice() == b"a title".as_slice())
}

/// The name of a voice.
fn voice_name(alloc: Global) -> Result<VoiceName, AllocError> {
    VoiceName::new(alloc, b"a voice")
}

/// That name.
pub fn named_voice(rt: &impl Runtime, alloc: Global) -> Result<bool, AllocError> {
    let same = voice_name(alloc)?;
    call(rt, "VoiceName::new");
    let name = voice_name(alloc)?;
    done(rt);
    Ok(name == same)
}
