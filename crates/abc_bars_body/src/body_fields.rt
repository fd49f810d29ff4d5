//! The fields of a tune's body: the state after each, its item and its fault.

ghost use Rattle.std.specs.Prelude.{◌≡◌, None, Some, IfOk, IfSome};
ghost use Rattle.abc_fields.specs.Key.{key_of, IsInRange};
ghost use Rattle.abc_fields.specs.Meter.{meter_of};
ghost use Rattle.abc_fields.specs.Tempo.{tempo_of};
ghost use Rattle.abc_fields.specs.Unit.{unit_of};
ghost use Rattle.abc_fields.specs.Voice.{voice_of};
ghost use Rattle.abc_bars_body.specs.declared.body.Body.{Body};
ghost use Rattle.abc_bars_body.specs.Body.{here, with_here};
ghost use Rattle.abc_bars_items.specs.Column.{column_of};
ghost use Rattle.abc_bars_body.specs.BodyFields.{field_result_of, part_of, part_by, meter_by, unit_by, tempo_at, tempo_by, in_key};
ghost use Rattle.abc_bars_body.specs.BodyFields.{has_effect, key_item, key_by, voice_by, kind_result};
ghost use Rattle.abc_bars_items.specs.Item.{IsCapitalLetter, IsItem};

use crate::body::Body;
use abc_bars_header::FieldKind;
use abc_bars_items::{Item, ItemText, LocalFault, column_of};
use abc_bars_voice::{TuneMeter, TuneTempo, UnitLength, is_out_of_range, tempo_item};
use abc_fields::{EMPTY_KEY, FaultCode, Key, read_key, read_voice};
use std::alloc::{AllocError, Global};

/// The item and the fault of a field of the body, if it has them.
#[derive(Drop)]
pub(crate) struct FieldItem {
    pub(crate) item: Option<Item>,
    pub(crate) fault: Option<LocalFault>,
}

impl FieldItem {
    /// An item without a fault.
    fn accept(item: Item) -> FieldItem
        ensures { result ≡ record { item = Some item; fault = None } }
    {
        FieldItem {
            item: Some(item),
            fault: None,
        }
    }

    /// Nothing.
    pub(crate) fn empty() -> FieldItem
        ensures { result ≡ record { item = None; fault = None } }
    {
        FieldItem {
            item: None,
            fault: None,
        }
    }

    /// A fault without an item, at a place of its line.
    fn refuse(place: usize, code: FaultCode) -> FieldItem
        ensures { result ≡ record { item = None; fault = Some (column_of place, code) } }
    {
        FieldItem {
            item: None,
            fault: Some((column_of(place), code)),
        }
    }

    /// An item with a fault, at a place of its line.
    fn accept_with_fault(place: usize, item: Item, code: FaultCode) -> FieldItem
        ensures { result ≡ record { item = Some item; fault = Some (column_of place, code) } }
    {
        FieldItem {
            item: Some(item),
            fault: Some((column_of(place), code)),
        }
    }
}

/// The part that a value of P: names.
fn part_of(value: &[u8]) -> Option<u8>
    ensures value { result ≡ part_of value.now }
    ensures range { IfSome result IsCapitalLetter }
{
    match value {
        [byte, ..] if byte.is_ascii_uppercase() => Some(*byte),
        _ => None,
    }
}

/// Reads a P:, which begins a part.
fn part_result(body: &mut Body, value: &[u8], place: usize) -> FieldItem
    ensures value { field_result_of body.new result ≡ part_by body.old place (part_of value.now) }
    ensures range { IfSome result.item IsItem }
{
    match part_of(value) {
        Some(letter) => {
            body.begin_part();
            FieldItem::accept(Item::Section(letter))
        }
        None => FieldItem::refuse(place, FaultCode::BadPart),
    }
}

/// Reads an M:, which sets the meter of the current voice.
fn meter_result(body: &mut Body, value: &[u8], place: usize) -> FieldItem
    ensures value { field_result_of body.new result ≡ meter_by body.old place (meter_of value.now) }
    ensures range { IfSome result.item IsItem }
{
    match TuneMeter::read(value) {
        Ok(meter) => {
            let state = body.here_mut();
            state.meter = meter;
            FieldItem::accept(Item::Meter {
                opening: false,
                meter: Some(meter.get()),
            })
        }
        Err(code) => {
            let item = Item::Meter {
                opening: false,
                meter: None,
            };
            FieldItem::accept_with_fault(place, item, code)
        }
    }
}

/// Reads an L:, which sets the unit note length of the current voice.
fn unit_result(body: &mut Body, value: &[u8], place: usize) -> FieldItem
    ensures value { field_result_of body.new result ≡ unit_by body.old place (unit_of value.now) }
    ensures range { IfSome result.item IsItem }
{
    match UnitLength::read(value) {
        Ok(unit) => {
            let state = body.here_mut();
            state.unit = unit;
            FieldItem::empty()
        }
        Err(code) => FieldItem::refuse(place, code),
    }
}

/// The result of a tempo, in which a number alone counts units.
fn tempo_at(unit: UnitLength, tempo: TuneTempo, place: usize) -> FieldItem
    ensures value { (body : Body) → (here body).unit ≡ unit → field_result_of body result ≡ tempo_at body place tempo }
    ensures range { IfSome result.item IsItem }
{
    let item = tempo_item(false, unit, tempo);
    if is_out_of_range(unit, tempo) {
        FieldItem::accept_with_fault(place, item, FaultCode::TempoRange)
    } else {
        FieldItem::accept(item)
    }
}

/// Reads a Q:, in which a number alone counts units of the current voice.
fn tempo_result(body: &Body, value: &[u8], place: usize) -> FieldItem
    ensures value { field_result_of body.now result ≡ tempo_by body.now place (tempo_of value.now) }
    ensures range { IfSome result.item IsItem }
{
    match TuneTempo::read(value) {
        Ok(tempo) => tempo_at(body.here().unit, tempo, place),
        Err(code) => {
            let item = Item::Tempo {
                opening: false,
                micros: None,
                out: false,
            };
            FieldItem::accept_with_fault(place, item, code)
        }
    }
}

/// Begins a key for the current voice, without accidentals.
fn begin_key(body: &mut Body, key: Key)
    ensures { body.new ≡ with_here body.old (in_key (here body.old) key) }
{
    let state = body.here_mut();
    state.clear_accidentals();
    if let Some(signature) = key.signature {
        state.signature = signature;
    }
    state.shift = state.shift.with_properties(key.shift);
}

/// The item of a key.
fn key_item(key: Key) -> Item
    requires { IsInRange key }
    ensures value { result ≡ key_item key }
    ensures range { IsItem result }
{
    Item::Key {
        opening: false,
        key: key.signature.map(|_| (key.sharps, key.minor)),
    }
}

/// Reads a K:, which sets the key of the current voice; if it is refused, an empty signature.
fn key_result(body: &mut Body, value: &[u8], place: usize) -> FieldItem
    ensures value { field_result_of body.new result ≡ key_by body.old place (key_of value.now) }
    ensures range { IfSome result.item IsItem }
{
    match read_key(value) {
        Ok(key) => {
            begin_key(body, key);
            FieldItem::accept(key_item(key))
        }
        Err(code) => {
            begin_key(body, EMPTY_KEY);
            FieldItem::accept_with_fault(place, key_item(EMPTY_KEY), code)
        }
    }
}

/// Reads a V:, which makes a voice the current one.
fn voice_result(
    alloc: Global,
    body: &mut Body,
    value: &[u8],
    place: usize,
) -> Result<FieldItem, AllocError>
    ensures value { IfOk result (λ given. field_result_of body.new given ≡ voice_by body.old place value.now (voice_of value.now)) }
    ensures range { IfOk result (λ given. IfSome given.item IsItem) }
{
    let voice = match read_voice(value) {
        Ok(voice) => voice,
        Err(code) => return Ok(FieldItem::refuse(place, code)),
    };
    let name = &value[voice.from..voice.to];
    if !body.make_current(alloc, name, voice.shift)? {
        return Ok(FieldItem::refuse(place, FaultCode::TooManyVoices));
    }
    let name = ItemText::new(alloc, name)?;
    Ok(FieldItem::accept(Item::Voice {
        opening: false,
        name,
    }))
}

/// Whether fields of this kind have an effect in a body.
pub(crate) fn has_effect(kind: FieldKind) -> bool
    ensures { result ≡ has_effect kind }
{
    !matches!(
        kind,
        FieldKind::Reference | FieldKind::Title | FieldKind::Other
    )
}

/// Reads a field of this kind, at a place of its line.
pub(crate) fn kind_result(
    alloc: Global,
    body: &mut Body,
    kind: FieldKind,
    value: &[u8],
    place: usize,
) -> Result<FieldItem, AllocError>
    ensures value { IfOk result (λ given. field_result_of body.new given ≡ kind_result body.old kind value.now place) }
    ensures range { IfOk result (λ given. IfSome given.item IsItem) }
{
    match kind {
        FieldKind::Parts => Ok(part_result(body, value, place)),
        FieldKind::Meter => Ok(meter_result(body, value, place)),
        FieldKind::UnitLength => Ok(unit_result(body, value, place)),
        FieldKind::Tempo => Ok(tempo_result(body, value, place)),
        FieldKind::Key => Ok(key_result(body, value, place)),
        FieldKind::Voice => voice_result(alloc, body, value, place),
        FieldKind::Reference | FieldKind::Title | FieldKind::Other => Ok(FieldItem::empty()),
    }
}
