//! The header of a tune.

ghost use Rattle.std.specs.Prelude.{◌≡◌, IfOk, IfSome, All, Some, None};
ghost use Rattle.abc_fields.specs.Key.{IsInRange, key_of};
ghost use Rattle.abc_fields.specs.Parts.{parts_of};
ghost use Rattle.abc_fields.specs.Voice.{voice_of};
ghost use Rattle.abc_bars_header.specs.Header.{opening_header, merge_shift, with_shift_at, declare, declare_result, with_header};
ghost use Rattle.abc_bars_header.specs.Header.{reference_by, order_by, header_voice_by, header_key_item, header_key_by, own_result};
ghost use Rattle.abc_bars_header.specs.Header.{setting_by, directive_item, own_directive_result, opening_program, append_program};
ghost use Rattle.abc_bars_header.specs.Header.{items_with, header_line_result, header_result};
ghost use Rattle.abc_bars_header.specs.HeaderLine.{DirectiveLine, FieldLine};
ghost use Rattle.abc_bars_items.specs.Item.{IsItem};
ghost use Rattle.abc_bars_items.specs.declared.item.Item.TheVariants as items;
ghost use Rattle.abc_bars_header.specs.Defaults.{setting_result};
ghost use Rattle.abc_bars_header.specs.Reference.{reference_of};

use crate::defaults::{Defaults, directive_result, setting_result};
use crate::field_fault::faults_of;
use crate::field_kind::{FieldKind, kind_of};
use crate::opening::{opening_meter, opening_tempo};
use crate::reference::reference_of;
use crate::tune_program::TuneProgram;
use crate::voice_name::VoiceName;
use crate::voices::Voices;
use abc_bars_items::{Item, ItemText, LocalFault, MOST_VOICES, program_of};
use abc_fields::{EMPTY_KEY, FaultCode, Key, Shift, Voice, read_key, read_parts, read_voice};
use abc_scan::{Directive, Field};
use abc_text::Sequence;
use std::alloc::{AllocError, Global};

/// The state at a place of a tune's header: the values so far, and the declared voices, each with the parts of its shift that
/// are set. The first values are the file header's.
#[derive(Drop)]
pub struct Header {
    pub defaults: Defaults,
    pub voices: Voices<Shift>,
}

impl Clone for Header {
    ghost is_clone = { λ header copy. copy ≡ header };

    fn clone(&self) -> Result<Header, AllocError> {
        Ok(Header {
            defaults: self.defaults,
            voices: self.voices.clone()?,
        })
    }
}

/// The result of a line of a header.
#[derive(Drop)]
pub struct HeaderResult {
    pub header: Header,
    pub items: Sequence<Item>,
    pub faults: Sequence<LocalFault>,
}

/// The result of a line alone: the state after it, its item and its fault.
#[derive(Drop)]
pub struct OwnResult {
    header: Header,
    item: Option<Item>,
    fault: Option<FaultCode>,
}

impl Header {
    /// The header of a tune before its first field, with the file header's values.
    pub fn opening(alloc: Global, defaults: Defaults) -> Header
        ensures { result ≡ opening_header defaults }
    {
        Header {
            defaults,
            voices: Voices::new(alloc),
        }
    }
}

/// Merges two shifts, part by part: `here` overrides `before`.
fn merge_shift(here: Shift, before: Shift) -> Shift
    ensures { result ≡ merge_shift here before }
{
    Shift {
        clef: here.clef.or(before.clef),
        octave: here.octave.or(before.octave),
        transpose: here.transpose.or(before.transpose),
    }
}

/// Adds a shift to the voice at an index.
fn add_shift_at(voices: &mut Voices<Shift>, at: usize, shift: Shift)
    ensures { voices.new ≡ with_shift_at voices.old at shift }
{
    if let Some(known) = voices.get_mut(at) {
        *known = merge_shift(shift, *known);
    }
}

/// Declares a voice, or adds a shift to a declared one; returns the fault if there are too many.
fn declare(
    voices: &mut Voices<Shift>,
    name: VoiceName,
    shift: Shift,
) -> Result<Option<FaultCode>, AllocError>
    ensures { IfOk result (λ fault. (voices.new, fault) ≡ declare voices.old name shift) }
{
    if let Some(at) = voices.place_of(&name) {
        add_shift_at(voices, at, shift);
        return Ok(None);
    }
    if voices.len() >= MOST_VOICES {
        return Ok(Some(FaultCode::TooManyVoices));
    }
    voices.push(name, shift)?;
    Ok(None)
}

impl OwnResult {
    /// A result with this header, item and fault.
    fn with_header(header: Header, item: Option<Item>, fault: Option<FaultCode>) -> OwnResult
        ensures { result ≡ with_header header item fault }
    {
        OwnResult {
            header,
            item,
            fault,
        }
    }
}

/// The result of an X:.
fn reference_result(header: Header, value: &[u8]) -> OwnResult
    ensures value { result ≡ reference_by header (reference_of value.now) }
    ensures range { IfSome result.item IsItem }
{
    match reference_of(value) {
        Ok(number) => OwnResult::with_header(header, Some(Item::Number(number)), None),
        Err(fault) => OwnResult::with_header(header, Some(Item::Number(0)), Some(fault)),
    }
}

/// The result of a T:.
fn title_result(alloc: Global, header: Header, value: &[u8]) -> Result<OwnResult, AllocError>
    ensures value { IfOk result (λ own. own ≡ with_header header (Some (items.Title value.now)) None) }
    ensures range { IfOk result (λ own. IfSome own.item IsItem) }
{
    let title = ItemText::new(alloc, value)?;
    Ok(OwnResult::with_header(header, Some(Item::Title(title)), None))
}

/// The result of an M:, L: or Q:.
fn own_setting_result(header: Header, kind: FieldKind, value: &[u8]) -> OwnResult
    ensures value { result ≡ setting_by header (setting_result header.defaults kind value.now) }
    ensures range { IfSome result.item IsItem }
{
    let given = setting_result(header.defaults, kind, value);
    let mut header = header;
    header.defaults = given.defaults;
    OwnResult::with_header(header, None, given.fault)
}

/// The result of a P:.
fn order_result(alloc: Global, header: Header, value: &[u8]) -> Result<OwnResult, AllocError>
    ensures value { IfOk result (λ own. own ≡ order_by header value.now (parts_of value.now)) }
    ensures range { IfOk result (λ own. IfSome own.item IsItem) }
{
    match read_parts(value) {
        Ok(()) => {
            let order = ItemText::new(alloc, value)?;
            Ok(OwnResult::with_header(header, Some(Item::Order(order)), None))
        }
        Err(fault) => Ok(OwnResult::with_header(header, None, Some(fault))),
    }
}

/// Declares the voice of this name with this shift; returns its item or its fault.
fn declare_named(
    alloc: Global,
    header: &mut Header,
    name: &[u8],
    shift: Shift,
) -> Result<(Option<Item>, Option<FaultCode>), AllocError>
    ensures value { IfOk result (λ said. with_header header.new said.0 said.1
        ≡ declare_result header.old name.now (declare header.old.voices name.now shift)) }
    ensures range { IfOk result (λ said. IfSome said.0 IsItem) }
{
    let fault = declare(&mut header.voices, VoiceName::new(alloc, name)?, shift)?;
    if fault.is_some() {
        return Ok((None, fault));
    }
    let name = ItemText::new(alloc, name)?;
    let item = Item::Voice {
        opening: true,
        name,
    };
    Ok((Some(item), None))
}

/// The result of a V:.
fn voice_result(alloc: Global, header: Header, value: &[u8]) -> Result<OwnResult, AllocError>
    ensures value { IfOk result (λ own. own ≡ header_voice_by header value.now (voice_of value.now)) }
    ensures range { IfOk result (λ own. IfSome own.item IsItem) }
{
    match read_voice(value) {
        Ok(voice) => {
            let name = &value[voice.from..voice.to];
            let mut header = header;
            let (item, fault) = declare_named(alloc, &mut header, name, voice.shift)?;
            Ok(OwnResult::with_header(header, item, fault))
        }
        Err(fault) => Ok(OwnResult::with_header(header, None, Some(fault))),
    }
}

/// The key with which a tune begins.
fn header_key_item(key: Key) -> Item
    requires { IsInRange key }
    ensures value { result ≡ header_key_item key }
    ensures range { IsItem result }
{
    Item::Key {
        opening: true,
        key: Some((key.sharps, key.minor)),
    }
}

/// The result of a K:.
fn key_result(header: Header, value: &[u8]) -> OwnResult
    ensures value { result ≡ header_key_by header (key_of value.now) }
    ensures range { IfSome result.item IsItem }
{
    match read_key(value) {
        Ok(key) => OwnResult::with_header(header, Some(header_key_item(key)), None),
        Err(fault) => {
            OwnResult::with_header(header, Some(header_key_item(EMPTY_KEY)), Some(fault))
        }
    }
}

/// The result of a field alone.
fn own_result(
    alloc: Global,
    header: Header,
    kind: FieldKind,
    value: &[u8],
) -> Result<OwnResult, AllocError>
    ensures value { IfOk result (λ own. own ≡ own_result header kind value.now) }
    ensures range { IfOk result (λ own. IfSome own.item IsItem) }
{
    match kind {
        FieldKind::Reference => Ok(reference_result(header, value)),
        FieldKind::Title => title_result(alloc, header, value),
        FieldKind::Meter | FieldKind::UnitLength | FieldKind::Tempo => {
            Ok(own_setting_result(header, kind, value))
        }
        FieldKind::Parts => order_result(alloc, header, value),
        FieldKind::Voice => voice_result(alloc, header, value),
        FieldKind::Key => Ok(key_result(header, value)),
        FieldKind::Other => Ok(OwnResult::with_header(header, None, None)),
    }
}

/// An item, if there is one, and after it the tempo and the meter of a tune whose header ends with these
/// values.
fn items_with(
    alloc: Global,
    item: Option<Item>,
    defaults: &Defaults,
) -> Result<Sequence<Item>, AllocError>
    requires { IfSome item IsItem }
    ensures value { IfOk result (λ items. items ≡ items_with item defaults.now) }
    ensures range { IfOk result (λ items. All IsItem items) }
{
    let room = usize::from(item.is_some()) + 2;
    let mut items = Sequence::from(Vec::with_capacity(alloc, room)?);
    if let Some(own) = item {
        items.push(own)?;
    }
    items.push(opening_tempo(defaults))?;
    items.push(opening_meter(defaults))?;
    Ok(items)
}

/// The item of a directive: a program has its number, or none if it is refused.
fn directive_item(directive: Directive) -> Option<Item>
    ensures value { result ≡ directive_item directive }
    ensures range { IfSome result IsItem }
{
    match directive {
        Directive::Program(written) => Some(Item::Program {
            opening: true,
            number: program_of(written),
        }),
        Directive::Reach(_) => None,
    }
}

/// The result of a directive alone.
fn own_directive_result(header: Header, directive: Directive) -> OwnResult
    ensures value { result ≡ own_directive_result header directive }
    ensures range { IfSome result.item IsItem }
{
    let given = directive_result(header.defaults, directive);
    let mut header = header;
    header.defaults = given.defaults;
    OwnResult::with_header(header, directive_item(directive), given.fault)
}

/// The program that a field adds: an X:, with which a tune begins, adds the program of the file header.
fn opening_program(kind: FieldKind, defaults: &Defaults) -> Option<TuneProgram>
    ensures { result ≡ opening_program kind defaults.now }
{
    match kind {
        FieldKind::Reference => defaults.program,
        _ => None,
    }
}

/// Adds the program of a tune after items, if there is one.
fn append_program(
    items: Sequence<Item>,
    program: Option<TuneProgram>,
) -> Result<Sequence<Item>, AllocError>
    requires { All IsItem items }
    ensures value { IfOk result (λ more. more ≡ append_program items program) }
    ensures range { IfOk result (λ more. All IsItem more) }
{
    let mut items = items;
    if let Some(program) = program {
        items.push(Item::Program {
            opening: true,
            number: Some(program.get()),
        })?;
    }
    Ok(items)
}

/// The result of a line of a header, from its result alone and the program that it adds.
fn header_line_result(
    alloc: Global,
    own: OwnResult,
    program: Option<TuneProgram>,
) -> Result<HeaderResult, AllocError>
    requires { IfSome own.item IsItem }
    ensures value { IfOk result (λ given. given ≡ header_line_result own program) }
    ensures range { IfOk result (λ given. All IsItem given.items) }
{
    let OwnResult {
        header,
        item,
        fault,
    } = own;
    let items = items_with(alloc, item, &header.defaults)?;
    let items = append_program(items, program)?;
    let faults = faults_of(alloc, fault)?;
    Ok(HeaderResult {
        header,
        items,
        faults,
    })
}

/// Reads a field of a header. Its own item comes first, then the tempo and meter with which the tune begins if its header ends
/// after it. An X: also adds the program of the file header. It returns an error if an allocation fails.
pub fn header_result(
    alloc: Global,
    header: Header,
    field: &Field,
) -> Result<HeaderResult, AllocError>
    ensures value { IfOk result (λ given. given ≡ header_result header (FieldLine field.now)) }
    ensures range { IfOk result (λ given. All IsItem given.items) }
{
    let kind = kind_of(field.letter);
    let program = opening_program(kind, &header.defaults);
    let own = own_result(alloc, header, kind, field.value.as_slice())?;
    header_line_result(alloc, own, program)
}

/// Reads a directive of a header. Its own item comes first, then the tempo and meter with which the tune begins if its header
/// ends after it. It returns an error if an allocation fails.
pub fn header_directive_result(
    alloc: Global,
    header: Header,
    directive: Directive,
) -> Result<HeaderResult, AllocError>
    ensures value { IfOk result (λ given. given ≡ header_result header (DirectiveLine directive)) }
    ensures range { IfOk result (λ given. All IsItem given.items) }
{
    header_line_result(alloc, own_directive_result(header, directive), None)
}
