//! The letters of the fields that have an effect.

ghost use Rattle.std.specs.Prelude.{◌≡◌};
ghost use Rattle.abc_bars_header.specs.FieldKind.{kind_of};

/// The kind of a field (ABC 2.1 section 3).
#[derive(Clone, Copy)]
pub enum FieldKind {
    Reference,
    Title,
    Meter,
    UnitLength,
    Tempo,
    Parts,
    Voice,
    Key,
    /// Anything else, which has no effect.
    Other,
}

/// The letter of a reference number.
const REFERENCE: u8 = b'X';

/// The letter of a title.
const TITLE: u8 = b'T';

/// The letter of a meter.
const METER: u8 = b'M';

/// The letter of a unit note length.
const UNIT_LENGTH: u8 = b'L';

/// The letter of a tempo.
const TEMPO: u8 = b'Q';

/// The letter of an order of parts, or of a part.
const PARTS: u8 = b'P';

/// The letter of a voice.
const VOICE: u8 = b'V';

/// The letter of a key.
const KEY: u8 = b'K';

/// The kind of the field with a letter.
pub fn kind_of(letter: u8) -> FieldKind
    ensures { result ≡ kind_of letter }
{
    match letter {
        REFERENCE => FieldKind::Reference,
        TITLE => FieldKind::Title,
        METER => FieldKind::Meter,
        UNIT_LENGTH => FieldKind::UnitLength,
        TEMPO => FieldKind::Tempo,
        PARTS => FieldKind::Parts,
        VOICE => FieldKind::Voice,
        KEY => FieldKind::Key,
        _ => FieldKind::Other,
    }
}

// The letters of ABC 2.1 section 3.
const _: () = prove!(REFERENCE == b'X');

const _: () = prove!(TITLE == b'T');

const _: () = prove!(METER == b'M');

const _: () = prove!(UNIT_LENGTH == b'L');

const _: () = prove!(TEMPO == b'Q');

const _: () = prove!(PARTS == b'P');

const _: () = prove!(VOICE == b'V');

const _: () = prove!(KEY == b'K');
