//! The faults of a tune book. The clients' file `faults.json` and the documents repeat their names.

ghost use Rattle.std.specs.Prelude.{◌≡◌, ◌≤◌, Some, nat_eq, refl};
ghost use Rattle.std.specs.Cmp.{nat_cmp_total, nat_eq_equiv, on_equiv, on_per, on_po, on_total, partial_equiv_from_equiv};
ghost use Rattle.std.specs.Cmp.{unsigned_po, unsigned_ties};
ghost use Rattle.std.specs.Ordering.{nat_cmp};
ghost use Rattle.abc_fields.specs.declared.fault_code.FaultCode.{FaultCode};
ghost use Rattle.abc_fields.specs.Fault.{name_of, number_of};

use std::cmp::Ordering;
use thiserror::Error;

/// The kind of a fault. Faults at one place are listed in this order. Its text is for logs; clients have sentences for people.
#[derive(Clone, Copy, Debug, Error)]
pub enum FaultCode {
    /// An `X:` without a number from 1.
    #[error("X: has no number from 1")]
    BadReference = 1,
    /// An `M:` without a valid meter.
    #[error("M: has no valid meter")]
    BadMeter,
    /// An `L:` without a valid unit note length.
    #[error("L: has no valid unit note length")]
    BadUnit,
    /// A `Q:` without a valid tempo.
    #[error("Q: has no valid tempo")]
    BadTempo,
    /// A `K:` without a valid key.
    #[error("K: has no valid key")]
    BadKey,
    /// A `P:` of a header without a valid order of parts.
    #[error("P: of the header has no valid order of parts")]
    BadOrder,
    /// A `P:` of a body without a part.
    #[error("P: in the body has no part")]
    BadPart,
    /// A `V:` without a valid voice.
    #[error("V: has no valid voice")]
    BadVoice,
    /// A voice beyond the limit of a tune.
    #[error("a voice is beyond the limit of a tune")]
    TooManyVoices,
    /// A byte that begins no token.
    #[error("a byte begins no token")]
    BadByte,
    /// A `[`, `"`, `!` or `{` that nothing closes.
    #[error("nothing closes a delimiter")]
    Unclosed,
    /// A length that is refused: 0, too many digits or slashes, not whole in grains, or above 1,024 whole notes.
    #[error("a length is refused")]
    BadLength,
    /// A tuplet that is out of range.
    #[error("a tuplet is out of range")]
    BadTuplet,
    /// A tuplet that begins inside another.
    #[error("a tuplet begins inside another")]
    NestedTuplet,
    /// A broken rhythm without two notes.
    #[error("a broken rhythm has no two notes")]
    BadBroken,
    /// A tie that does not directly follow a note or chord.
    #[error("a tie does not directly follow a note or chord")]
    LooseTie,
    /// A chord without notes.
    #[error("a chord has no notes")]
    EmptyChord,
    /// A note beyond the limit of a chord.
    #[error("a note is beyond the limit of a chord")]
    BigChord,
    /// An ending that is out of range.
    #[error("an ending is out of range")]
    BadEnding,
    /// A rest of bars in free meter.
    #[error("a rest of bars is in free meter")]
    FreeBarRest,
    /// A note without a MIDI key.
    #[error("a note has no MIDI key")]
    KeyRange,
    /// A header without a key.
    #[error("a header has no key")]
    MissingKey,
    /// A tempo that is out of range.
    #[error("a tempo is out of range")]
    TempoRange,
    /// An order with a part that the tune does not have.
    #[error("an order names a part that the tune does not have")]
    UnknownPart,
    /// Voices of a section that differ in length.
    #[error("voices of a section differ in length")]
    UnevenVoices,
    /// A tune beyond a limit: of sections played, of items played, or of its end.
    #[error("a tune is beyond a limit")]
    TuneTooLong,
    /// A program without a MIDI number.
    #[error("a program has no MIDI number")]
    BadProgram,
}

impl FaultCode {
    /// Its number, from 1: faults at one place are listed in the order of their numbers.
    pub fn number(self) -> u8
        ensures value { result ≡ number_of self }
        ensures own { (other : FaultCode) → number_of other ≡ result → other ≡ self }
        ensures range { (1 ≤ result) × (result ≤ 27) }
    {
        self as u8
    }

    /// Its name, as the list of faults prints it.
    pub fn name(self) -> &'static str
        ensures { result.now ≡ name_of self }
    {
        match self {
            FaultCode::BadReference => "BadReference",
            FaultCode::BadMeter => "BadMeter",
            FaultCode::BadUnit => "BadUnit",
            FaultCode::BadTempo => "BadTempo",
            FaultCode::BadKey => "BadKey",
            FaultCode::BadOrder => "BadOrder",
            FaultCode::BadPart => "BadPart",
            FaultCode::BadVoice => "BadVoice",
            FaultCode::TooManyVoices => "TooManyVoices",
            FaultCode::BadByte => "BadByte",
            FaultCode::Unclosed => "Unclosed",
            FaultCode::BadLength => "BadLength",
            FaultCode::BadTuplet => "BadTuplet",
            FaultCode::NestedTuplet => "NestedTuplet",
            FaultCode::BadBroken => "BadBroken",
            FaultCode::LooseTie => "LooseTie",
            FaultCode::EmptyChord => "EmptyChord",
            FaultCode::BigChord => "BigChord",
            FaultCode::BadEnding => "BadEnding",
            FaultCode::FreeBarRest => "FreeBarRest",
            FaultCode::KeyRange => "KeyRange",
            FaultCode::MissingKey => "MissingKey",
            FaultCode::TempoRange => "TempoRange",
            FaultCode::UnknownPart => "UnknownPart",
            FaultCode::UnevenVoices => "UnevenVoices",
            FaultCode::TuneTooLong => "TuneTooLong",
            FaultCode::BadProgram => "BadProgram",
        }
    }
}

// Codes compare as their numbers.

impl PartialEq for FaultCode {
    ghost eq = { λ a b. nat_eq (number_of a) (number_of b) };

    ghost laws = { on_per number_of (partial_equiv_from_equiv nat_eq_equiv) };

    fn eq(&self, other: &FaultCode) -> bool {
        self.number() == other.number()
    }
}

impl Eq for FaultCode {
    ghost laws = { on_equiv number_of nat_eq_equiv };
}

impl PartialOrd for FaultCode {
    ghost partial_cmp = { λ a b. Some (nat_cmp (number_of a) (number_of b)) };

    ghost laws = { on_po number_of unsigned_po };

    fn partial_cmp(&self, other: &FaultCode) -> Option<Ordering> {
        Some(self.cmp(other))
    }
}

impl Ord for FaultCode {
    ghost cmp = { λ a b. nat_cmp (number_of a) (number_of b) };

    ghost total = { on_total number_of nat_cmp_total };

    ghost matches_partial_cmp = { λ a b. refl };

    ghost matches_eq = { λ a b. unsigned_ties (number_of a) (number_of b) };

    fn cmp(&self, other: &FaultCode) -> Ordering {
        self.number().cmp(&other.number())
    }
}
