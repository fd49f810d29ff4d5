//! The modes of keys.

ghost use Rattle.std.specs.Prelude.{◌≡◌};
ghost use Rattle.abc_fields.specs.Mode.{mode_named, mode_of, added_sharps, is_minor};

/// A mode (ABC 2.1 section 3.1.14): major is Ionian, and minor is Aeolian.
#[derive(Clone, Copy)]
pub(crate) enum Mode {
    Lydian,
    Ionian,
    Mixolydian,
    Dorian,
    Aeolian,
    Phrygian,
    Locrian,
}

impl Mode {
    /// Returns the number of sharps that the mode adds to those of the major key on the same tonic.
    pub(crate) fn added_sharps(self) -> i8
        ensures { result ≡ added_sharps self }
    {
        match self {
            Mode::Lydian => 1,
            Mode::Ionian => 0,
            Mode::Mixolydian => -1,
            Mode::Dorian => -2,
            Mode::Aeolian => -3,
            Mode::Phrygian => -4,
            Mode::Locrian => -5,
        }
    }

    /// Returns whether it is minor.
    pub(crate) fn is_minor(self) -> bool
        ensures { result ≡ is_minor self }
    {
        matches!(self, Mode::Aeolian)
    }
}

/// The mode that three small letters name.
#[tactic(auto, unfolding(crate::specs::Mode::mode_named))]
fn mode_named(name: &[u8]) -> Option<Mode>
    ensures { result ≡ mode_named name.now }
{
    match name {
        b"lyd" => Some(Mode::Lydian),
        b"maj" | b"ion" => Some(Mode::Ionian),
        b"mix" => Some(Mode::Mixolydian),
        b"dor" => Some(Mode::Dorian),
        b"min" | b"aeo" => Some(Mode::Aeolian),
        b"phr" => Some(Mode::Phrygian),
        b"loc" => Some(Mode::Locrian),
        _ => None,
    }
}

/// Returns the mode that a run of letters names: `m` is minor. Of a longer run the first three letters count, capital
/// or small.
#[tactic(auto, using(crate::proofs::Modes::short_run, crate::proofs::Modes::minor_run, crate::proofs::Modes::long_run))]
pub(crate) fn mode_of(run: &[u8]) -> Option<Mode>
    ensures { result ≡ mode_of run.now }
{
    if run == b"m".as_slice() {
        return Some(Mode::Aeolian);
    }
    match run {
        [a, b, c, ..] => mode_named(&[
            a.to_ascii_lowercase(),
            b.to_ascii_lowercase(),
            c.to_ascii_lowercase(),
        ]),
        _ => None,
    }
}
