//! The law of what the voices of a tune's body begin with.

ghost use Rattle.abc_bars.specs.LookBack.Openings.{DeclaredVoicesOpen, OtherVoicesOpen};

/// A voice begins in a body with (ABC 2.1 sections 3.1.6, 3.1.7, 3.1.14 and 4.6):
///
/// - meter: that of the header, else free meter;
/// - unit note length: that of the header, else the one of this meter;
/// - signature: that of the key, else none;
/// - accidentals: they reach as far as the header sets;
/// - each part of the shift: by the last V: of the header that sets it for this voice, else by the key, else none.
pub fn openings_of_voices()
    ensures declared { DeclaredVoicesOpen }
    ensures others { OtherVoicesOpen }
{}
