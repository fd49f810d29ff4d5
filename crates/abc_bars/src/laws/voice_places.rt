//! The law of the voices of the places of a tune's body.

ghost use Rattle.abc_bars.specs.LookBack.VoicePlaces.{PlacesHoldOfVoices, VoicesAreMentioned, VoicesHoldOfTokens};

/// The voice of a place is that of the last V: of the body before it that counts, else the first that the header declares, else
/// the unnamed one. An accepted V: counts if its voice is mentioned before it, or fewer than fifteen voices are. A voice is
/// mentioned by an accepted V:, the unnamed one by a note, a rest or a chord with a note before any. The state of a voice at a
/// place is what its tokens leave of its opening state. Its tokens are those at its places, each V: that names it, and each
/// accepted P: (ABC 2.1 section 7).
pub fn voices_at_places()
    ensures mentioned { VoicesAreMentioned }
    ensures current { PlacesHoldOfVoices }
    ensures each { VoicesHoldOfTokens }
{}
