//! Laws of quantities and events. Each function has no body: its contract is the law.
ghost use Rattle.std.specs.Prelude.{◌≡◌, ◌≤◌, ◌<◌, ◌^◌, ℕ, List, ◌++◌, length, IsPermutation, IsSorted};
ghost use Rattle.abc_voices_score.specs.declared.score.ChangeKind.{ChangeKind};
ghost use Rattle.smf_bytes.specs.declared.event.Event.{Event};
ghost use Rattle.smf_bytes.specs.declared.event_bytes.TheConstants.{ROOM_IN_PLACE};
ghost use Rattle.smf_bytes.specs.Event.{change_bytes, note_off, note_on, program_change};
ghost use Rattle.smf_bytes.specs.Number.{number_text};
ghost use Rattle.smf_bytes.specs.Order.{event_cmp, in_order};

/// A number is read back from its text whatever follows, so no number's text is the beginning of another's (SMF 1.0,
/// variable-length quantities).
pub fn number_texts()
    ensures read_back { (m n : ℕ) (xs ys : List ℕ) → m < 2 ^ 28 → n < 2 ^ 28
        → number_text m ++ xs ≡ number_text n ++ ys → (m ≡ n) × (xs ≡ ys) }
    ensures not_a_front { (m n : ℕ) (rest : List ℕ) → m < 2 ^ 28 → n < 2 ^ 28
        → number_text m ++ rest ≡ number_text n → m ≡ n }
{}

/// A bag of events has one order, which `in_order` computes.
pub fn one_order()
    ensures permutation { (events : List Event) → IsPermutation events (in_order events) }
    ensures sorted { (events : List Event) → IsSorted event_cmp (in_order events) }
    ensures unique { (xs ys : List Event) → IsPermutation xs ys → IsSorted event_cmp xs → IsSorted event_cmp ys
        → xs ≡ ys }
{}

/// The bytes of all events but titles fit in place.
pub fn events_in_place()
    ensures changes { (what : ChangeKind) → length (change_bytes what) ≤ ROOM_IN_PLACE }
    ensures note_offs { (channel key tick : ℕ) → length (note_off channel key tick).bytes ≤ ROOM_IN_PLACE }
    ensures programs { (channel number tick : ℕ) → length (program_change channel number tick).bytes ≤ ROOM_IN_PLACE }
    ensures note_ons { (channel key velocity tick : ℕ) → length (note_on channel key velocity tick).bytes ≤ ROOM_IN_PLACE }
{}
