//! The laws of the fold over bars, as a caller states them, by `abc_bars`.

ghost use Rattle.std.specs.Prelude.{◌≡◌, ◌≤◌, ◌∷◌, [], All, List, false, filter, length};
ghost use Rattle.std.specs.Map.{keys_of};
ghost use Rattle.tests_surface.specs.Bars.{here, body_from, is_time_token, with_token, file_header_result, header_result};
ghost use Rattle.tests_surface.specs.Bars.{opening_header, HeaderLine, MOST_VOICES, body_after, CellTokens, naming_at};
ghost use Rattle.tests_surface.specs.Bars.{voice_state_named, VoicePlace, element_of, defaults_at, Element, declared_names};
ghost use Rattle.tests_surface.specs.Bars.{header_at, IsAlteredAt, AtEachPlace, Place, result_at, result_in_body, place_following};
ghost use Rattle.tests_surface.specs.Bars.{view, loose_ties, voice_state_at, is_loose_tie, MentionsFew, NamesVoices};
ghost use Rattle.tests_surface.specs.Bars.{entry_step};

use abc_bars::{
    Body, CellResult, Defaults, Header, Key, Note, Spanned, TokenKind, VoiceState, laws,
};

/// Each cell is entered in the view of its place.
pub fn cells_are_views()
    ensures value { (place : Place) (cell : List (Spanned TokenKind)) →
        entry_step (view place) cell ≡ (view (place_following place cell), result_at place cell) }
{
    laws::cell_views();
}

/// Each token leaves what its element leaves.
pub fn tokens_are_elements()
    ensures value { (was : CellResult) (body : Body) (token : Spanned TokenKind) (ahead : List (Spanned TokenKind)) →
        (with_token (record was { body = body }) token ahead).body ≡ body_after body (element_of token ahead) }
{
    laws::left_by_tokens();
}

/// Each line of a header has the value of its definition.
pub fn headers_are_views()
    ensures values { (opening : Defaults) (before : List HeaderLine) (line : HeaderLine) →
        defaults_at opening (line ∷ before) ≡ (file_header_result (defaults_at opening before) line).defaults }
    ensures opens { (opening : Defaults) → header_at opening [] ≡ opening_header opening }
    ensures header { (opening : Defaults) (before : List HeaderLine) (line : HeaderLine) →
        header_at opening (line ∷ before) ≡ (header_result (header_at opening before) line).header }
{
    laws::header_views();
}

/// A body begins with the voices of its header, which are few.
pub fn bodies_begin()
    ensures few { (before : List HeaderLine) → length (declared_names before) ≤ MOST_VOICES }
    ensures body { (header : Header) (key : Key) → keys_of (body_from header key).voices ≡ keys_of header.voices }
{
    laws::declared_voices();
}

/// The current voice is found by its name.
pub fn voices_have_names()
    ensures current { AtEachPlace (λ body start before. here body
        ≡ voice_state_named start (naming_at start before).current before) }
{
    laws::named_voices();
}

/// Each loose tie has its fault.
pub fn loose_ties_have_faults()
    ensures value { (opening : Defaults) (fields : List HeaderLine) (key : Key) (before : List Element) (cell : CellTokens) →
        filter is_loose_tie (result_in_body opening fields key before cell).faults ≡ loose_ties cell }
{
    laws::loose_ties_of_cells();
}

/// Before the first note of a voice no tie leads on.
pub fn no_tie_leads_on()
    ensures value { (opening : VoiceState) (before : List Element) → All (λ other. is_time_token other.kind ≡ false) before →
        (voice_state_at opening before).tied ≡ [] }
{
    laws::ties_of_voices();
}

/// The cells of a tune mention few voices, by their names.
pub fn few_voices()
    ensures few { MentionsFew }
    ensures names { NamesVoices }
{
    laws::voices_of_items();
}

/// Each note is altered as its place says.
pub fn notes_are_altered()
    ensures value { (at : VoicePlace) (earlier : List Note) (note : Note) → IsAlteredAt at earlier note }
{
    laws::alterations_of_notes();
}
