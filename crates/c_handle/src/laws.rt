//! Worked examples of the lines of a text and of what calls return, with the codes of the header of C, and laws of edits.
//! Each function has no body: its contract is the example or the law.

ghost use Rattle.std.specs.Prelude.{◌≡◌, ◌≢◌, ℕ, true, false, [], ◌∷◌, codes, map, Ok, None, Some, Option};
ghost use Rattle.abc_lines.specs.Edits.{edited};
ghost use Rattle.abc_lines.specs.Text.{Splice};
ghost use Rattle.abc_lines.specs.TextLines.{lines_in};
ghost use Rattle.abc_lines.specs.declared.edit_error.EditError.TheVariants.{BadLine, BadRange, OutOfMemory, TooLarge};
ghost use Rattle.abc_live.specs.declared.LineTokenKind.TheVariants as kinds;
ghost use Rattle.abc_play.specs.declared.EntryKind.TheVariants as entries;
ghost use Rattle.c_handle.specs.Answers.{count_answer};
ghost use Rattle.c_handle.specs.Codes.{code_of};
ghost use Rattle.c_handle.specs.Copies.{copy_answer, lookup_answer, slot_answer};
ghost use Rattle.c_handle.specs.PlayRecords.{key_number, kind_number as entry_number, play_record, ties_number, velocity_number};
ghost use Rattle.c_handle.specs.Sessions.{EditsSlot};
ghost use Rattle.c_handle.specs.TokenRecords.{kind_number, token_record};
ghost use Rattle.c_handle.specs.declared.open_session.OpenSession.{OpenSession};

/// The lines of texts. A last line without a line feed counts if it is not empty.
#[tactic(auto, unfolding(abc_lines::specs::TextLines::lines_in, abc_lines::specs::TextLines::whole_lines))]
pub fn lines_of_texts()
    ensures ended { lines_in (codes "a\nb\n") ≡ codes "a" ∷ codes "b" ∷ [] }
    ensures unended { lines_in (codes "a\nb") ≡ codes "a" ∷ codes "b" ∷ [] }
    ensures blank { lines_in (codes "\n\na\n\n") ≡ [] ∷ [] ∷ codes "a" ∷ [] ∷ [] }
    ensures returned { lines_in (codes "a\r\n\r") ≡ codes "a\r" ∷ codes "\r" ∷ [] }
    ensures empty { lines_in [] ≡ [] }
{}

/// The codes of refused edits.
pub fn codes_of_refusals()
    ensures bad_range { code_of BadRange ≡ 2 }
    ensures bad_line { code_of BadLine ≡ 3 }
    ensures too_large { code_of TooLarge ≡ 4 }
    ensures out_of_memory { code_of OutOfMemory ≡ 5 }
{}

/// The code, the count and the buffer of a call that copies. Items that do not fit are counted, and none is copied.
pub fn copies_into_buffers()
    ensures fitting { copy_answer {A = ℕ} (7 ∷ 8 ∷ []) (1 ∷ 2 ∷ 3 ∷ []) ≡ (0, 2, 7 ∷ 8 ∷ 3 ∷ []) }
    ensures filling { copy_answer {A = ℕ} (7 ∷ 8 ∷ []) (1 ∷ 2 ∷ []) ≡ (0, 2, 7 ∷ 8 ∷ []) }
    ensures short { copy_answer {A = ℕ} (7 ∷ 8 ∷ []) (1 ∷ []) ≡ (7, 2, 1 ∷ []) }
    ensures found { slot_answer {A = ℕ} (Some (Some (7 ∷ []))) (1 ∷ 2 ∷ []) ≡ (0, 1, 7 ∷ 2 ∷ []) }
    ensures missing { lookup_answer {A = ℕ} None (1 ∷ []) ≡ (6, 0, 1 ∷ []) }
    ensures missing_in_session { slot_answer {A = ℕ} (Some None) (1 ∷ []) ≡ (6, 0, 1 ∷ []) }
    ensures misused { slot_answer {A = ℕ} None (1 ∷ []) ≡ (1, 0, 1 ∷ []) }
{}

/// The numbers of the kinds of tokens, which the header of C has.
pub fn numbers_of_kinds()
    ensures notes { map kind_number (kinds.Note ∷ kinds.Rest ∷ kinds.BarRest ∷ kinds.Chord ∷ []) ≡ 1 ∷ 2 ∷ 3 ∷ 4 ∷ [] }
    ensures marks { map kind_number (kinds.InlineField ∷ kinds.BarLine ∷ kinds.Ending ∷ kinds.Tuplet ∷ kinds.BrokenRhythm
        ∷ kinds.Tie ∷ kinds.Dynamic ∷ []) ≡ 5 ∷ 6 ∷ 7 ∷ 8 ∷ 9 ∷ 10 ∷ 11 ∷ [] }
    ensures silent { map kind_number (kinds.Blank ∷ kinds.Quoted ∷ kinds.Decoration ∷ kinds.Grace ∷ kinds.Space ∷ kinds.NoEffect ∷ [])
        ≡ 12 ∷ 13 ∷ 14 ∷ 15 ∷ 16 ∷ 17 ∷ [] }
    ensures others { map kind_number (kinds.BadByte ∷ kinds.Unclosed ∷ kinds.Comment ∷ []) ≡ 18 ∷ 19 ∷ 20 ∷ [] }
    ensures lines { map kind_number (kinds.NumberField ∷ kinds.TitleField ∷ kinds.KeyField ∷ kinds.OtherField ∷ kinds.Directive
        ∷ kinds.FreeText ∷ []) ≡ 21 ∷ 22 ∷ 23 ∷ 24 ∷ 25 ∷ 26 ∷ [] }
{}

/// The columns, the kind and the depth of the record of a token.
pub fn records_of_tokens()
    ensures { (from to depth : ℕ) → token_record (record { from = from; to = to; kind = kinds.Note; depth = depth })
        ≡ record { from = from; to = to; kind = 1; depth = depth } }
{}

/// The numbers of the record of an entry. Without a key of MIDI the key is 128 and the velocity 0.
pub fn records_of_entries()
    ensures kinds { map entry_number (entries.Note 0 None 80 false false ∷ entries.Rest ∷ entries.Bar ∷ []) ≡ 1 ∷ 2 ∷ 3 ∷ [] }
    ensures no_key { map key_number (entries.Note 0 None 80 false false ∷ entries.Rest ∷ entries.Bar ∷ []) ≡ 128 ∷ 128 ∷ 128 ∷ [] }
    ensures silent { map velocity_number (entries.Note 0 None 80 false false ∷ entries.Rest ∷ entries.Bar ∷ []) ≡ 0 ∷ 0 ∷ 0 ∷ [] }
    ensures ties { (key : Option ℕ) → map ties_number (entries.Note 0 key 80 false false ∷ entries.Note 0 key 80 true false
        ∷ entries.Note 0 key 80 false true ∷ entries.Note 0 key 80 true true ∷ entries.Rest ∷ entries.Bar ∷ [])
        ≡ 0 ∷ 1 ∷ 2 ∷ 3 ∷ 0 ∷ 0 ∷ [] }
    ensures fields { (on off line from to key velocity : ℕ) → play_record (record {
      on = on;
      off = off;
      kind = entries.Note 0 (Some key) velocity true true;
      place = record { line = line; from = from; to = to };
    }) ≡ record {
      on = on;
      off = off;
      line = line;
      from = from;
      to = to;
      kind = 1;
      key = key;
      velocity = velocity;
      ties = 3;
    } }
{}

/// The code and the number of a call that counts.
pub fn counts_in_slots()
    ensures value { count_answer (Some 3) ≡ (0, 3) }
    ensures misused { count_answer None ≡ (1, 0) }
{}

/// An edit that returns another code than 0 leaves the slot as it was. After 0 the session has the edited text.
pub fn edits_of_slots()
    ensures unchanged { (splice : Option Splice) (before after : Option OpenSession) (code : ℕ)
        → EditsSlot splice before code after → code ≢ 0 → after ≡ before }
    ensures value { (splice : Option Splice) (before after : OpenSession) → EditsSlot splice (Some before) 0 (Some after)
        → edited before.session.text splice ≡ Ok after.session.text }
{}
