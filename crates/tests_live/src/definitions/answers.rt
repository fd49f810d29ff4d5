//! The lines of a tune book, and the lists of answers. Not in ABC 2.1.
#![tactic(auto)]

ghost use Rattle.std.specs.Prelude.{◌≡◌, [], ◌∷◌, ◌++◌, codes};
ghost use Rattle.abc2midi_live.specs.Answer.{fault_list, title_list};
ghost use Rattle.abc2midi_live.specs.Transcript.{book_lines};
ghost use Rattle.abc_fields.specs.declared.fault_code.FaultCode.TheVariants.{BadBroken, BadByte, MissingKey};

/// The lines of a tune book. One mark of UTF-8 at its start is dropped; a last line without a line feed counts if it is
/// not empty.
#[tactic(auto, unfolding(crate::specs::Opened::lines_of_a_book))]
pub fn lines_of_books()
    ensures marked { book_lines (239 ∷ 187 ∷ 191 ∷ codes "a\nb\n") ≡ codes "a" ∷ codes "b" ∷ [] }
    ensures twice_marked { book_lines (239 ∷ 187 ∷ 191 ∷ 239 ∷ 187 ∷ 191 ∷ codes "a\n") ≡ (239 ∷ 187 ∷ 191 ∷ codes "a") ∷ [] }
    ensures marked_after { book_lines (codes "a\n" ++ 239 ∷ 187 ∷ 191 ∷ []) ≡ codes "a" ∷ (239 ∷ 187 ∷ 191 ∷ []) ∷ [] }
    ensures part_of_a_mark { book_lines (239 ∷ 187 ∷ []) ≡ (239 ∷ 187 ∷ []) ∷ [] }
    ensures unended { book_lines (codes "a\nb") ≡ codes "a" ∷ codes "b" ∷ [] }
    ensures blank { book_lines (codes "\n\na\n\n") ≡ [] ∷ [] ∷ codes "a" ∷ [] ∷ [] }
    ensures returned { book_lines (codes "a\r\n\r") ≡ codes "a\r" ∷ codes "\r" ∷ [] }
    ensures only_a_mark { book_lines (239 ∷ 187 ∷ 191 ∷ []) ≡ [] }
    ensures empty { book_lines [] ≡ [] }
{}

/// Lists of faults and of titles. A missing title is empty, and the space before it stays.
#[tactic(auto, unfolding(crate::specs::Opened::lists))]
pub fn lists()
    ensures fault { fault_list (record { line = 5; column = 2; code = BadBroken } ∷ []) ≡ codes "5:2 BadBroken\nend\n" }
    ensures faults { fault_list (record { line = 1; column = 1; code = MissingKey }
        ∷ record { line = 12; column = 340; code = BadByte } ∷ [])
        ≡ codes "1:1 MissingKey\n12:340 BadByte\nend\n" }
    ensures titles { title_list (record { number = 5; text = codes "A plain tune" } ∷ record { number = 0; text = [] } ∷ [])
        ≡ codes "5 A plain tune\n0 \nend\n" }
    ensures none { (fault_list [] ≡ codes "end\n") × (title_list [] ≡ codes "end\n") }
{}
