//! Edits of a text, and the differences of two books. How a text is edited is not in ABC 2.1.
#![tactic(auto, unfolding(crate::specs::Opened::edits, crate::specs::Opened::differences))]

ghost use Rattle.std.specs.Prelude.{◌≡◌, ℕ, true, false, [], ◌∷◌, ◌++◌, length, codes, map, replicate, Ok, Err};
ghost use Rattle.std.specs.Global.{Vec};
ghost use Rattle.std.specs.List.{list_all};
ghost use Rattle.abc_lines.specs.EditError.{name_of};
ghost use Rattle.abc_lines.specs.Edits.{Refuses, deletion, edited, insertion, replacement};
ghost use Rattle.abc_lines.specs.Text.{Text, is_line};
ghost use Rattle.abc_lines.specs.declared.edit_error.EditError.TheVariants.{BadLine, BadRange, OutOfMemory, TooLarge};
ghost use Rattle.abc_live.specs.Edit.{line_at, splice_of};
ghost use Rattle.abc_live.specs.declared.Edit.TheVariants.{Delete, Insert, Replace};
ghost use Rattle.abc_tune_compiler.specs.Files.{file_at, removed_numbers, written_numbers};
ghost use Rattle.tests_live.specs.Values.{four_lines};

/// Lines are counted from 1.
pub fn line_numbers()
    ensures none { line_at four_lines 0 ≡ None }
    ensures first { line_at four_lines 1 ≡ Some (codes "a") }
    ensures last { line_at four_lines 4 ≡ Some (codes "d") }
    ensures after_the_last { line_at four_lines 5 ≡ None }
{}

/// The results of accepted changes of four lines. An insertion may be after the last line, and each list of lines may be
/// empty.
pub fn accepted_changes()
    ensures at_first { edited four_lines (insertion 1 (codes "x" ∷ [])) ≡ Ok (codes "x" ∷ four_lines) }
    ensures before_the_third { edited four_lines (insertion 3 (codes "x" ∷ codes "y" ∷ []))
        ≡ Ok (codes "a" ∷ codes "b" ∷ codes "x" ∷ codes "y" ∷ codes "c" ∷ codes "d" ∷ []) }
    ensures after_the_last { edited four_lines (insertion 5 (codes "x" ∷ []))
        ≡ Ok (codes "a" ∷ codes "b" ∷ codes "c" ∷ codes "d" ∷ codes "x" ∷ []) }
    ensures no_lines { edited four_lines (insertion 1 []) ≡ Ok four_lines }
    ensures one_for_two { edited four_lines (replacement 2 3 (codes "x" ∷ [])) ≡ Ok (codes "a" ∷ codes "x" ∷ codes "d" ∷ []) }
    ensures none_for_two { edited four_lines (replacement 2 3 []) ≡ Ok (codes "a" ∷ codes "d" ∷ []) }
    ensures one_line { edited four_lines (deletion 4 4) ≡ Ok (codes "a" ∷ codes "b" ∷ codes "c" ∷ []) }
    ensures all_lines { edited four_lines (deletion 1 4) ≡ Ok [] }
    ensures into_nothing { edited [] (insertion 1 (codes "x" ∷ [])) ≡ Ok (codes "x" ∷ []) }
{}

/// Ranges that are not in a text of four lines.
pub fn bad_ranges()
    ensures backwards { edited four_lines (deletion 3 2) ≡ Err BadRange }
    ensures from_zero { edited four_lines (deletion 0 2) ≡ Err BadRange }
    ensures past_the_end { edited four_lines (deletion 4 5) ≡ Err BadRange }
    ensures replaced_backwards { edited four_lines (replacement 3 2 []) ≡ Err BadRange }
    ensures replaced_past_the_end { edited four_lines (replacement 5 5 (codes "x" ∷ [])) ≡ Err BadRange }
    ensures inserted_at_zero { edited four_lines (insertion 0 []) ≡ Err BadRange }
    ensures inserted_past_the_end { edited four_lines (insertion 6 []) ≡ Err BadRange }
    ensures inserted_far_past_the_end { edited four_lines (insertion 9 (codes "x" ∷ [])) ≡ Err BadRange }
    ensures nothing_to_replace { edited [] (replacement 1 1 []) ≡ Err BadRange }
{}

/// The same of edits as a session takes them, whatever the lines are.
pub fn bad_ranges_of_edits()
    ensures deleted { edited four_lines (splice_of (Delete 3 2)) ≡ Err BadRange }
    ensures inserted { (lines : Vec (Vec ℕ)) → edited four_lines (splice_of (Insert 9 lines)) ≡ Err BadRange }
    ensures replaced { (lines : Vec (Vec ℕ)) → edited four_lines (splice_of (Replace 4 5 lines)) ≡ Err BadRange }
    ensures accepted { edited four_lines (splice_of (Delete 2 3)) ≡ Ok (codes "a" ∷ codes "d" ∷ []) }
{}

/// A line has no line feed, wherever it is put.
pub fn bad_lines()
    ensures inserted { edited four_lines (insertion 1 (codes "x" ∷ codes "a\nb" ∷ [])) ≡ Err BadLine }
    ensures replaced { edited four_lines (replacement 1 4 (codes "\n" ∷ [])) ≡ Err BadLine }
    ensures after_a_bad_range { edited four_lines (insertion 9 (codes "\n" ∷ [])) ≡ Err BadRange }
{}

/// The reason of a refusal is that of the definition. Out of memory is one only if there is no other.
pub fn refusals()
    ensures own_reason { Refuses BadLine (Err BadLine) }
    ensures other_reason { ¬ Refuses BadLine (Err BadRange) }
    ensures no_reason { ¬ Refuses BadLine (Ok four_lines) }
    ensures no_memory { Refuses OutOfMemory (Ok four_lines) }
    ensures no_memory_for_a_reason { ¬ Refuses OutOfMemory (Err TooLarge) }
{}

/// The words for refusals in answers.
pub fn words_for_refusals()
    ensures { map name_of (BadRange ∷ BadLine ∷ TooLarge ∷ OutOfMemory ∷ [])
        ≡ codes "BadRange" ∷ codes "BadLine" ∷ codes "TooLarge" ∷ codes "OutOfMemory" ∷ [] }
{}

/// The numbers that two books differ in, rising: those with a file that is new or has other bytes, and those that
/// have none any more.
pub fn differences()
    ensures new { written_numbers [] ((1, codes "a") ∷ []) ≡ 1 ∷ [] }
    ensures other_bytes { written_numbers ((1, codes "a") ∷ []) ((1, codes "b") ∷ []) ≡ 1 ∷ [] }
    ensures same_bytes { written_numbers ((1, codes "a") ∷ []) ((1, codes "a") ∷ []) ≡ [] }
    ensures lost { removed_numbers ((1, codes "a") ∷ []) [] ≡ 1 ∷ [] }
    ensures none_lost { removed_numbers ((1, codes "a") ∷ []) ((1, codes "b") ∷ []) ≡ [] }
    ensures rising { written_numbers ((2, codes "a") ∷ (5, codes "a") ∷ [])
        ((0, codes "x") ∷ (2, codes "a") ∷ (3, codes "x") ∷ (5, codes "b") ∷ []) ≡ 0 ∷ 3 ∷ 5 ∷ [] }
    ensures lost_rising { removed_numbers ((0, codes "x") ∷ (2, codes "a") ∷ (3, codes "x") ∷ []) ((2, codes "b") ∷ [])
        ≡ 0 ∷ 3 ∷ [] }
{}

/// The file of a number: none if the book has none of that number.
pub fn files_of_numbers()
    ensures first { file_at ((1, codes "a") ∷ (5, codes "b") ∷ []) 1 ≡ Some (codes "a") }
    ensures last { file_at ((1, codes "a") ∷ (5, codes "b") ∷ []) 5 ≡ Some (codes "b") }
    ensures none { file_at ((1, codes "a") ∷ (5, codes "b") ∷ []) 2 ≡ None }
    ensures no_files { file_at [] 0 ≡ None }
{}

/// A line has at most 65,535 bytes, wherever it is put; a bad range comes first.
pub fn long_lines()
    ensures longest { edited [] (insertion 1 (replicate 65535 120 ∷ [])) ≡ Ok (replicate 65535 120 ∷ []) }
    ensures longer { edited four_lines (insertion 1 (replicate 65536 120 ∷ [])) ≡ Err BadLine }
    ensures after_a_bad_range { edited four_lines (insertion 9 (replicate 65536 120 ∷ [])) ≡ Err BadRange }
{}

/// A text has at most 1,048,576 lines: of a text of one line, whatever lines are put before it. What is no line comes
/// first, however many there are.
#[tactic(auto, using(crate::proofs::LargeTexts::large_texts))]
pub fn large_texts()
    ensures most { (lines : Text) → list_all is_line lines ≡ true → length lines ≡ 1048575
        → edited (codes "a" ∷ []) (insertion 1 lines) ≡ Ok (lines ++ codes "a" ∷ []) }
    ensures more { (lines : Text) → list_all is_line lines ≡ true → length lines ≡ 1048576
        → edited (codes "a" ∷ []) (insertion 1 lines) ≡ Err TooLarge }
    ensures bad_line { (lines : Text) → list_all is_line lines ≡ false
        → edited (codes "a" ∷ []) (insertion 1 lines) ≡ Err BadLine }
{}
