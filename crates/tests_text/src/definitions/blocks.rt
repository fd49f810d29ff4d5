//! The blocks of a text by the classes of its lines, by the definition of `abc_book`.
#![tactic(auto, unfolding(abc_book::specs::Block::blocks_of))]

ghost use Rattle.std.specs.Prelude.{◌≡◌, [], ◌∷◌};
ghost use Rattle.abc_scan.specs.declared.line_class.LineClass.TheVariants.{Blank, Comment, Directive, Music};
ghost use Rattle.abc_book.specs.Block.{blocks_of};
ghost use Rattle.tests_text.specs.Blocks.{continued, free, header, key, reference, tune};

/// The block before the first tune. ABC 2.1 section 2.2.2; the choice by its first line is not in ABC 2.1.
pub fn file_headers()
    ensures nothing { blocks_of [] ≡ [] }
    ensures comments_alone { blocks_of (Comment ∷ Blank ∷ Comment ∷ []) ≡ [] }
    ensures fields { blocks_of (key ∷ key ∷ Blank ∷ reference ∷ []) ≡ header 0 2 ∷ tune 3 4 ∷ [] }
    ensures any_letter { blocks_of (continued ∷ []) ≡ header 0 1 ∷ [] }
    ensures no_blank_line { blocks_of (key ∷ Music ∷ reference ∷ key ∷ []) ≡ header 0 2 ∷ tune 2 4 ∷ [] }
    ensures after_comments { blocks_of (Blank ∷ Comment ∷ key ∷ Comment ∷ Blank ∷ key ∷ []) ≡ header 2 3 ∷ free 5 6 ∷ [] }
    ensures directive { blocks_of (Directive ∷ Comment ∷ Blank ∷ reference ∷ []) ≡ header 0 1 ∷ tune 3 4 ∷ [] }
    ensures after_a_directive { blocks_of (Directive ∷ Blank ∷ key ∷ []) ≡ header 0 1 ∷ free 2 3 ∷ [] }
    ensures music_first { blocks_of (Music ∷ key ∷ []) ≡ free 0 2 ∷ [] }
    ensures tune_first { blocks_of (reference ∷ Blank ∷ key ∷ []) ≡ tune 0 1 ∷ free 2 3 ∷ [] }
{}

/// Tunes begin at each `X:` line and end at a blank line, the next `X:` line or the end. ABC 2.1 section 2.2.1.
pub fn tunes()
    ensures side_by_side { blocks_of (reference ∷ key ∷ Music ∷ reference ∷ Music ∷ []) ≡ tune 0 3 ∷ tune 3 5 ∷ [] }
    ensures apart { blocks_of (Music ∷ reference ∷ Blank ∷ Blank ∷ reference ∷ []) ≡ free 0 1 ∷ tune 1 2 ∷ tune 4 5 ∷ [] }
    ensures directives { blocks_of (reference ∷ Directive ∷ Blank ∷ Directive ∷ []) ≡ tune 0 2 ∷ free 3 4 ∷ [] }
    ensures no_letter { blocks_of (reference ∷ reference ∷ []) ≡ tune 0 1 ∷ tune 1 2 ∷ [] }
{}

/// A comment in a tune, a blank line instead, and neither. ABC 2.1 section 2.2.
pub fn comments_and_blank_lines()
    ensures comment { blocks_of (reference ∷ key ∷ Music ∷ Comment ∷ Music ∷ []) ≡ tune 0 5 ∷ [] }
    ensures blank { blocks_of (reference ∷ key ∷ Music ∷ Blank ∷ Music ∷ []) ≡ tune 0 3 ∷ free 4 5 ∷ [] }
    ensures neither { blocks_of (reference ∷ key ∷ Music ∷ Music ∷ []) ≡ tune 0 4 ∷ [] }
    ensures at_the_ends { blocks_of (reference ∷ Comment ∷ Music ∷ Comment ∷ Blank ∷ Comment ∷ Music ∷ []) ≡ tune 0 3 ∷ free 6 7
        ∷ [] }
{}
