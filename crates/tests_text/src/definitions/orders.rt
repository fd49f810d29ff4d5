//! Orders of sections, by the definition of `abc_repeat` (ABC 2.1 section 3.1.9; the sections played are not in ABC
//! 2.1). Each row is an order and the letters of the sections, counted from 1; 0 is the opening section.
#![tactic(auto, unfolding(crate::specs::Opened::sections))]

ghost use Rattle.std.specs.Prelude.{◌≡◌, true, false, [], ◌∷◌, codes, Some, None};
ghost use Rattle.abc_repeat.specs.Order.{sections_of, has_unknown};

/// The sections of an order.
pub fn orders()
    ensures nested { sections_of (Some (codes "((AB)3.(CD)3)2")) (codes "ABCD")
        ≡ 0 ∷ 1 ∷ 2 ∷ 1 ∷ 2 ∷ 1 ∷ 2 ∷ 3 ∷ 4 ∷ 3 ∷ 4 ∷ 3 ∷ 4 ∷ 1 ∷ 2 ∷ 1 ∷ 2 ∷ 1 ∷ 2 ∷ 3 ∷ 4 ∷ 3 ∷ 4 ∷ 3 ∷ 4 ∷ [] }
    ensures first_of_a_letter { sections_of (Some (codes "AB")) (codes "BAA") ≡ 0 ∷ 2 ∷ 1 ∷ [] }
    ensures letter_without_section { sections_of (Some (codes "AZ9(ZA)2")) (codes "A") ≡ 0 ∷ 1 ∷ 1 ∷ 1 ∷ [] }
    ensures no_section { sections_of (Some (codes "A")) [] ≡ 0 ∷ [] }
    ensures no_order { sections_of None (codes "ABA") ≡ 0 ∷ 1 ∷ 2 ∷ 3 ∷ [] }
    ensures nothing { sections_of None [] ≡ 0 ∷ [] }
{}

/// Letters without a section.
pub fn unknown_letters()
    ensures all_known { has_unknown (Some (codes "((AB)3.(CD)3)2")) (codes "ABCD") ≡ false }
    ensures one_unknown { has_unknown (Some (codes "A(B2)3")) (codes "AC") ≡ true }
    ensures no_order { has_unknown None (codes "A") ≡ false }
{}
