//! Plays of sections, by the definition of `abc_repeat` (ABC 2.1 sections 4.8 to 4.10; the places of strains are not in
//! ABC 2.1). Each row is a list of marks, counted from 0, and the places of its notes as they are played.
#![tactic(auto, unfolding(crate::specs::Opened::plays))]

ghost use Rattle.std.specs.Prelude.{◌≡◌, [], ◌∷◌};
ghost use Rattle.abc_repeat.specs.Play.{play_of};
ghost use Rattle.tests_text.specs.Repeats.{note, single, double, opening, closing, between};
ghost use Rattle.tests_text.specs.Repeats.{ending, ending_for, no_pass};

/// Repeat bars and double bars.
pub fn repeats()
    ensures nothing { play_of [] ≡ [] }
    ensures no_repeat { play_of (note ∷ single ∷ note ∷ []) ≡ 0 ∷ 2 ∷ [] }
    ensures from_the_beginning { play_of (note ∷ closing 1 ∷ []) ≡ 0 ∷ 0 ∷ [] }
    ensures both_sides { play_of (note ∷ between 1 ∷ note ∷ closing 1 ∷ []) ≡ 0 ∷ 0 ∷ 2 ∷ 2 ∷ [] }
    ensures three_times { play_of (opening 2 ∷ note ∷ closing 2 ∷ []) ≡ 1 ∷ 1 ∷ 1 ∷ [] }
    ensures colons_of_the_bar_before { play_of (note ∷ between 2 ∷ note ∷ closing 1 ∷ []) ≡ 0 ∷ 0 ∷ 0 ∷ 2 ∷ 2 ∷ [] }
    ensures double_bar_not_opened { play_of (note ∷ double ∷ note ∷ closing 1 ∷ note ∷ []) ≡ 0 ∷ 2 ∷ 2 ∷ 4 ∷ [] }
    ensures double_bar_opened { play_of (opening 1 ∷ note ∷ double ∷ note ∷ closing 1 ∷ note ∷ []) ≡ 1 ∷ 3 ∷ 1 ∷ 3 ∷ 5 ∷ [] }
    ensures over_nothing { play_of (closing 65535 ∷ note ∷ []) ≡ 1 ∷ [] }
{}

/// First, second and later endings.
pub fn endings()
    ensures three { play_of (opening 1 ∷ note ∷ single ∷ ending 1 ∷ note ∷ closing 1 ∷ ending 2 ∷ note ∷ closing 1 ∷ ending 3 ∷ note
        ∷ double ∷ [])
        ≡ 1 ∷ 4 ∷ 1 ∷ 7 ∷ 1 ∷ 10 ∷ [] }
    ensures first_and_third { play_of (opening 1 ∷ note ∷ ending_for 1 3 ∷ note ∷ closing 1 ∷ ending 2 ∷ note ∷ double ∷ [])
        ≡ 1 ∷ 3 ∷ 1 ∷ 6 ∷ 1 ∷ 3 ∷ [] }
    ensures taken_before { play_of (opening 1 ∷ note ∷ single ∷ ending_for 1 2 ∷ note ∷ closing 1 ∷ ending 2 ∷ note ∷ closing 1
        ∷ ending 3 ∷ note ∷ double ∷ [])
        ≡ 1 ∷ 4 ∷ 1 ∷ 4 ∷ 1 ∷ 10 ∷ [] }
    ensures after_a_double_bar { play_of (note ∷ double ∷ ending 1 ∷ note ∷ closing 1 ∷ ending 2 ∷ note ∷ double ∷ note ∷ [])
        ≡ 0 ∷ 3 ∷ 6 ∷ 8 ∷ [] }
    ensures after_a_double_bar_opened { play_of
        (opening 1 ∷ note ∷ double ∷ ending 1 ∷ note ∷ closing 1 ∷ ending 2 ∷ note ∷ double ∷ note ∷ [])
        ≡ 1 ∷ 4 ∷ 1 ∷ 7 ∷ 9 ∷ [] }
    ensures after_the_common_parts_own_bar { play_of
        (note ∷ closing 1 ∷ ending 1 ∷ note ∷ closing 1 ∷ ending 2 ∷ note ∷ double ∷ note ∷ [])
        ≡ 0 ∷ 0 ∷ 3 ∷ 6 ∷ 8 ∷ [] }
    ensures at_the_beginning { play_of (ending 1 ∷ note ∷ closing 1 ∷ ending 2 ∷ note ∷ double ∷ note ∷ []) ≡ 1 ∷ 4 ∷ 6 ∷ [] }
    ensures after_a_bar_that_opens { play_of (opening 1 ∷ note ∷ single ∷ ending 1 ∷ note ∷ between 1 ∷ ending 2 ∷ note ∷ double
        ∷ note ∷ closing 1 ∷ [])
        ≡ 1 ∷ 4 ∷ 1 ∷ 7 ∷ 9 ∷ 9 ∷ [] }
    ensures no_ending_for_the_third_pass { play_of
        (opening 1 ∷ note ∷ single ∷ ending 1 ∷ note ∷ closing 2 ∷ ending 2 ∷ note ∷ double ∷ note ∷ [])
        ≡ 1 ∷ 4 ∷ 1 ∷ 7 ∷ 1 ∷ 9 ∷ [] }
    ensures for_no_pass { play_of (note ∷ single ∷ no_pass ∷ note ∷ closing 1 ∷ []) ≡ 0 ∷ 0 ∷ [] }
    ensures single_bars_between { play_of (opening 1 ∷ note ∷ single ∷ ending 1 ∷ note ∷ closing 1 ∷ single ∷ ending 2 ∷ note
        ∷ double ∷ [])
        ≡ 1 ∷ 4 ∷ 1 ∷ 8 ∷ [] }
{}
