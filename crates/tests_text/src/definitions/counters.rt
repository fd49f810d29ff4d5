//! Counters of work, by the definitions of `abc_fold`. Not in ABC 2.1.
#![tactic(auto, unfolding(abc_fold::specs::Work::raised))]

ghost use Rattle.std.specs.Prelude.{◌≡◌, ◌-◌, ◌^◌};
ghost use Rattle.abc_fold.specs.Work.{raised};

/// A counter stays at the greatest `u64` once it is there.
pub fn raised_counters()
    ensures from_zero { raised 0 1 ≡ 1 }
    ensures by_more { raised 7 5 ≡ 12 }
    ensures by_nothing { raised 7 0 ≡ 7 }
    ensures to_the_greatest { raised (2 ^ 64 - 2) 1 ≡ 2 ^ 64 - 1 }
    ensures past_the_greatest { raised (2 ^ 64 - 2) 5 ≡ 2 ^ 64 - 1 }
    ensures at_the_greatest { raised (2 ^ 64 - 1) 1 ≡ 2 ^ 64 - 1 }
{}
