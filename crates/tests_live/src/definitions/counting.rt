//! The bounds of an edit's work. Not in ABC 2.1.
#![tactic(auto, unfolding(abc_fold::specs::Work::raised))]

ghost use Rattle.std.specs.Prelude.{◌≡◌, ◌^◌, ◌-◌, None};
ghost use Rattle.abc_fold.specs.Work.{Counters};
ghost use Rattle.abc_live.specs.Counting.{HasRisen, IsWorkedUpTo, MayCost};

/// A counter may rise by a bound, or by less. It never falls, and stays at the greatest u64 once there.
pub fn bounds_of_a_counter()
    ensures none { HasRisen 2 5 5 }
    ensures all { HasRisen 2 5 7 }
    ensures one_more { ¬ (HasRisen 2 5 8) }
    ensures one_less { ¬ (HasRisen 2 5 4) }
    ensures greatest { HasRisen 2 (2 ^ 64 - 1) (2 ^ 64 - 1) }
{}

/// The lines of a cost bound the scanned lines, its steps the folded steps, and its tunes the built tunes.
pub fn bounds_of_an_edit()
    ensures within { IsWorkedUpTo (record { lines = 1; steps = 2; tunes = 3 }) (record { scanned = 10; folded = 20; built = 30 })
        (record { scanned = 11; folded = 22; built = 33 }) }
    ensures scanned { ¬ (IsWorkedUpTo (record { lines = 1; steps = 2; tunes = 3 })
        (record { scanned = 10; folded = 20; built = 30 }) (record { scanned = 12; folded = 20; built = 30 })) }
    ensures folded { ¬ (IsWorkedUpTo (record { lines = 1; steps = 2; tunes = 3 })
        (record { scanned = 10; folded = 20; built = 30 }) (record { scanned = 10; folded = 23; built = 30 })) }
    ensures built { ¬ (IsWorkedUpTo (record { lines = 1; steps = 2; tunes = 3 })
        (record { scanned = 10; folded = 20; built = 30 }) (record { scanned = 10; folded = 20; built = 34 })) }
    ensures nothing { (before after : Counters) → MayCost None before after → after ≡ before }
{}
