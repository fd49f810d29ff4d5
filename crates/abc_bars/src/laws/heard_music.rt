//! Laws of the state at the places of a body.

ghost use Rattle.std.specs.Prelude.{◌≡◌, List, [], ◌∷◌};
ghost use Rattle.abc_bars_header.specs.HeaderLine.{HeaderLine};
ghost use Rattle.abc_bars.specs.LookBack.AfterBody.{body_after};
ghost use Rattle.abc_bars.specs.LookBack.Element.{Element};
ghost use Rattle.abc_bars.specs.LookBack.BodyState.{body_at};
ghost use Rattle.abc_bars.specs.LookBack.Place.{AtEachPlace, opening_at};
ghost use Rattle.abc_bars_header.specs.declared.defaults.Defaults.{Defaults};
ghost use Rattle.abc_fields.specs.declared.key.Key.{Key};

/// Looking back finds the state of all voices at a place of a body. At the beginning it is the opening state; each element then
/// changes it as `body_after` says.
#[tactic(auto, using(crate::proofs::LookBack::BodyState::body_at_nil, crate::proofs::LookBack::BodyState::body_at_cons))]
pub fn body_views()
    ensures begins { (opening : Defaults) (fields : List HeaderLine) (key : Key) →
        body_at (opening_at opening fields key) [] ≡ opening_at opening fields key }
    ensures after { AtEachPlace (λ body start before. (element : Element) → body_at start (element ∷ before)
        ≡ body_after body element) }
{}
