//! Laws of patterns. The function has no body: its contract is the law.

ghost use Rattle.abc_perform_patterns.specs.KeepStep.{DefaultPatternsFit, StepsFillStretch};

/// In every stretch the accompaniment is as long as what it accompanies, in a pickup too. The pattern of a meter fits the
/// arithmetic of its steps.
pub fn accompaniment_keeps_step()
    ensures step { StepsFillStretch }
    ensures defaults { DefaultPatternsFit }
{}
