//! Laws of the accompaniment. The function has no body: its contract is the law.

ghost use Rattle.abc_perform_harmony.specs.KeepStep.{AccompanimentTakesTime};

/// Both voices of the accompaniment take the time of the steps of a stretch, whatever its marks are.
pub fn accompaniment_takes_time()
    ensures { AccompanimentTakesTime }
{}
