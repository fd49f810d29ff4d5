//! What holds of every publisher. Each function has no body: its contract is the law.

ghost use Rattle.abc_publish.specs.Laws.{CurrentIsSettled, JobOnce, SettledIsCurrent};

/// All is settled exactly if no number is pending and no job is under way.
pub fn settled_is_current()
    ensures current { SettledIsCurrent }
    ensures settled { CurrentIsSettled }
{}

/// While a job for a number is under way there is no second one for it.
pub fn job_once()
    ensures { JobOnce }
{}
