//! Laws of velocities. The function has no body: its contract is the law.

ghost use Rattle.abc_bars_items.specs.Velocity.{VelocitiesDiffer};

/// No two dynamics have the same velocity, and none has that of notes without one: the velocity determines the dynamic (ABC 2.1
/// section 4.14).
pub fn velocities_of_dynamics()
    ensures { VelocitiesDiffer }
{}
