//! The time of grace notes.

ghost use Rattle.std.specs.Prelude.{◌≡◌, ◌^◌, ◌<◌};
ghost use Rattle.abc_perform_note.specs.Grace.{IsShareOfHalf, grace_share, taken, taken_time, wanted_time};

use abc_time::Grains;

/// What each grace note of a group takes.
#[derive(Clone, Copy, Debug, PartialEq, Eq, Drop)]
pub enum GraceShare {
    /// What it wants.
    Wanted,
    /// The same as every other one.
    Equal(Grains),
}

impl GraceShare {
    /// Returns what a grace note takes.
    pub fn taken(self, want: Grains) -> Grains
        ensures { result ≡ taken self want }
    {
        match self {
            GraceShare::Wanted => want,
            GraceShare::Equal(share) => share,
        }
    }

    /// Returns how much time grace notes take together.
    pub fn taken_time(self, wants: &[Grains]) -> Grains
        requires { taken_time self wants.now < 2 ^ 64 }
        ensures { result.0 ≡ taken_time self wants.now }
    {
        Grains(wants.iter().map(|want| self.taken(*want).0).sum())
    }
}

/// Returns how much time grace notes want together.
fn wanted_time(wants: &[Grains]) -> u64
    requires { wanted_time wants.now < 2 ^ 64 }
    ensures { result ≡ wanted_time wants.now }
{
    wants.iter().map(|want| want.0).sum()
}

/// Returns what each grace note takes of a note of which half may be taken: what it wants, or if all want more together, an
/// equal share of the half (ABC 2.1 section 4.12). The share is not in ABC 2.1.
pub fn grace_share(wants: &[Grains], half: Grains) -> GraceShare
    requires { wanted_time wants.now < 2 ^ 64 }
    ensures value { result ≡ grace_share wants.now half.0 }
    ensures exact { IsShareOfHalf wants.now half.0 result }
{
    let wanted = wanted_time(wants);
    if wanted <= half.0 {
        GraceShare::Wanted
    } else {
        GraceShare::Equal(Grains(half.0 / wants.len() as u64))
    }
}
