//! Grace notes as items.

ghost use Rattle.std.specs.Prelude.{◌≡◌, ◌*◌, ◌≤◌, ◌++◌, IfOk, OnOk, map};
ghost use Rattle.abc_perform_item.specs.Graces.{AreGraces, IsGrace};
ghost use Rattle.abc_perform_item.specs.GraceItems.{IsShareOfANote, IsShareWithin, grace_item, grace_time, wants_of};
ghost use Rattle.abc_perform_item.specs.Performance.{IsPerformed};

use crate::graces::Grace;
use crate::performance::Performance;
use crate::performed::Performed;
use crate::tone_change::moved_key;
use abc_bars_items::{Item, Tone, Tones};
use abc_perform_note::{GraceShare, grace_share};
use abc_time::Grains;
use std::alloc::{AllocError, Global};

/// What the grace notes before a note, chord or rest take of its time.
#[derive(Clone, Copy)]
pub struct GraceTime {
    /// What each one takes.
    pub share: GraceShare,
    /// What all take.
    pub taken: Grains,
}

/// Returns what each grace note wants.
fn wants_of(alloc: Global, graces: &[Grace]) -> Result<Vec<Grains>, AllocError>
    ensures { IfOk result (λ wants. wants.items ≡ wants_of graces.now) }
{
    graces.iter().map(|grace| grace.note.wanted).collect(alloc)
}

/// Returns what grace notes take of a note of this length: at most half of it.
#[tactic(auto, using(crate::proofs::GraceTimes::wants_fit))]
pub(crate) fn grace_time(
    alloc: Global,
    graces: &[Grace],
    length: Grains,
) -> Result<GraceTime, AllocError>
    requires graces { AreGraces graces.now }
    ensures value { IfOk result (λ time. time ≡ grace_time graces.now length) }
    ensures half { IfOk result (λ time. 2 * time.taken.0 ≤ length.0) }
    ensures shares { IfOk result (λ time. IsShareWithin length time.share) }
{
    let wants = wants_of(alloc, graces)?;
    let share = grace_share(&wants, Grains(length.0 / 2));
    let taken = share.taken_time(&wants);
    Ok(GraceTime { share, taken })
}

/// Returns a grace note as an item.
fn grace_item(transpose: i8, share: GraceShare, grace: Grace) -> Performed
    requires grace { IsGrace grace }
    requires share { IsShareOfANote share }
    ensures value { result ≡ grace_item transpose share grace }
    ensures range { IsPerformed result }
{
    let taken = share.taken(grace.note.wanted);
    Performed {
        item: Item::Tone {
            tones: Tones::one(Tone {
                length: taken,
                key: moved_key(transpose, grace.note.key),
                velocity: grace.velocity,
                tied: false,
            }),
            length: taken,
        },
        source: grace.source,
    }
}

/// Appends grace notes.
pub(crate) fn put_graces(
    performance: &mut Performance,
    transpose: i8,
    share: GraceShare,
    graces: &[Grace],
) -> Result<(), AllocError>
    requires graces { AreGraces graces.now }
    requires share { IsShareOfANote share }
    ensures { OnOk result (performance.new ≡ performance.old ++ map (grace_item transpose share) graces.now) }
{
    for grace in graces {
        performance.push(grace_item(transpose, share, *grace))?;
    }
    Ok(())
}
