//! The law of the fold along the cells of a file header and of a tune.

ghost use Rattle.std.specs.Prelude.{◌≡◌, ◌↔◌, IsTrue, List, Option};
ghost use Rattle.abc_bars_header.specs.Defaults.{no_defaults};
ghost use Rattle.abc_bars.specs.LookBack.Along.{CellTokens, IsLookBack, file_header_beginning, results_along, place_after};
ghost use Rattle.abc_bars.specs.LookBack.Along.{tune_beginning, tune_state, values_of_header};
ghost use Rattle.abc_bars.specs.LookBack.Place.{Place, view};
ghost use Rattle.abc_bars.specs.LookBack.TunePlaces.{IsOfTune};
ghost use Rattle.abc_bars.specs.declared.bar_fold.BarFold.{BarFold};
ghost use Rattle.abc_bars_body.specs.declared.entry.Entry.{Entry};
ghost use Rattle.abc_bars_body.specs.declared.entry.Entry.TheVariants as entries;

use crate::bar_fold::BarFold;
use abc_fold::Fold;

/// The fold is the look back. Along the cells of a file header, of a tune, or after any place, the state before each cell is the
/// view of its place. The cell gives the items and faults of the look back there. A tune begins with the values of the file
/// header, if any.
pub fn views_along()
    ensures file_header { (fold : BarFold) → IsLookBack (⟦<BarFold as Fold>⟧.steps fold) (entries.FileHeader no_defaults)
        file_header_beginning }
    ensures tune { (fold : BarFold) (header : Option (List CellTokens)) → let steps = ⟦<BarFold as Fold>⟧.steps fold in
        IsLookBack steps (tune_state steps header) (tune_beginning header) }
    ensures place { (fold : BarFold) (place : Place) → IsLookBack (⟦<BarFold as Fold>⟧.steps fold) (view place) place }
{}

/// Only the view at a place decides what the cells after it give. If two places of two texts have the same view and the same
/// cells follow, these give the same items and faults, and the views after them are the same.
#[tactic(auto, using(crate::proofs::LookBack::Along::same_given, crate::proofs::LookBack::Along::same_after))]
pub fn views_decide()
    ensures items { (here there : Place) (cells : List CellTokens) → view here ≡ view there →
        results_along here cells ≡ results_along there cells }
    ensures after { (here there : Place) (cells : List CellTokens) → view here ≡ view there →
        view (place_after here cells) ≡ view (place_after there cells) }
{}

/// The fold compares exactly: two places are alike exactly if the states there are equal, with the voices in the order of their
/// first mention.
#[tactic(auto, using(crate::proofs::EntryLaws::alike_where_equal))]
pub fn alike_views()
    ensures { (fold : BarFold) (here there : Entry) → IsTrue ((⟦<BarFold as Fold>⟧.steps fold).alike here there) ↔ (here ≡ there) }
{}

/// A place of a tune has the file header's values. While the tune is in its header, no K: is before the place. In the body the key
/// is that of the header's K:, or an empty signature if music ended the header.
#[tactic(auto, using(crate::proofs::LookBack::TunePlaces::places_kept))]
pub fn tune_places()
    ensures { (header : Option (List CellTokens)) (cells : List CellTokens) →
        IsOfTune (values_of_header header) (place_after (tune_beginning header) cells) }
{}
