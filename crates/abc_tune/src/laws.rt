//! Laws of tunes in ABC. Each function has no body: its contract is the law.

ghost use Rattle.std.specs.Prelude.{◌≡◌};
ghost use Rattle.abc_bars.specs.declared.bar_fold.BarFold.{BarFold};
ghost use Rattle.abc_tune.specs.HeaderText.{MissesKeyByText, NumberByText, TempoRangeByText};
ghost use Rattle.abc_tune.specs.Lines.{HasFewVoices, HasShortTitle, IsTooLongBySize};
ghost use Rattle.abc_tune.specs.Title.{HasOneTitle};
ghost use Rattle.abc_tune.specs.declared.abc.Abc.{Abc};

use crate::abc::Abc;
use abc_bars::BarFold;
use abc_fold::Fold;

/// The compiler's fold is the fold over bars. What it gives for the cells of a file header and of a tune is what looking
/// back gives at the place of each (the laws of `abc_bars`).
pub fn tunes_looked_back()
    ensures { (abc : Abc) (bars : BarFold) → ⟦<Abc as Fold>⟧.steps abc ≡ ⟦<BarFold as Fold>⟧.steps bars }
{}

/// The title in the file of a tune is also its title in the list of titles: the first that a cell gives (ABC 2.1 section
/// 3.1.2).
#[tactic(auto, using(crate::proofs::OneTitle::has_one_title))]
pub fn one_title()
    ensures { HasOneTitle }
{}

/// A tune has the fault MissingKey exactly if no K: is before all music. It has the fault TempoRange exactly if no tempo event
/// can hold its first tempo: that of the last Q: of its header that sets one, else of the file header. Its number in the book
/// is that of its X: (ABC 2.1 sections 3.1.1, 3.1.8 and 3.1.14).
pub fn tunes_by_headers()
    ensures missing_key { MissesKeyByText }
    ensures tempo_range { TempoRangeByText }
    ensures number { NumberByText }
{}

/// A tune of lines has at most fifteen voices with a track and a title that fits a line. So it is too long exactly if too
/// many of its sections or places are played or it ends too late, and never for its voices or its title.
#[tactic(auto, using(crate::proofs::Mentions::few_voices, crate::proofs::Titles::short_title, crate::proofs::Titles::by_size))]
pub fn tunes_of_lines()
    ensures voices { HasFewVoices }
    ensures title { HasShortTitle }
    ensures long { IsTooLongBySize }
{}
