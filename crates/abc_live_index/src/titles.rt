//! The titles of tunes after a change.

ghost use Rattle.std.specs.Prelude.{◌≡◌, ◌+◌, ◌-◌, ◌≤◌, ◌++◌, IfOk, drop, length, take};
ghost use Rattle.abc_live_index.specs.TuneChange.{IsChange, new_outputs, old_outputs};
ghost use Rattle.abc_live_index.specs.Outputs.{title_by, titles_of};
ghost use Rattle.abc_live_index.specs.Titles.{TitlesFit, titles_after};

use crate::Output;
use crate::tune_change::TuneChange;
use abc_text::Sequence;
use abc_tune_compiler::Title;
use std::alloc::{AllocError, Global};

/// The titles of tunes that replace others.
#[derive(Drop)]
pub(crate) enum NewTitles {
    /// All titles.
    Whole(Vec<Title>),
    /// New titles, which replace as many old ones from this index on.
    Among(usize, Vec<Title>),
}

/// Returns the number and the title of a tune.
fn title_by(alloc: Global, output: &Output) -> Result<Title, AllocError>
    ensures { IfOk result (λ title. title ≡ title_by output.now) }
{
    Ok(Title {
        number: output.number,
        text: Sequence::from_slice(alloc, output.title.as_slice())?,
    })
}

/// Returns the titles after a change, from one place to another.
fn titles_between(
    alloc: Global,
    change: &TuneChange,
    from: usize,
    to: usize,
) -> Result<Vec<Title>, AllocError>
    requires change { IsChange change.now }
    requires order { from ≤ to }
    requires inside { to ≤ length (new_outputs change.now) }
    ensures { IfOk result (λ titles. titles.items ≡ titles_of (take (to - from) (drop from (new_outputs change.now)))) }
{
    let mut titles = Vec::with_capacity(alloc, to - from)?;
    for place in from..to {
        titles.push(title_by(alloc, change.new_at(place))?)?;
    }
    Ok(titles)
}

impl NewTitles {
    /// Returns the titles after a change: only those of the stretch if the count of tunes is unchanged.
    pub(crate) fn of(alloc: Global, change: &TuneChange) -> Result<NewTitles, AllocError>
        requires { IsChange change.now }
        ensures fit { IfOk result (TitlesFit (titles_of (old_outputs change.now))) }
        ensures after { IfOk result (λ titles. titles_after (titles_of (old_outputs change.now)) titles
            ≡ titles_of (new_outputs change.now)) }
    {
        if change.keeps_count() {
            let titles = titles_between(alloc, change, change.tunes.from, change.tunes.to)?;
            Ok(NewTitles::Among(change.tunes.from, titles))
        } else {
            let titles = titles_between(alloc, change, 0, change.count())?;
            Ok(NewTitles::Whole(titles))
        }
    }

    /// Commits the titles without allocating.
    pub(crate) fn commit(self, titles: &mut Vec<Title>)
        requires { TitlesFit titles.old.items self }
        ensures { titles.new.items ≡ titles_after titles.old.items self }
    {
        match self {
            NewTitles::Whole(whole) => *titles = whole,
            NewTitles::Among(front, some) => replace_titles(titles, front, some),
        }
    }
}

/// Replaces the titles from index `front` on.
fn replace_titles(titles: &mut Vec<Title>, front: usize, some: Vec<Title>)
    requires { front + length some.items ≤ length titles.old.items }
    ensures { titles.new.items ≡ take front titles.old.items ++ (some.items ++ drop (front + length some.items) titles.old.items) }
{
    let mut place = front;
    for title in some {
        titles[place] = title;
        place += 1;
    }
}
