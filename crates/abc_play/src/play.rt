//! The play of a number.

ghost use Rattle.std.specs.Prelude.{◌≡◌, ◌≤◌, Some, false, length, IfErr, IfOk};
ghost use Rattle.abc_bars_body.specs.declared.entry.Entry.{Entry};
ghost use Rattle.abc_lines.specs.declared.limits.TheConstants.{MOST_LINES};
ghost use Rattle.abc_live_cost.specs.OldItems.{IsChainOf};
ghost use Rattle.abc_live_session.specs.Owner.{owner_of};
ghost use Rattle.abc_live_text.specs.KeptText.{AreRows};
ghost use Rattle.abc_repeat.specs.declared.play.TheConstants.{MOST_PLACES};
ghost use Rattle.abc_tune.specs.Abc.{rules_of_abc, steps_of_abc};
ghost use Rattle.abc_voices.specs.Layout.{is_too_long, items_in};
ghost use Rattle.abc_tune_compiler.specs.Book.{book_of};
ghost use Rattle.abc_tune_compiler.specs.Files.{file_at};
ghost use Rattle.abc_play.specs.File.{PlaysFile};
ghost use Rattle.abc_play.specs.Play.{block_play, block_size, opening_in, play_of, play_size, tunes_of};
ghost use Rattle.abc_play.specs.Refusal.{RefusesTune, RefusesPlay};

use crate::cells::{cells_of, items_of_cells};
use crate::entry::{PlayedEntry, placed_tracks};
use crate::place::tune_places;
use crate::play_error::PlayError;
use crate::tune::{tracks_of, tune_of};
use abc_book::Block;
use abc_fold::Chain;
use abc_live_session::LiveSession;
use abc_live_text::KeptText;
use abc_text::Sequence;
use abc_tune::Abc;
use std::alloc::Global;

/// What a tune plays.
#[derive(Drop)]
pub struct Play {
    /// For each track with a voice, in the order of the file, its entries in order of play.
    pub tracks: Sequence<Sequence<PlayedEntry>>,
}

/// Returns the play of the tune of a block.
fn play_of_block(
    alloc: Global,
    text: &KeptText<Abc>,
    block: Block,
    chain: &Chain<Abc>,
) -> Result<Play, PlayError>
    requires rows { AreRows rules_of_abc text.now.lines.text text.now.rows.items }
    requires few { length text.now.lines.text ≤ MOST_LINES }
    requires chain { IsChainOf steps_of_abc rules_of_abc.cells (opening_in text.now.lines.text) text.now.lines.text chain.now block }
    requires short { is_too_long (items_in chain.now.items) ≡ false }
    ensures value { IfOk result (λ play. play.tracks ≡ block_play text.now.lines.text block) }
    ensures few { IfOk result (λ _. block_size text.now.lines.text block ≤ MOST_PLACES) }
    ensures refused { IfErr result (RefusesTune (block_size text.now.lines.text block)) }
{
    let cells = cells_of(alloc, text, block)?;
    let given = items_of_cells(alloc, chain)?;
    let tune = tune_of(alloc, &given)?;
    let places = tune_places(alloc, &cells, &given, tune.len())?;
    let voices = tracks_of(alloc, &tune)?;
    let tracks = placed_tracks(alloc, &places, voices.as_slice())?;
    Ok(Play { tracks })
}

/// Returns the play of a number that the tune at this index owns.
fn play_of_owner(
    alloc: Global,
    text: &KeptText<Abc>,
    number: u32,
    tune: usize,
) -> Result<Play, PlayError>
    requires { owner_of (tunes_of text.now.lines.text) number ≡ Some tune }
    ensures value { IfOk result (λ play. play_of text.now.lines.text number ≡ Some play.tracks) }
    ensures few { IfOk result (λ _. play_size text.now.lines.text number ≤ MOST_PLACES) }
    ensures refused { IfErr result (RefusesPlay text.now.lines.text number) }
{
    // For the prover: the kept parts are those of the text, which has at most `MOST_LINES` lines.
    let _ = text.lines().len();
    let tunes = text.tunes();
    if tune >= tunes.len() {
        return Err(PlayError::NoSuchNumber);
    }
    match text.chain(tune + 1) {
        Some(chain) => play_of_block(alloc, text, tunes[tune], chain.get()),
        None => Err(PlayError::NoSuchNumber),
    }
}

/// Returns the play of the tune that owns a number: what each voice plays, when, and where it is in the present text. It is worked
/// out when it is asked for, from the present text alone. It is what the file of the number plays: the notes of each voice there are
/// the sounds of the entries of its track. It returns `NoSuchNumber` if no tune owns the number, `TooLong` if more than
/// `MOST_PLACES` steps are played, and `OutOfMemory` if an allocation fails.
pub fn play_of_number(
    alloc: Global,
    session: &LiveSession<Abc>,
    number: u32,
) -> Result<Play, PlayError>
    ensures value { IfOk result (λ play. play_of session.now.text number ≡ Some play.tracks) }
    ensures file { IfOk result (λ play. PlaysFile (file_at (book_of steps_of_abc rules_of_abc session.now.text).files number) play.tracks) }
    ensures few { IfOk result (λ _. play_size session.now.text number ≤ MOST_PLACES) }
    ensures refused { IfErr result (RefusesPlay session.now.text number) }
{
    match session.owner(number) {
        Some(tune) => play_of_owner(alloc, session.kept_text(), number, tune),
        None => Err(PlayError::NoSuchNumber),
    }
}
