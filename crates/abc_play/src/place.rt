//! Where the items of a tune are in its text.

ghost use Rattle.std.specs.Prelude.{◌≡◌, [], ◌∷◌, ◌++◌, map, filter_map, slice_get, IfOk, OnOk};
ghost use Rattle.abc_play.specs.Places.{cell_places, chord_places, given_places, giver_places, part_place, part_place_at, place_at, placed_cell};
ghost use Rattle.abc_play.specs.Places.{token_place, token_places, tune_places};

use crate::cells::LineCell;
use abc_bars_items::{Item, Items, column_inside, column_of};
use abc_play_places::{givers_of, tone_parts_of};
use abc_scan::{ChordPart, Token, TokenKind};
use abc_text::ShortSequence;
use std::alloc::{AllocError, Global};

/// The bytes of a token, or of a part of a chord. Lines and columns count from 1; `to` is the column after the last byte.
#[derive(Clone, Copy, Debug, Default, PartialEq, Eq)]
pub struct Place {
    pub line: u32,
    pub from: u32,
    pub to: u32,
}

/// Returns the place of a token.
fn token_place(line: u32, token: &Token) -> Place
    ensures { result ≡ token_place line token.now }
{
    Place {
        line,
        from: column_of(token.from as usize),
        to: column_of(token.to as usize),
    }
}

/// Returns the place of a part of the chord that begins at a byte of the line.
fn part_place(line: u32, at: u32, part: &ChordPart) -> Place
    ensures { result ≡ part_place line at part.now }
{
    Place {
        line,
        from: column_inside(at as usize, part.from as usize),
        to: column_inside(at as usize, part.to as usize),
    }
}

/// Appends the place of the part of a chord at an index, if there is one.
fn put_part(
    places: &mut ShortSequence<Place>,
    line: u32,
    at: u32,
    parts: &[ChordPart],
    index: usize,
) -> Result<(), AllocError>
    ensures { OnOk result (places.new ≡ places.old ++ filter_map (part_place_at line at parts.now) (index ∷ [])) }
{
    match parts.get(index) {
        Some(part) => {
            places.push(part_place(line, at, part))?;
            Ok(())
        }
        None => Ok(()),
    }
}

/// Returns the places of some parts of a chord.
fn part_places(
    alloc: Global,
    line: u32,
    at: u32,
    parts: &[ChordPart],
    found: &[usize],
) -> Result<ShortSequence<Place>, AllocError>
    ensures { IfOk result (λ places. places ≡ filter_map (part_place_at line at parts.now) found.now) }
{
    let mut places = ShortSequence::new(alloc);
    for index in found {
        put_part(&mut places, line, at, parts, *index)?;
    }
    Ok(places)
}

/// Returns the places of the tones of a chord.
fn chord_places(
    alloc: Global,
    line: u32,
    at: u32,
    parts: &[ChordPart],
) -> Result<ShortSequence<Place>, AllocError>
    ensures { IfOk result (λ places. places ≡ chord_places line at parts.now) }
{
    let found = tone_parts_of(alloc, parts)?;
    part_places(alloc, line, at, parts, &found)
}

/// Returns the places of what a token gives.
fn token_places(alloc: Global, line: u32, token: &Token) -> Result<ShortSequence<Place>, AllocError>
    ensures { IfOk result (λ places. places ≡ token_places line token.now) }
{
    match &token.kind {
        TokenKind::Chord(chord) => {
            chord_places(alloc, line, token.from, chord.get().parts.as_slice())
        }
        _ => {
            let mut places = ShortSequence::new(alloc);
            places.push(token_place(line, token))?;
            Ok(places)
        }
    }
}

/// Returns the places of what the token at an index gives, if there is one.
fn giver_places(
    alloc: Global,
    line: u32,
    cell: &[Token],
    giver: Option<usize>,
) -> Result<ShortSequence<Place>, AllocError>
    ensures { IfOk result (λ places. places ≡ giver_places line cell.now giver) }
{
    match giver {
        Some(giver) => match cell.get(giver) {
            Some(token) => token_places(alloc, line, token),
            None => Ok(ShortSequence::new(alloc)),
        },
        None => Ok(ShortSequence::new(alloc)),
    }
}

/// Appends the places of items by the tokens that give them.
fn put_givers(
    alloc: Global,
    places: &mut Vec<ShortSequence<Place>>,
    line: u32,
    cell: &[Token],
    givers: &[Option<usize>],
) -> Result<(), AllocError>
    ensures { OnOk result (places.new.items ≡ places.old.items ++ map (giver_places line cell.now) givers.now) }
{
    for giver in givers {
        let own = giver_places(alloc, line, cell, *giver)?;
        places.push(own)?;
    }
    Ok(())
}

/// Appends the places of the items of a cell.
fn put_cell(
    alloc: Global,
    places: &mut Vec<ShortSequence<Place>>,
    line: u32,
    cell: &[Token],
    items: &[Item],
) -> Result<(), AllocError>
    ensures { OnOk result (places.new.items ≡ places.old.items ++ cell_places line cell.now items.now) }
{
    let givers = givers_of(alloc, cell, items)?;
    put_givers(alloc, places, line, cell, &givers)
}

/// Appends the places of the items that a cell gives, if it gives some.
fn put_given(
    alloc: Global,
    places: &mut Vec<ShortSequence<Place>>,
    one: &LineCell,
    given: &[&Items],
    at: usize,
) -> Result<(), AllocError>
    ensures { OnOk result (places.new.items ≡ places.old.items ++ given_places (placed_cell one.now) (slice_get given.now at)) }
{
    match given.get(at) {
        Some(items) => put_cell(alloc, places, one.line, one.cell.tokens(), items.items()),
        None => Ok(()),
    }
}

/// Returns the places of the items of a tune, from its cells and what they give. It has room for `size` items at first.
pub(crate) fn tune_places(
    alloc: Global,
    cells: &[LineCell],
    given: &[&Items],
    size: usize,
) -> Result<Vec<ShortSequence<Place>>, AllocError>
    ensures { IfOk result (λ places. places.items ≡ tune_places (map placed_cell cells.now) (map (λ one. one.now) given.now)) }
{
    let mut places = Vec::with_capacity(alloc, size)?;
    for at in 0..cells.len() {
        put_given(alloc, &mut places, &cells[at], given, at)?;
    }
    Ok(places)
}

/// Returns the place of a tone of an item.
pub(crate) fn place_at(places: &[ShortSequence<Place>], item: usize, tone: usize) -> Place
    ensures { result ≡ place_at places.now item tone }
{
    match places.get(item) {
        Some(own) => match own.as_slice().get(tone) {
            Some(place) => *place,
            None => NO_PLACE,
        },
        None => NO_PLACE,
    }
}

/// The place of what is nowhere in the text.
const NO_PLACE: Place = Place {
    line: 0,
    from: 0,
    to: 0,
};
