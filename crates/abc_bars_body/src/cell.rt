//! The cells of a tune's body.

ghost use Rattle.std.specs.Prelude.{◌≡◌, ℕ, Bool, option_to_list, IfOk, IfSome, OnOk};
ghost use Rattle.abc_bars_body.specs.Body.{here};
ghost use Rattle.abc_bars_body.specs.Cell.{is_tie_token, tie_ahead, may_be_tied, empty_cell_result, with_item, with_items};
ghost use Rattle.abc_bars_body.specs.Cell.{with_faults, with_fault, with_fault_if, with_some_fault, with_note, with_rest};
ghost use Rattle.abc_bars_body.specs.Cell.{with_chord, with_bar_rest, with_field, with_bar, with_ending, with_tuplet, with_dynamic};
ghost use Rattle.abc_bars_body.specs.Cell.{with_program, with_directive, with_tie, with_kind, with_token, cell_result_from};
ghost use Rattle.abc_bars_body.specs.Cell.{cell_result, with_result_in};
ghost use Rattle.abc_bars_notes.specs.Broken.{factors_of};
ghost use Rattle.abc_bars_items.specs.Item.{IsItem};
ghost use Rattle.abc_bars_items.specs.Program.{program_of};
ghost use Rattle.abc_bars_notes.specs.TimeTokens.{play_chord, play_note};
ghost use Rattle.abc_bars_voice.specs.declared.voice_state.VoiceState.{VoiceState};

use crate::body_copy::BodyCopy;
use crate::body_fields::FieldItem;
use crate::room::room_for;
use abc_bars_items::{Item, ItemsBuilder, LocalFault, column_of, program_of};
use abc_bars_notes::{
    BrokenFactors, NotePlace, Preceding, TokenRole, bar_rest_of, has_note, is_bad_mark, play_chord,
    play_note, play_rest, play_steady_note, preceding_after, token_role,
};
use abc_bars_voice::begin_tuplet;
use abc_fields::FaultCode;
use abc_scan::{
    BarLine, Chord, Directive, Dynamic, Field, Note, Token, TokenKind, Tuplet, WrittenLength,
};
use std::alloc::{AllocError, Global};

/// Whether a token is a tie.
fn is_tie_token(kind: &TokenKind) -> bool
    ensures { result ≡ is_tie_token kind.now }
{
    matches!(token_role(kind), TokenRole::Tie)
}

/// Whether a tie comes first.
fn tie_ahead(ahead: &[Token]) -> bool
    ensures { result ≡ tie_ahead ahead.now }
{
    match ahead {
        [token, ..] => is_tie_token(&token.kind),
        [] => false,
    }
}

/// Whether a tie may be directly after a token.
fn may_be_tied(kind: &TokenKind) -> bool
    ensures { result ≡ may_be_tied kind.now }
{
    matches!(token_role(kind), TokenRole::Sound { .. })
}

/// Factors that give a chord the same result as those of the marks around it. A chord without notes takes no time, so no
/// token ahead is read for it.
#[tactic(auto, using(crate::proofs::SilentChords::silent_same))]
fn chord_factors(preceding: Preceding, chord: &Chord, ahead: &[Token]) -> BrokenFactors
    ensures { (state : VoiceState) (tied : Bool) (from : ℕ) →
        play_chord state result tied from chord.now ≡ play_chord state (factors_of preceding ahead.now) tied from chord.now }
{
    if has_note(chord.parts.as_slice()) {
        BrokenFactors::of(preceding, ahead)
    } else {
        BrokenFactors::of(preceding, &[])
    }
}

/// The state after some tokens of a cell, and their items and faults.
#[derive(Drop)]
pub struct CellResult {
    pub body: BodyCopy,
    pub items: ItemsBuilder,
    /// What precedes, as far as it matters to broken rhythm.
    pub(crate) preceding: Preceding,
    /// Whether a note or chord is directly before.
    pub(crate) after_note: bool,
}

impl CellResult {
    /// Returns the result before the first token of this cell, with room for its items. It returns an error if an allocation
    /// fails.
    pub fn new(alloc: Global, body: BodyCopy, cell: &[Token]) -> Result<CellResult, AllocError>
        ensures { IfOk result (λ given. given ≡ empty_cell_result body) }
    {
        let items = ItemsBuilder::with_capacity(alloc, room_for(cell))?;
        Ok(CellResult {
            body,
            items,
            preceding: Preceding::Nothing,
            after_note: false,
        })
    }

    /// Pushes the item of a token.
    fn push_item(&mut self, item: Item) -> Result<(), AllocError>
        requires { IsItem item }
        ensures { OnOk result (self.new ≡ with_item self.old item) }
    {
        self.items.push_item(item)?;
        Ok(())
    }

    /// Pushes the item of a token, if there is one.
    fn push_item_if_any(&mut self, item: Option<Item>) -> Result<(), AllocError>
        requires { IfSome item IsItem }
        ensures { OnOk result (self.new ≡ with_items self.old (option_to_list item)) }
    {
        if let Some(item) = item {
            self.push_item(item)?;
        }
        Ok(())
    }

    /// Pushes the fault of a token with its column, if there is one.
    fn push_local_fault_if_any(&mut self, fault: Option<LocalFault>) -> Result<(), AllocError>
        ensures { OnOk result (self.new ≡ with_faults self.old (option_to_list fault)) }
    {
        if let Some(fault) = fault {
            self.items.push_fault(fault)?;
        }
        Ok(())
    }

    /// Pushes the fault of a token.
    fn push_fault(&mut self, place: usize, code: FaultCode) -> Result<(), AllocError>
        ensures { OnOk result (self.new ≡ with_fault self.old place code) }
    {
        self.items.push_fault((column_of(place), code))?;
        Ok(())
    }

    /// Pushes the fault of a token if `is_fault`.
    fn push_fault_if(
        &mut self,
        is_fault: bool,
        place: usize,
        code: FaultCode,
    ) -> Result<(), AllocError>
        ensures { OnOk result (self.new ≡ with_fault_if self.old is_fault place code) }
    {
        if is_fault {
            self.push_fault(place, code)?;
        }
        Ok(())
    }

    /// Pushes the fault of a token, if there is one.
    fn push_fault_if_any(
        &mut self,
        place: usize,
        fault: Option<FaultCode>,
    ) -> Result<(), AllocError>
        ensures { OnOk result (self.new ≡ with_some_fault self.old place fault) }
    {
        if let Some(code) = fault {
            self.push_fault(place, code)?;
        }
        Ok(())
    }

    /// Adds a note that may change the state of the current voice.
    #[inline(never)]
    fn add_changing_note(
        &mut self,
        alloc: Global,
        note: &Note,
        place: NotePlace,
        ahead: &[Token],
    ) -> Result<(), AllocError>
        ensures { OnOk result (self.new ≡ with_result_in self.old self.old.body
            (play_note (here self.old.body) (factors_of self.old.preceding ahead.now) place.tied place.from note.now)) }
    {
        let factors = BrokenFactors::of(self.preceding, ahead);
        let mut here = self.body.take_here()?;
        play_note(alloc, &mut here, &mut self.items, *note, &factors, place)?;
        self.body.put_here(here);
        Ok(())
    }

    /// Adds a note, which mentions its voice.
    #[inline(always)]
    #[tactic(auto, using(crate::proofs::HereLaws::same_here))]
    fn add_note(
        &mut self,
        alloc: Global,
        place: usize,
        note: &Note,
        ahead: &[Token],
    ) -> Result<(), AllocError>
        ensures { OnOk result (self.new ≡ with_note self.old place note.now ahead.now) }
    {
        let factors = BrokenFactors::of(self.preceding, ahead);
        let place = NotePlace {
            from: place,
            tied: tie_ahead(ahead),
        };
        self.body.mention(alloc)?;
        if play_steady_note(self.body.here(), &mut self.items, *note, &factors, place)? {
            return Ok(());
        }
        self.add_changing_note(alloc, note, place, ahead)
    }

    /// Adds a rest, which mentions its voice.
    fn add_rest(
        &mut self,
        alloc: Global,
        place: usize,
        written: WrittenLength,
        ahead: &[Token],
    ) -> Result<(), AllocError>
        ensures { OnOk result (self.new ≡ with_rest self.old place written ahead.now) }
    {
        let factors = BrokenFactors::of(self.preceding, ahead);
        self.body.mention(alloc)?;
        let mut here = self.body.take_here()?;
        play_rest(alloc, &mut here, &mut self.items, written, &factors, place)?;
        self.body.put_here(here);
        Ok(())
    }

    /// Adds a chord, which mentions its voice if it has a note.
    fn add_chord(
        &mut self,
        alloc: Global,
        place: usize,
        chord: &Chord,
        ahead: &[Token],
    ) -> Result<(), AllocError>
        ensures { OnOk result (self.new ≡ with_chord self.old place chord.now ahead.now) }
    {
        let factors = chord_factors(self.preceding, chord, ahead);
        let place = NotePlace {
            from: place,
            tied: tie_ahead(ahead),
        };
        if has_note(chord.parts.as_slice()) {
            self.body.mention(alloc)?;
        }
        let mut here = self.body.take_here()?;
        play_chord(alloc, &mut here, &mut self.items, chord, &factors, place)?;
        self.body.put_here(here);
        Ok(())
    }

    /// Adds a rest of bars, which mentions its voice.
    fn add_bar_rest(
        &mut self,
        alloc: Global,
        place: usize,
        bars: Option<u32>,
    ) -> Result<(), AllocError>
        ensures { OnOk result (self.new ≡ with_bar_rest self.old place bars) }
    {
        self.body.mention(alloc)?;
        let (item, fault) = bar_rest_of(self.body.here().meter, bars);
        self.push_item(item)?;
        self.push_fault_if_any(place, fault)?;
        Ok(())
    }

    /// Adds a field line or an inline field.
    fn add_field(&mut self, alloc: Global, place: usize, field: &Field) -> Result<(), AllocError>
        ensures { OnOk result (self.new ≡ with_field self.old place field.now) }
    {
        let FieldItem { item, fault } = self.body.field(alloc, field, place)?;
        self.push_item_if_any(item)?;
        self.push_local_fault_if_any(fault)?;
        Ok(())
    }

    /// Adds a bar line, which ends the accidentals of its voice (ABC 2.1 section 4.2).
    fn add_bar(&mut self, alloc: Global, bar: BarLine) -> Result<(), AllocError>
        ensures { OnOk result (self.new ≡ with_bar self.old bar) }
    {
        self.body.end_bar(alloc)?;
        self.push_item(Item::Bar(bar))?;
        Ok(())
    }

    /// Adds the mark of an ending.
    fn add_ending(&mut self, place: usize, passes: Option<u32>) -> Result<(), AllocError>
        ensures { OnOk result (self.new ≡ with_ending self.old place passes) }
    {
        match passes {
            Some(passes) => self.push_item(Item::Ending(passes))?,
            None => self.push_fault(place, FaultCode::BadEnding)?,
        }
        Ok(())
    }

    /// Adds a tuplet mark.
    fn add_tuplet(&mut self, place: usize, mark: Tuplet) -> Result<(), AllocError>
        ensures { OnOk result (self.new ≡ with_tuplet self.old place mark) }
    {
        let mut here = self.body.take_here()?;
        let (open, fault) = begin_tuplet(here.meter, here.tuplet, mark);
        here.tuplet = open;
        self.body.put_here(here);
        self.push_fault_if_any(place, fault)?;
        Ok(())
    }

    /// Adds a dynamic (ABC 2.1 section 4.14).
    fn add_dynamic(&mut self, dynamic: Dynamic) -> Result<(), AllocError>
        ensures { OnOk result (self.new ≡ with_dynamic self.old dynamic) }
    {
        let mut here = self.body.take_here()?;
        here.dynamic = Some(dynamic);
        self.body.put_here(here);
        Ok(())
    }

    /// Adds a directive of a program, with the number that is written.
    fn add_program(&mut self, place: usize, written: u32) -> Result<(), AllocError>
        ensures { OnOk result (self.new ≡ with_program self.old place (program_of written)) }
    {
        let number = program_of(written);
        self.push_item(Item::Program {
            opening: false,
            number,
        })?;
        self.push_fault_if(number.is_none(), place, FaultCode::BadProgram)
    }

    /// Adds a directive. In a body none changes the reach of accidentals.
    fn add_directive(&mut self, place: usize, directive: Directive) -> Result<(), AllocError>
        ensures { OnOk result (self.new ≡ with_directive self.old place directive) }
    {
        match directive {
            Directive::Program(written) => self.add_program(place, written),
            Directive::Reach(_) => Ok(()),
        }
    }

    /// Adds a tie.
    fn add_tie(&mut self, place: usize) -> Result<(), AllocError>
        ensures { OnOk result (self.new ≡ with_tie self.old place) }
    {
        if !self.after_note {
            self.push_fault(place, FaultCode::LooseTie)?;
        }
        Ok(())
    }

    /// Adds a token of this kind at a place of its line; `ahead` are the tokens after it in its cell.
    #[inline(always)]
    fn add_token_at(
        &mut self,
        alloc: Global,
        place: usize,
        kind: &TokenKind,
        ahead: &[Token],
    ) -> Result<(), AllocError>
        ensures { OnOk result (self.new ≡ with_kind self.old place kind.now ahead.now) }
    {
        match kind {
            TokenKind::Note(note) => self.add_note(alloc, place, note, ahead),
            TokenKind::Rest(written) => self.add_rest(alloc, place, *written, ahead),
            TokenKind::BarRest(bars) => self.add_bar_rest(alloc, place, *bars),
            TokenKind::Chord(chord) => self.add_chord(alloc, place, chord.get(), ahead),
            TokenKind::InlineField(field) | TokenKind::Field(field) => {
                self.add_field(alloc, place, field.get())
            }
            TokenKind::Bar(bar) => self.add_bar(alloc, *bar),
            TokenKind::Ending(passes) => self.add_ending(place, *passes),
            TokenKind::Tuplet(mark) => self.add_tuplet(place, *mark),
            TokenKind::Broken(_) => {
                self.push_fault_if(
                    is_bad_mark(self.preceding, ahead),
                    place,
                    FaultCode::BadBroken,
                )
            }
            TokenKind::Tie => self.add_tie(place),
            TokenKind::Blank | TokenKind::NoEffect => Ok(()),
            TokenKind::Dynamic(dynamic) => self.add_dynamic(*dynamic),
            TokenKind::Directive(directive) => self.add_directive(place, *directive),
            TokenKind::Unclosed => self.push_fault(place, FaultCode::Unclosed),
            TokenKind::BadByte => self.push_fault(place, FaultCode::BadByte),
        }
    }

    /// Adds a token; `ahead` are those after it in its cell. Most tokens are notes, so they are tried first. It returns an
    /// error if an allocation fails.
    #[inline(always)]
    pub fn add_token(
        &mut self,
        alloc: Global,
        token: &Token,
        ahead: &[Token],
    ) -> Result<(), AllocError>
        ensures { OnOk result (self.new ≡ with_token self.old token.now ahead.now) }
    {
        let place = token.from as usize;
        if let TokenKind::Note(note) = &token.kind {
            self.add_note(alloc, place, note, ahead)?;
            self.preceding = Preceding::TimeToken;
            self.after_note = true;
            return Ok(());
        }
        let preceding = preceding_after(self.preceding, &token.kind);
        self.add_token_at(alloc, place, &token.kind, ahead)?;
        self.preceding = preceding;
        self.after_note = may_be_tied(&token.kind);
        Ok(())
    }

    /// Adds the tokens of the cell.
    #[inline(always)]
    fn add_tokens(&mut self, alloc: Global, cell: &[Token]) -> Result<(), AllocError>
        ensures { OnOk result (self.new ≡ cell_result_from self.old cell.now) }
    {
        let mut left = cell;
        while let [token, ahead @ ..] = left {
            self.add_token(alloc, token, ahead)?;
            left = ahead;
        }
        Ok(())
    }
}

/// Reads a cell in a body: the state after it, its items and its faults. It returns an error if an allocation fails.
pub fn cell_result(alloc: Global, body: BodyCopy, cell: &[Token]) -> Result<CellResult, AllocError>
    ensures { IfOk result (λ given. given ≡ cell_result body cell.now) }
{
    let mut result = CellResult::new(alloc, body, cell)?;
    result.add_tokens(alloc, cell)?;
    Ok(result)
}
