//! Copies of a body for the tokens of a cell to change.

ghost use Rattle.std.specs.Prelude.{◌≡◌, ◌↔◌, IfOk, IfSome, IsTrue, OnErr, OnOk};
ghost use Rattle.std.specs.Borrow.{sem};
ghost use Rattle.abc_bars_body.specs.Body.{here, after_mention, with_here};
ghost use Rattle.abc_bars_body.specs.BodyCopy.{IsOwned, is_surely_mentioned, stored_body, with_changed};
ghost use Rattle.abc_bars_body.specs.BodyCopyLent.{LendsOwn};
ghost use Rattle.abc_bars_body.specs.BodyFields.{field_result, field_result_of};
ghost use Rattle.abc_bars_items.specs.Item.{IsItem};
ghost use Rattle.abc_bars_voice.specs.Accidentals.{no_accidentals};
ghost use Rattle.abc_bars_voice.specs.VoiceState.{without_accidentals};
ghost use Rattle.abc_bars_voice.specs.declared.voice_state.VoiceState.{VoiceState as State};
ghost use Rattle.abc_scan.specs.declared.directive.Reach.TheVariants.{Pitch};

use crate::body::{Body, Current};
use crate::body_fields::{FieldItem, has_effect, kind_result};
use crate::entry::Entry;
use abc_bars_header::kind_of;
use abc_bars_voice::{Accidentals, Same, VoiceState};
use abc_scan::{Field, Reach};
use abc_text::Shared;
use std::alloc::{AllocError, Global};
use std::marker::Model;

/// How a copy of a body is stored.
#[derive(Drop)]
pub(crate) enum BodyStorage {
    /// A shared body, and the current voice's state if it changed.
    Borrowed {
        body: Shared<Body>,
        here: Option<VoiceState>,
    },
    Owned(Box<Body>),
}

impl BodyStorage {
    /// Whether the current voice is surely mentioned, by a quick test.
    #[tactic(auto, using(crate::proofs::HereLaws::still_mentioned))]
    fn is_surely_mentioned(&self) -> bool
        ensures exact { result ≡ is_surely_mentioned self.now }
        ensures same { IsTrue result → after_mention (stored_body self.now) ≡ stored_body self.now }
    {
        match self {
            BodyStorage::Borrowed { body, .. } => matches!(body.get().current, Current::At(_)),
            BodyStorage::Owned(_) => false,
        }
    }

    /// Copies what is shared, so that it can be changed.
    fn copy_all(&mut self, alloc: Global) -> Result<(), AllocError>
        ensures same { stored_body self.new ≡ stored_body self.old }
        ensures own { OnOk result (IsOwned self.new) }
    {
        if let BodyStorage::Borrowed { body, here } = self {
            let mut body = body.get().clone()?;
            if let Some(here) = here {
                *body.here_mut() = here.clone()?;
            }
            *self = BodyStorage::Owned(Box::new(alloc, body)?);
        }
        Ok(())
    }

    /// The whole body, to be changed.
    fn body_mut(&mut self) -> &mut Body
        requires { IsOwned self.old }
        ensures* writes_back { sem 𝓛 (LendsOwn self.entry result) }
        ensures value { result.now ≡ stored_body self.old }
    {
        match self {
            BodyStorage::Owned(body) => body,
            BodyStorage::Borrowed { .. } => unreachable!(),
        }
    }
}

/// Whether two states are equal, if the comparison is cheap.
fn is_surely_same(state: &VoiceState, other: &VoiceState) -> bool
    ensures { IsTrue result → state.now ≡ other.now }
{
    state.is_small() && state.same(other)
}

/// The entry of a shared body, in which the current voice has another state, if there is one.
#[tactic(auto, using(crate::proofs::HereLaws::same_here))]
fn changed_entry(
    alloc: Global,
    body: Shared<Body>,
    here: Option<VoiceState>,
) -> Result<Entry, AllocError>
    ensures { IfOk result (λ entry. entry ≡ Entry.Body (with_changed body here)) }
{
    let Some(here) = here else {
        return Ok(Entry::Body(body));
    };
    if is_surely_same(&here, body.get().here()) {
        return Ok(Entry::Body(body));
    }
    let mut body = body.get().clone()?;
    *body.here_mut() = here;
    Entry::in_body(alloc, body)
}

/// A copy of a body, to be changed. Most tokens change nothing, and most others only the state of the current voice: each
/// is copied only when it changes.
#[derive(Drop)]
pub struct BodyCopy {
    storage: BodyStorage,
}

impl Model for BodyCopy {
    ghost use Rattle.abc_bars_body.specs.declared.body.Body.{Body};
    ghost use Rattle.abc_bars_body.specs.BodyCopy.{stored_body};

    ghost Value = { Body };

    ghost view = { λ copy. stored_body copy.storage };
}

impl BodyCopy {
    /// A copy of a body. It returns an error if an allocation fails.
    pub fn of(body: &Shared<Body>) -> Result<BodyCopy, AllocError>
        ensures { IfOk result (λ copy. copy ≡ body.now) }
    {
        let body = body.share()?;
        Ok(BodyCopy {
            storage: BodyStorage::Borrowed { body, here: None },
        })
    }

    /// A copy that owns this body. It returns an error if an allocation fails.
    pub fn own(alloc: Global, body: Body) -> Result<BodyCopy, AllocError>
        ensures { IfOk result (λ copy. copy ≡ body) }
    {
        let body = Box::new(alloc, body)?;
        Ok(BodyCopy {
            storage: BodyStorage::Owned(body),
        })
    }

    /// The state of the current voice.
    #[inline(always)]
    #[tactic(auto, using(crate::proofs::HereLaws::here_written))]
    pub fn here(&self) -> &VoiceState
        ensures { result.now ≡ here self.now }
    {
        match &self.storage {
            BodyStorage::Borrowed { body, here: None } => body.get().here(),
            BodyStorage::Borrowed {
                here: Some(here),
                ..
            } => here,
            BodyStorage::Owned(body) => body.here(),
        }
    }

    /// The state of the current voice, to be changed and then put back.
    #[tactic(auto, using(crate::proofs::HereLaws::here_written, crate::proofs::HereLaws::changed_twice))]
    pub(crate) fn take_here(&mut self) -> Result<VoiceState, AllocError>
        ensures value { IfOk result (λ state. state ≡ here self.old) }
        ensures rest { (state : State) → with_here self.new state ≡ with_here self.old state }
    {
        match &mut self.storage {
            BodyStorage::Borrowed { body, here } => match here.take() {
                Some(here) => Ok(here),
                None => body.get().here().clone(),
            },
            BodyStorage::Owned(body) => body.here().clone(),
        }
    }

    /// Puts back the state of the current voice.
    #[tactic(auto, using(crate::proofs::HereLaws::changed_twice))]
    pub(crate) fn put_here(&mut self, state: VoiceState)
        ensures { self.new ≡ with_here self.old state }
    {
        match &mut self.storage {
            BodyStorage::Borrowed { here, .. } => *here = Some(state),
            BodyStorage::Owned(body) => *body.here_mut() = state,
        }
    }

    /// Whether the current voice has no accidentals, and they have the usual reach.
    #[inline(always)]
    #[tactic(auto, using(crate::proofs::HereLaws::clear_same))]
    fn is_clear(&self, alloc: Global) -> bool
        ensures exact { IsTrue result ↔ ((here self.now).accidentals ≡ no_accidentals Pitch) }
        ensures same { IsTrue result → self.now ≡ with_here self.now (without_accidentals (here self.now)) }
    {
        let none = Accidentals::none(alloc, Reach::Pitch);
        self.here().accidentals.same(&none)
    }

    /// Ends the accidentals of the current voice, at a bar line. Most bars have none.
    #[inline(always)]
    pub(crate) fn end_bar(&mut self, alloc: Global) -> Result<(), AllocError>
        ensures { OnOk result (self.new ≡ with_here self.old (without_accidentals (here self.old))) }
    {
        if self.is_clear(alloc) {
            return Ok(());
        }
        let mut state = self.take_here()?;
        state.clear_accidentals();
        self.put_here(state);
        Ok(())
    }

    /// The first note, chord, rest or bar rest of the voice without a name mentions it.
    #[inline(always)]
    pub(crate) fn mention(&mut self, alloc: Global) -> Result<(), AllocError>
        ensures ok { OnOk result (self.new ≡ after_mention self.old) }
        ensures unchanged { OnErr result (self.new ≡ self.old) }
    {
        if self.storage.is_surely_mentioned() {
            return Ok(());
        }
        self.storage.copy_all(alloc)?;
        self.storage.body_mut().mention(alloc)
    }

    /// Applies a field of the body, at a place of its line. A field without effect copies nothing.
    #[tactic(auto, using(crate::proofs::FieldLaws::no_effect))]
    pub(crate) fn field(
        &mut self,
        alloc: Global,
        field: &Field,
        place: usize,
    ) -> Result<FieldItem, AllocError>
        ensures value { IfOk result (λ given. field_result_of self.new given
            ≡ field_result self.old field.now.letter field.now.value place) }
        ensures range { IfOk result (λ given. IfSome given.item IsItem) }
    {
        let kind = kind_of(field.letter);
        if !has_effect(kind) {
            return Ok(FieldItem::empty());
        }
        self.storage.copy_all(alloc)?;
        kind_result(
            alloc,
            self.storage.body_mut(),
            kind,
            field.value.as_slice(),
            place,
        )
    }

    /// The entry of this body. A body that is surely unchanged is shared. It returns an error if an allocation fails.
    pub fn into_entry(self, alloc: Global) -> Result<Entry, AllocError>
        ensures { IfOk result (λ entry. entry ≡ Entry.Body self) }
    {
        match self.storage {
            BodyStorage::Borrowed { body, here } => changed_entry(alloc, body, here),
            BodyStorage::Owned(body) => Entry::in_body(alloc, Box::into_inner(body)),
        }
    }
}
