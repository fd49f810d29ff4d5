//! The state at a place of a tune's body.

ghost use Rattle.std.specs.Prelude.{◌≡◌, [], ◌∷◌, false, if◌then◌else◌, None, Some, IfOk, OnErr, OnOk};
ghost use Rattle.std.specs.Borrow.{sem};
ghost use Rattle.abc_bars_body.specs.Body.{IsUnnamed, here, after_join, after_move, after_mention, with_current, after_part};
ghost use Rattle.abc_bars_body.specs.Body.{all_without_accidentals};
ghost use Rattle.abc_bars_body.specs.declared.body.Current.TheVariants as Current;
ghost use Rattle.abc_bars_header.specs.Voices.{place_of};
ghost use Rattle.abc_bars_body.specs.BodyLent.{LendsHere, LendsUnnamed};

use abc_bars_header::{VoiceName, Voices};
use abc_bars_items::MOST_VOICES;
use abc_bars_voice::VoiceState;
use abc_fields::Shift;
use std::alloc::{AllocError, Global};

/// The current voice.
#[derive(Drop)]
pub(crate) enum Current {
    /// The voice without a name, before it is mentioned. While it is the current one, no other voice is mentioned.
    Unnamed(VoiceState),
    /// The voice at an index.
    At(usize),
}

impl Current {
    /// The state of the voice without a name while it is not mentioned, to be changed.
    fn unnamed_mut(&mut self) -> &mut VoiceState
        requires { IsUnnamed self.old }
        ensures* writes_back { sem 𝓛 (LendsUnnamed self.entry result) }
        ensures value { self.old ≡ Current.Unnamed result.now }
    {
        match self {
            Current::Unnamed(state) => state,
            Current::At(_) => unreachable!(),
        }
    }
}

impl Clone for Current {
    ghost is_clone = { λ current copy. copy ≡ current };

    fn clone(&self) -> Result<Current, AllocError> {
        match self {
            Current::Unnamed(state) => {
                let state = state.clone()?;
                Ok(Current::Unnamed(state))
            }
            Current::At(at) => Ok(Current::At(*at)),
        }
    }
}

/// The voice without a name, with this state, and no other.
fn unnamed_voice(alloc: Global, state: VoiceState) -> Result<Voices<VoiceState>, AllocError>
    ensures { IfOk result (λ voices. voices ≡ ([], state) ∷ []) }
{
    let mut voices = Voices::new(alloc);
    voices.push(VoiceName::new(alloc, b"")?, state)?;
    Ok(voices)
}

/// The state at a place of a tune's body.
#[derive(Drop)]
pub struct Body {
    /// The voices that are mentioned, at most fifteen.
    pub(crate) voices: Voices<VoiceState>,
    pub(crate) current: Current,
    /// The state with which a new voice begins.
    pub(crate) another: VoiceState,
}

impl Body {
    /// The state of the current voice.
    pub(crate) fn here(&self) -> &VoiceState
        ensures { result.now ≡ here self.now }
    {
        match &self.current {
            Current::Unnamed(state) => state,
            Current::At(at) => self.voices.get(*at).unwrap_or(&self.another),
        }
    }

    /// The state of the current voice, to be changed.
    pub(crate) fn here_mut(&mut self) -> &mut VoiceState
        ensures* writes_back { sem 𝓛 (LendsHere self.entry result) }
        ensures value { result.now ≡ here self.old }
    {
        if let Current::At(at) = self.current {
            if at < self.voices.len() {
                return self.voices.known_mut(at);
            }
            return &mut self.another;
        }
        self.current.unnamed_mut()
    }

    /// The first note, chord, rest or bar rest of the voice without a name mentions it.
    pub(crate) fn mention(&mut self, alloc: Global) -> Result<(), AllocError>
        ensures ok { OnOk result (self.new ≡ after_mention self.old) }
        ensures unchanged { OnErr result (self.new ≡ self.old) }
    {
        match self.current {
            Current::At(_) => Ok(()),
            Current::Unnamed(_) => self.mention_unnamed(alloc),
        }
    }

    /// Mentions the voice without a name. It happens at most once in a tune, so it is not inlined into what each note runs.
    #[inline(never)]
    fn mention_unnamed(&mut self, alloc: Global) -> Result<(), AllocError>
        requires { IsUnnamed self.old.current }
        ensures ok { OnOk result (self.new ≡ after_mention self.old) }
        ensures unchanged { OnErr result (self.new ≡ self.old) }
    {
        if let Current::Unnamed(state) = &self.current {
            let state = state.clone()?;
            self.voices = unnamed_voice(alloc, state)?;
            self.current = Current::At(0);
        }
        Ok(())
    }

    /// Makes the voice of this name the current one, with these properties, unless it is one too many.
    pub(crate) fn make_current(
        &mut self,
        alloc: Global,
        name: &[u8],
        shift: Shift,
    ) -> Result<bool, AllocError>
        ensures value { IfOk result (λ made. with_current self.old name.now shift ≡ (if made then Some self.new else None)) }
        ensures too_many { IfOk result (λ made. made ≡ false → self.new ≡ self.old) }
        ensures unchanged { OnErr result (self.new ≡ self.old) }
    {
        let name = VoiceName::new(alloc, name)?;
        match self.voices.place_of(&name) {
            Some(at) => {
                self.move_to(at, shift);
                Ok(true)
            }
            None if self.voices.len() < MOST_VOICES => {
                self.join(name, shift)?;
                Ok(true)
            }
            None => Ok(false),
        }
    }

    /// Makes the voice at an index the current one, with these properties.
    fn move_to(&mut self, at: usize, shift: Shift)
        ensures { self.new ≡ after_move self.old at shift }
    {
        self.current = Current::At(at);
        let state = self.here_mut();
        state.shift = state.shift.with_properties(shift);
    }

    /// Mentions another voice, which becomes the current one, with these properties.
    fn join(&mut self, name: VoiceName, shift: Shift) -> Result<(), AllocError>
        requires { place_of name self.old.voices ≡ None }
        ensures ok { OnOk result (self.new ≡ after_join self.old name shift) }
        ensures unchanged { OnErr result (self.new ≡ self.old) }
    {
        let mut state = self.another.clone()?;
        state.shift = state.shift.with_properties(shift);
        let at = self.voices.len();
        self.voices.push(name, state)?;
        self.current = Current::At(at);
        Ok(())
    }

    /// Begins a part: no voice has accidentals.
    pub(crate) fn begin_part(&mut self)
        ensures { self.new ≡ after_part self.old }
    {
        clear_accidentals(&mut self.voices);
        if let Current::Unnamed(state) = &mut self.current {
            state.clear_accidentals();
        }
    }
}

impl Clone for Body {
    ghost is_clone = { λ body copy. copy ≡ body };

    fn clone(&self) -> Result<Body, AllocError> {
        let voices = copy_voices(&self.voices)?;
        let current = self.current.clone()?;
        let another = self.another.clone()?;
        Ok(Body {
            voices,
            current,
            another,
        })
    }
}

/// A copy of the voices and their states.
#[tactic(auto, using(crate::proofs::Voices::copies_same))]
fn copy_voices(voices: &Voices<VoiceState>) -> Result<Voices<VoiceState>, AllocError>
    ensures { IfOk result (λ copy. copy ≡ voices.now) }
{
    let copy = voices.clone()?;
    Ok(copy)
}

/// Ends the accidentals of all voices.
fn clear_accidentals(voices: &mut Voices<VoiceState>)
    ensures { voices.new ≡ all_without_accidentals voices.old }
{
    for at in 0..voices.len() {
        voices.known_mut(at).clear_accidentals();
    }
}
