//! Machines that take the lines of an input one after another, and answer some of them.

ghost use Rattle.std.specs.Prelude.{◌≡◌, Bool, false, Some, List, ℕ, [], ◌∷◌, IfOk, OnErr, OnOk};
ghost use Rattle.abc2midi_live.specs.Machine.{AsksNothing, CarriesOut, MachineState, TakesLine};
ghost use Rattle.abc2midi_live.specs.RunOutput.{run_output, SoFar, Stopped, Whole};

use crate::streams::Store;
use abc_fold::Work;
use std::alloc::AllocError;

/// The answer of a machine to a line.
#[derive(Drop)]
pub enum Reply {
    /// It waits for more lines.
    Nothing,
    /// It answers this text, and waits for more lines.
    Answer(Vec<u8>),
    /// It takes no more lines.
    End,
}

/// A machine that takes lines, and puts and removes files in a store.
pub trait Machine {
    // Its answers to the lines that come, and the known files of the store.
    ghost state: { Self → MachineState (List ℕ) };

    // Whether a line may cost work that is counted.
    ghost costs: { Self → List ℕ → Bool };

    /// Takes the next line, or the first 65,536 bytes of it.
    fn take_line<S: Store>(
        &mut self,
        line: Vec<u8>,
        store: &mut S,
        work: &mut Work,
    ) -> Result<Reply, AllocError>
        ensures reply { IfOk result (TakesLine (state self.old) (state self.new) line.items (S.seen store.old) (S.seen store.new)) }
        ensures stop { let before = state self.old in
            OnErr result (CarriesOut before.directory (before.future Stopped (line.items ∷ [])) (S.seen store.old)
            (S.seen store.new)) }
        ensures uncounted { OnOk result (costs self.old line.items ≡ false → work.new ≡ work.old) };

    /// Returns its answer at the end of the input.
    fn on_end_of_input(&self) -> &'static [u8]
        ensures { (state self.now).future Whole [] [] ≡ Some (run_output result.now (state self.now).directory) };

    // Nothing is written before a line comes.
    ghost waits: { (m : Self) → (state m).future SoFar [] [] ≡ Some (run_output [] (state m).directory) };

    // The store is not called again before it answers.
    ghost unasked: { (m : Self) (lines : List (List ℕ)) → AsksNothing (state m).directory ((state m).future Stopped lines) };
}
