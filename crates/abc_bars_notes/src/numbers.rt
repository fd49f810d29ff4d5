//! For the prover: the numbers that the constants' names mean. A proof that counts with one cites
//! its line here.

use crate::broken::MOST_MARKS;
use crate::lengths::MOST_UNITS;
use crate::pitch::{MIDDLE_C, OCTAVE};
use abc_bars_items::{
    FIRST_COLUMN, HIGHEST_KEY, HIGHEST_PROGRAM, HIGHEST_VELOCITY, MOST_CHORD_NOTES, MOST_VOICES,
    USUAL_VELOCITY,
};
use abc_bars_voice::LARGEST_TUPLET_NUMBER;

// Keys (MIDI 1.0, ABC 2.1 section 4.1).
const _: () = prove!(HIGHEST_KEY == 127);

const _: () = prove!(MIDDLE_C == 60);

const _: () = prove!(OCTAVE == 12);

// Velocities and programs (MIDI 1.0). The usual velocity is not in ABC 2.1.
const _: () = prove!(HIGHEST_VELOCITY == 127);

const _: () = prove!(USUAL_VELOCITY == 80);

const _: () = prove!(HIGHEST_PROGRAM == 127);

// Limits: the marks of broken rhythm are of ABC 2.1 section 4.4, the others are not in ABC 2.1.
const _: () = prove!(MOST_VOICES == 15);

const _: () = prove!(MOST_CHORD_NOTES == 16);

const _: () = prove!(LARGEST_TUPLET_NUMBER == 64);

const _: () = prove!(MOST_MARKS == 3);

const _: () = prove!(MOST_UNITS == 1_024);

const _: () = prove!(FIRST_COLUMN == 1);
