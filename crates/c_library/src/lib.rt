//! The C library: the calls of the handle under their C names. The header of C is c/abc2midi_live.h.
#![tactic(auto)]

mod editing;
mod opening;
mod plays;
mod reading;
mod tokens;
