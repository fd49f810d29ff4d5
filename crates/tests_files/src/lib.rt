//! Worked examples of tunes laid out in time and of MIDI files, by the definitions alone, each proved; what the public
//! functions of `abc_voices` and `smf_bytes` answer is seen in the transcripts of the program, which calls them. Expected
//! values are worked by hand from the rules in `docs/rules.md`, those of files from Standard MIDI Files 1.0, or given by
//! a second compiler; each example says which.
#![tactic(auto)]

pub mod definitions;
pub mod layouts;
pub mod voice_tracks;
