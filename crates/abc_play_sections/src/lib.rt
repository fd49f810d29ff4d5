//! The steps that a voice plays of a section: items with their places in the tune, and the bar lines that are passed.
#![tactic(auto)]

pub mod laws;
mod step;

pub use step::PlayStep;
