//! Worked examples of texts, lengths, lines, blocks, tokens, fields, headers, music inside bars and plays.
//! `definitions` proves each example by the definitions alone. `folds` has code for any fold, and `chains` a fold for
//! chains, which `tests` runs. The transcripts of the program show the results of the public functions. Expected values
//! are worked out by hand from the rules in `docs/rules.md`. Each example names the parts that are not in ABC 2.1.
#![tactic(auto)]

pub mod chains;
pub mod definitions;
pub mod folds;
