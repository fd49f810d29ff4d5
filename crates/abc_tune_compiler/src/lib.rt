//! The interface of any compiler over ABC's lines, with its classes of lines, blocks and codes of faults. And the book of a text
//! by the definitions of a compiler: the files by their reference numbers, the titles and the faults.
#![tactic(auto)]

mod built;
mod compiler;
mod fault;
pub mod laws;
mod report;
mod sort;
mod title;

pub use built::Built;
pub use compiler::Compiler;
pub use fault::Fault;
pub use report::Report;
pub use sort::sort_dedup;
pub use title::Title;
