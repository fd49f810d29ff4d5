//! Laws of scanning. Each function has no body: its contract is the law.

ghost use Rattle.abc_text.specs.LineEnd.{DropsOneReturn};
ghost use Rattle.abc_scan.specs.Directive.{ReadsDirectives};
ghost use Rattle.abc_scan.specs.Line.{CutsEachText, CutsOnce};
ghost use Rattle.abc_scan.specs.Text.{CutsComments};

/// The text that `scan` reads of a line is the line without one carriage return at its end, up to the comment (ABC 2.1 section
/// 2.2).
#[tactic(auto, using(abc_text::proofs::LineEnds::drops_one_return, crate::proofs::Comments::cuts_comments))]
pub fn part_read()
    ensures returns { DropsOneReturn }
    ensures comments { CutsComments }
{}

/// `scan` cuts a music line into tokens. Each token is the longest that begins at its place, and the line has no other such
/// cutting (ABC 2.1 section 4.20).
#[tactic(auto, using(crate::proofs::TokenLaws::cuts_each, crate::proofs::TokenLaws::cuts_once))]
pub fn one_cutting()
    ensures cuts { CutsEachText }
    ensures once { CutsOnce }
{}

/// The directive read from a line is the one that the line spells. No line spells two.
#[tactic(auto, using(crate::proofs::Directives::reads_directives))]
pub fn one_directive()
    ensures { ReadsDirectives }
{}
