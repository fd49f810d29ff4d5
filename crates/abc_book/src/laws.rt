//! Laws of the blocks of every text. Each function has no body: its contract is the law.

ghost use Rattle.abc_book.specs.Laws.{OnePass, EachLineInOneBlock, NoBlankInABlock, AnXLineCuts, BlocksRise, XLinesBeginTunes};
ghost use Rattle.abc_book.specs.Stretch.{AStretchIsEnough};

/// One pass over the lines finds the blocks of the rules (ABC 2.1 section 2.2).
#[tactic(auto, using(crate::proofs::OnePass::one_pass))]
pub fn one_pass()
    ensures { OnePass }
{}

/// Every line that is neither a comment nor blank lies in exactly one block, and a blank line in none (ABC 2.1 section 2.2).
#[tactic(auto, using(crate::proofs::Lying::each_in_one, crate::proofs::Lying::no_blank_in))]
pub fn each_line_in_one_block()
    ensures one { EachLineInOneBlock }
    ensures none { NoBlankInABlock }
{}

/// An X: line cuts a text in two: the lines before it and from it on are independent (ABC 2.1 section 3.1.1).
#[tactic(auto, using(crate::proofs::Cuts::x_line_cuts))]
pub fn an_x_line_cuts()
    ensures { AnXLineCuts }
{}

/// Blocks follow one another within the text, each of at least one line, and the first line of a block
/// is an X: line exactly if the block is a tune.
#[tactic(auto, using(crate::proofs::Rising::blocks_rise, crate::proofs::Rising::tunes_begin))]
pub fn blocks_rise()
    ensures rise { BlocksRise }
    ensures tunes { XLinesBeginTunes }
{}

/// A stretch of a text replaces another one. Each begins a tune or the text, or has no lines, and a tune or nothing
/// follows it. Then the blocks before it stay, and the blocks after it move by the difference of lines.
#[tactic(auto, using(crate::proofs::Stretches::stretch_is_enough))]
pub fn a_stretch_is_enough()
    ensures { AStretchIsEnough }
{}
