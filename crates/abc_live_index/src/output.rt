//! What a tune gives, whatever its place in the text.

ghost use Rattle.std.specs.Prelude.{◌≡◌, [], IfOk};
ghost use Rattle.abc_live_index.specs.Output.{has_faults, output_of};
ghost use Rattle.abc_tune_compiler.specs.Tune.{first_of};

use abc_fold::Chain;
use abc_text::Sequence;
use abc_tune_compiler::{Built, Compiler};
use std::alloc::{AllocError, Global};

/// The output of a tune for the book, at any place in the text: all but the faults of its cells.
#[derive(Drop)]
pub struct Output {
    /// The reference number, 0 if the tune has none.
    pub number: u32,
    /// The title's bytes, empty if the tune has none.
    pub title: Sequence<u8>,
    /// Its MIDI file and its faults as a whole, which the memo may hold too.
    pub built: Built,
    /// Whether one of its cells has faults.
    pub faulty: bool,
}

impl Output {
    /// Returns the output of items, from the tune that was built of them.
    pub(crate) fn of<C: Compiler>(
        compiler: &C,
        alloc: Global,
        items: &[C::Items],
        built: Built,
    ) -> Result<Output, AllocError>
        requires bytes { built.bytes ≡ (C.rules compiler.now).bytes items.now }
        requires faults { built.faults ≡ (C.rules compiler.now).build_faults items.now }
        ensures { IfOk result (λ output. output ≡ output_of (C.rules compiler.now) items.now) }
    {
        let title = Sequence::from_slice(alloc, title_of(compiler, items))?;
        Ok(Output {
            number: number_of(compiler, items),
            title,
            built,
            faulty: has_faults(compiler, items),
        })
    }
}

/// Copies of the items of a chain.
pub(crate) fn copied_items<C: Compiler>(
    alloc: Global,
    chain: &Chain<C>,
) -> Result<Vec<C::Items>, AllocError>
    ensures { IfOk result (λ copies. copies.items ≡ chain.now.items) }
{
    let mut copies = Vec::with_capacity(alloc, chain.len())?;
    while let Some(items) = chain.items(copies.len()) {
        copies.push(C::copy_items(alloc, items)?)?;
    }
    Ok(copies)
}

/// Whether one of the cells has faults.
fn has_faults<C: Compiler>(compiler: &C, items: &[C::Items]) -> bool
    ensures { result ≡ has_faults (C.rules compiler.now) items.now }
{
    for one in items {
        if compiler.faults(one).len() != 0 {
            return true;
        }
    }
    false
}

/// Returns the reference number of the first cell that gives one, 0 if none does.
fn number_of<C: Compiler>(compiler: &C, items: &[C::Items]) -> u32
    ensures { result ≡ first_of (C.rules compiler.now).number 0 items.now }
{
    for one in items {
        if let Some(number) = compiler.number(one) {
            return number;
        }
    }
    0
}

/// Returns the title of the first cell that gives one, empty if none does.
fn title_of<'a, C: Compiler>(compiler: &C, items: &'a [C::Items]) -> &'a [u8]
    ensures { result.now ≡ first_of (C.rules compiler.now).title [] items.now }
{
    for one in items {
        if let Some(title) = compiler.title(one) {
            return title;
        }
    }
    &[]
}
