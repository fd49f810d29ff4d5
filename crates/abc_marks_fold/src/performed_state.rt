//! The state of a performed tune before a cell.

ghost use Rattle.std.specs.Prelude.{◌≡◌, is_some, IfOk};
ghost use Rattle.abc_marks_fold.specs.PerformedSteps.{begun, ended};

use crate::block_name::BlockName;
use abc_bars_body::Entry;
use abc_bars_voice::Same;
use std::alloc::AllocError;

/// The state of a performed tune or file header before a cell.
#[derive(Drop)]
pub struct PerformedState {
    /// The state of the written reading.
    pub base: Entry,
    /// The name of the text block that is open.
    pub block: Option<BlockName>,
}

impl PerformedState {
    /// Returns whether the place is in a text block.
    pub fn is_in_block(&self) -> bool
        ensures { result ≡ is_some self.now.block }
    {
        self.block.is_some()
    }

    /// A copy, which shares all. It allocates nothing.
    pub fn share(&self) -> Result<PerformedState, AllocError>
        ensures { IfOk result (λ copy. copy ≡ self.now) }
    {
        let base = self.base.share()?;
        let block = match &self.block {
            Some(name) => Some(name.share()?),
            None => None,
        };
        Ok(PerformedState { base, block })
    }

    /// The state after a line that begins a text block of this name: in a block it is a comment.
    pub(crate) fn begin(&self, name: &BlockName) -> Result<PerformedState, AllocError>
        ensures { IfOk result (λ state. state ≡ begun self.now name.now) }
    {
        if self.is_in_block() {
            return self.share();
        }
        let base = self.base.share()?;
        let block = Some(name.share()?);
        Ok(PerformedState { base, block })
    }

    /// The state after a line that ends a text block of this name: another name does not end it.
    pub(crate) fn end(&self, name: &BlockName) -> Result<PerformedState, AllocError>
        ensures { IfOk result (λ state. state ≡ ended self.now name.now) }
    {
        match &self.block {
            Some(open) => {
                if *open == *name {
                    let base = self.base.share()?;
                    return Ok(PerformedState { base, block: None });
                }
                self.share()
            }
            None => self.share(),
        }
    }
}

impl Same for PerformedState {
    fn same(&self, other: &PerformedState) -> bool {
        self.base.same(&other.base) && self.block.same(&other.block)
    }
}
