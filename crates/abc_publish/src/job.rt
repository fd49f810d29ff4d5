//! What is to be done to the file of a number.

ghost use Rattle.std.specs.Prelude.{◌≡◌, option_copied};

use abc_text::Sequence;

/// The file of a reference number is to be written, or removed. It must be spent, by `done` or `failed` of its publisher.
#[derive(Debug)]
pub struct Job {
    pub(crate) number: u32,
    pub(crate) bytes: Option<Sequence<u8>>,
}

impl Job {
    /// Returns the reference number.
    pub fn number(&self) -> u32
        ensures { result ≡ self.now.number }
    {
        self.number
    }

    /// Returns the bytes to write; None if the file is to be removed.
    pub fn bytes(&self) -> Option<&[u8]>
        ensures { option_copied result ≡ self.now.bytes }
    {
        self.bytes.as_ref().map(|bytes| bytes.as_slice())
    }
}
