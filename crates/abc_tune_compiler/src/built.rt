//! The file and the faults of a tune.

ghost use Rattle.std.specs.Prelude.{◌≡◌, IfOk};

use abc_fields::FaultCode;
use abc_fold::Shared;
use abc_text::Sequence;
use std::alloc::AllocError;

/// The file of a tune, and the faults of the tune as a whole. Copies share both.
#[derive(Drop)]
pub struct Built {
    /// The bytes of the MIDI file, if the tune has one. In ABC it has none exactly if it is too long.
    pub bytes: Option<Shared<Sequence<u8>>>,
    /// The codes of the faults, in any order; in ABC in the order of their numbers, each once. Their place is the
    /// beginning of the tune's first line.
    pub faults: Shared<Sequence<FaultCode>>,
}

impl Built {
    /// Returns a copy, which shares the bytes and the faults. It returns an error if an allocation fails.
    pub fn share(&self) -> Result<Built, AllocError>
        ensures { IfOk result (λ copy. copy ≡ self.now) }
    {
        let bytes = match &self.bytes {
            Some(bytes) => Some(bytes.share()?),
            None => None,
        };
        let faults = self.faults.share()?;
        Ok(Built { bytes, faults })
    }
}
