//! The key of a tune in a memo.

ghost use Rattle.std.specs.Prelude.{◌≡◌, [], ◌∷◌, ◌++◌, OnErr, OnOk};
ghost use Rattle.std.proofs.Common.{ap, sym};
ghost use Rattle.std.specs.Cmp.Lexicographic.{same_text};
ghost use Rattle.std.specs.Hash.{second_alike};
ghost use Rattle.abc_tune_memo.specs.Bytes.{line_bytes};

use abc_scan::LineClass;
use abc_text::Sequence;
use std::alloc::AllocError;
use std::hash::{Hash, Hasher};

/// The key of a tune in a memo.
#[derive(PartialEq, Eq, Drop)]
pub struct TuneKey<D> {
    /// The values that the file header sets for all tunes.
    pub defaults: D,
    /// The lines of the tune that are no comments, each followed by a line feed.
    pub bytes: Sequence<u8>,
}

impl<D: Eq> Hash for TuneKey<D> {
    ghost hash_input = { λ key. key.bytes ∷ [] };

    ghost respects_eq = { (second_alike (λ x y. D.eq x.defaults y.defaults)
        (record { fed = λ x y h. ap (λ bytes. bytes ∷ []) (same_text x.bytes y.bytes (sym h)) })).fed };

    fn hash<H: Hasher>(&self, state: &mut H) {
        state.write(self.bytes.as_slice());
    }
}

/// Appends a line of this class to the bytes of a key, which are unchanged if an allocation fails.
pub fn put_line(bytes: &mut Vec<u8>, class: LineClass, line: &[u8]) -> Result<(), AllocError>
    ensures ok { OnOk result (bytes.new.items ≡ bytes.old.items ++ line_bytes class line.now) }
    ensures unchanged { OnErr result (bytes.new.items ≡ bytes.old.items) }
{
    match class {
        LineClass::Comment => Ok(()),
        LineClass::Blank | LineClass::Field(_) | LineClass::Directive | LineClass::Music => {
            bytes.reserve(line.len() + 1)?;
            bytes.extend_from_slice(line)?;
            bytes.push(b'\n')?;
            Ok(())
        }
    }
}
