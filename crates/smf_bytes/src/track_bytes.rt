//! The bytes of a track, as they are appended.
ghost use Rattle.std.specs.Prelude.{◌≡◌, ◌<◌, ◌^◌, ◌++◌, ◌∷◌, [], IfOk, OnOk};
ghost use Rattle.smf_bytes.specs.Number.{number_text};

use crate::number::put_number;
use crate::track::put_end;
use arrayvec::ArrayVec;
use std::alloc::AllocError;
use std::marker::Model;

/// The most bytes that wait.
const MOST_WAITING: usize = 256;

/// The bytes of a file. The last of them wait, until one call appends many. Contracts see all bytes.
#[derive(Drop)]
pub(crate) struct TrackBytes {
    written: Vec<u8>,
    waiting: ArrayVec<u8, MOST_WAITING>,
}

impl Model for TrackBytes {
    ghost use Rattle.std.specs.Prelude.{ℕ, List, ◌++◌};

    ghost Value = { List ℕ };

    ghost view = { λ bytes. bytes.written.items ++ bytes.waiting.items };
}

/// Appends the bytes that wait. Then none waits.
fn write_waiting(
    written: &mut Vec<u8>,
    waiting: &mut ArrayVec<u8, MOST_WAITING>,
) -> Result<(), AllocError>
    ensures ok { OnOk result (written.new.items ≡ written.old.items ++ waiting.old.items) }
    ensures none { OnOk result (waiting.new.items ≡ []) }
{
    written.extend_from_slice(waiting.as_slice())?;
    waiting.clear();
    Ok(())
}

impl TrackBytes {
    /// Returns the bytes `written`, and none that wait.
    pub(crate) fn of(written: Vec<u8>) -> TrackBytes
        ensures { result ≡ written.items }
    {
        TrackBytes {
            written,
            waiting: ArrayVec::new(),
        }
    }

    /// All bytes.
    pub(crate) fn into_vec(mut self) -> Result<Vec<u8>, AllocError>
        ensures { IfOk result (λ bytes. bytes.items ≡ self) }
    {
        write_waiting(&mut self.written, &mut self.waiting)?;
        let TrackBytes {
            written,
            waiting: _,
        } = self;
        Ok(written)
    }

    /// Appends bytes after those that wait.
    #[inline(never)]
    fn write(&mut self, bytes: &[u8]) -> Result<(), AllocError>
        ensures { OnOk result (self.new ≡ self.old ++ bytes.now) }
    {
        write_waiting(&mut self.written, &mut self.waiting)?;
        self.written.extend_from_slice(bytes)
    }

    /// Appends a few bytes, which wait if there is room.
    #[inline(always)]
    pub(crate) fn put(&mut self, bytes: &[u8]) -> Result<(), AllocError>
        ensures { OnOk result (self.new ≡ self.old ++ bytes.now) }
    {
        if self.waiting.try_extend_from_slice(bytes).is_ok() {
            return Ok(());
        }
        self.write(bytes)
    }

    /// Appends a variable-length quantity.
    pub(crate) fn put_number(&mut self, n: u32) -> Result<(), AllocError>
        requires { n < 2 ^ 28 }
        ensures { OnOk result (self.new ≡ self.old ++ number_text n) }
    {
        write_waiting(&mut self.written, &mut self.waiting)?;
        put_number(&mut self.written, n)
    }

    /// Appends the end of a track, `delta` ticks after its last event.
    pub(crate) fn put_end(&mut self, delta: u32) -> Result<(), AllocError>
        requires { delta < 2 ^ 28 }
        ensures { OnOk result (self.new ≡ (self.old ++ number_text delta) ++ 255 ∷ 47 ∷ 0 ∷ []) }
    {
        write_waiting(&mut self.written, &mut self.waiting)?;
        put_end(&mut self.written, delta)
    }
}
