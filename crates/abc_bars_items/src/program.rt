//! Programs of MIDI.

ghost use Rattle.std.specs.Prelude.{◌≡◌, ◌≤◌, IfSome};
ghost use Rattle.abc_bars_items.specs.Program.{program_of};

/// The highest program (MIDI 1.0).
pub const HIGHEST_PROGRAM: u8 = 127;

/// The program of a directive's number; None above 127, which is refused.
pub fn program_of(written: u32) -> Option<u8>
    ensures value { result ≡ program_of written }
    ensures range { IfSome result (λ number. number ≤ HIGHEST_PROGRAM) }
{
    if written <= u32::from(HIGHEST_PROGRAM) {
        Some(written as u8)
    } else {
        None
    }
}
