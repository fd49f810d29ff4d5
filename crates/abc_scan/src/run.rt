//! Runs of one byte at the front of a text.

ghost use Rattle.std.specs.Prelude.{◌≡◌, ◌≤◌, ◌==◌, length};
ghost use Rattle.std.specs.List.{prefix_len};

/// Returns the length of the run of this byte at the front of a text.
pub(crate) fn run_of(byte: u8, text: &[u8]) -> usize
    ensures value { result ≡ prefix_len (λ b. b == byte) text.now }
    ensures inside { result ≤ length text.now }
{
    text.iter().take_while(|it| **it == byte).count()
}
