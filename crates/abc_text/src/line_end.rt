//! The end of a line.

ghost use Rattle.std.specs.Prelude.{◌≡◌, ◌≤◌, length};
ghost use Rattle.abc_text.specs.LineEnd.{without_return, IsWithoutReturn};

/// Returns the line without one carriage return at its end.
pub fn without_return(line: &[u8]) -> &[u8]
    ensures value { result.now ≡ without_return line.now }
    ensures one { IsWithoutReturn line.now result.now }
    ensures bounded { length result.now ≤ length line.now }
{
    if line.ends_with(b"\r") {
        &line[..line.len() - 1]
    } else {
        line
    }
}
