//! The keys of bagpipe music.

ghost use Rattle.std.specs.Prelude.{◌≡◌};
ghost use Rattle.abc_marks_readers.specs.PipeKey.{is_pipe_key};

/// Returns whether the value of a field K: is a key of bagpipe music (ABC 2.1 section 3.1.14). It is read as `D`.
pub fn is_pipe_key(value: &[u8]) -> bool
    ensures { result ≡ is_pipe_key value.now }
{
    value == b"HP".as_slice() || value == b"Hp".as_slice()
}
