//! What a line of the input asks for.

/// A number whose play is asked for, and how many lines its text has.
#[derive(Clone, Copy, Drop)]
pub(crate) struct Request {
    pub number: u32,
    pub lines: u32,
}

/// Returns a number with one more digit. What is no digit does not count.
fn with_digit(number: u32, byte: u8) -> u32 {
    if byte.is_ascii_digit() {
        number
            .saturating_mul(10)
            .saturating_add(byte.saturating_sub(b'0') as u32)
    } else {
        number
    }
}

impl Request {
    /// Returns the request of a line: its second word is the number, its third how many lines the text has.
    pub(crate) fn of(line: &[u8]) -> Request {
        let mut request = Request {
            number: 0,
            lines: 0,
        };
        let mut words: usize = 0;
        for byte in line {
            if *byte == b' ' {
                words = words.saturating_add(1);
            } else if words == 1 {
                request.number = with_digit(request.number, *byte);
            } else if words == 2 {
                request.lines = with_digit(request.lines, *byte);
            }
        }
        request
    }
}
