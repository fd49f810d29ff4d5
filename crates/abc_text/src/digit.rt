//! Decimal digits and their values.

ghost use Rattle.std.specs.Prelude.{◌≡◌, ◌≤◌, length, take};
ghost use Rattle.std.specs.List.{prefix_len, AllPass};
ghost use Rattle.abc_text.specs.Digit.{is_digit, decimal};

/// The greatest number of digits of a number: a longer one is refused. Not in ABC 2.1.
pub const LONGEST_NUMBER: usize = 9;

/// The largest number of `LONGEST_NUMBER` digits.
pub const LARGEST_NUMBER: u32 = 999_999_999;

const _: () = prove!(LONGEST_NUMBER == 9);

const _: () = prove!(LARGEST_NUMBER + 1 == 1_000_000_000);

/// Returns whether a byte is a decimal digit.
pub fn is_digit(byte: u8) -> bool
    ensures { result ≡ is_digit byte }
{
    byte.is_ascii_digit()
}

/// Returns the number of digits at the front of a text.
pub fn digits(text: &[u8]) -> usize
    ensures value { result ≡ prefix_len is_digit text.now }
    ensures inside { result ≤ length text.now }
    ensures digits { AllPass is_digit (take result text.now) }
{
    text.iter().take_while(|byte| is_digit(**byte)).count()
}

/// Returns the value of at most nine digits, 0 if there are none.
pub fn decimal(digits: &[u8]) -> u32
    requires digits { AllPass is_digit digits.now }
    requires short { length digits.now ≤ LONGEST_NUMBER }
    ensures value { result ≡ decimal digits.now }
    ensures bounded { result ≤ LARGEST_NUMBER }
{
    let mut number = 0;
    for digit in digits {
        number = number * 10 + u32::from(*digit - b'0');
    }
    number
}
