// The number of lines asked for: the program's one argument.
use std::env::{Env, FillError};

// As many as 4,294,967,295 has.
const MOST_DIGITS: usize = 10;

// A decimal number of 32 bits. No digits are none, and nor is a sign one, which `parse` takes.
fn number_in(digits: &[u8]) -> Option<u32> {
    if digits.is_empty() {
        return None;
    }
    digits.iter().try_fold(0u32, |number, &digit| match digit {
        b'0'..=b'9' => number.checked_mul(10)?.checked_add(u32::from(digit - b'0')),
        _ => None,
    })
}

// `arg` gives no count of bytes for an argument that is missing or does not fit. Argument 0 is the program's own name.
pub(crate) fn lines_asked(rt: &impl Env) -> Option<u32> {
    // `arg` writes into memory that it is lent, and answers the count.
    let mut digits = [0; MOST_DIGITS];
    let count = rt.arg(1, &mut digits).ok()?;
    match rt.arg(2, &mut []) {
        Err(FillError::NotPresent) => number_in(&digits[..count]),
        _ => None,
    }
}
