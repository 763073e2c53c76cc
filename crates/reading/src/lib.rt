// Reading into memory that is lent, as the programs read a deck.
#![tactic(auto)]

ghost use Rattle.reading.specs.Reading.{ReadFullPromise};

use std::io;
use std::io::Read;

// Reads until the buffer is full or the input ends, however short the reads are, and gives the count of bytes read. A read that fails ends it.
pub fn read_full<R: Read>(input: &mut R, buffer: &mut [u8]) -> io::Result<usize>
    ensures { ReadFullPromise (R.remaining input.old) (R.remaining input.new) result buffer.new }
{
    // Neither a `for` nor std's `read_exact` or `read_to_end`: how many reads it takes is not known, and what those two have read where the input ends or fails
    // is not said (`ReadFullPromise`).
    let mut count = 0;
    while count < buffer.len() {
        let came = input.read(&mut buffer[count..])?;
        if came == 0 {
            break;
        }
        count += came;
    }
    Ok(count)
}
