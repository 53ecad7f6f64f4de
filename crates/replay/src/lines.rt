// The lines of the programs that make calls: a call, its arguments, and what it answered.
ghost use Rattle.std.specs.Prelude.{◌≡◌};
ghost use Rattle.replay.specs.Lines.{answered};

use crate::numbers::{Arguments, Numbers};
use std::convert::AsSlice;
use std::io;

// The result of a call that answers 0 or the number of its refusal.
pub fn answered<T: Drop>(refusal: u32, value: T) -> Result<T, u32>
    ensures { result ≡ answered refusal value }
{
    if refusal == 0 {
        Ok(value)
    } else {
        Err(refusal)
    }
}

// Prints what a call answered, and ends the line. A call with no results is `accepted` where it is not refused.
pub fn print_answer<V: AsSlice<u64> + Drop>(
    rt: &impl Print,
    answer: Result<V, u32>,
) -> io::Result<()> {
    match answer {
        Err(refusal) => println!(rt; "refused {refusal}"),
        Ok(results) => {
            let numbers = results.as_slice();
            if numbers.is_empty() {
                println!(rt; "accepted")
            } else {
                println!(rt; "{}", Numbers(numbers))
            }
        }
    }
}

// Prints a line.
pub fn print_line<const N: usize>(
    rt: &impl Print,
    call: &str,
    arguments: &[u64],
    answer: Result<[u64; N], u32>,
) -> io::Result<()> {
    print!(rt; "{call}{}: ", Arguments(arguments))?;
    print_answer(rt, answer)
}
