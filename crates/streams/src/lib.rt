// Bytes read from a stream into a buffer.
#![tactic(auto)]

ghost use Rattle.std.specs.Prelude.{◌≡◌, ◌<◌, ◌≤◌, IfOk, IfSome, length, take};
ghost use Rattle.std.specs.Io.KnownBytes.{Consumes, IsAtEnd};

use std::io;
use std::io::Read;

// Reads until the buffer is full or the stream ends, and answers how many bytes stand at the buffer's start.
#[tactic(auto, using(crate::proofs::StartLaws::filled))]
pub fn fill<R: Read>(stream: &mut R, buffer: &mut [u8]) -> io::Result<usize>
    ensures within { IfOk result (λ n. n ≤ length buffer.new) }
    ensures start { IfOk result (λ n. IfSome (R.remaining stream.old) (λ given. take n buffer.new ≡ take (length buffer.new) given)) }
    ensures bytes { IfOk result (λ n. Consumes (R.remaining stream.old) (R.remaining stream.new) (take n buffer.new)) }
    ensures end { IfOk result (λ n. n < length buffer.new → IsAtEnd (R.remaining stream.new)) }
{
    let mut filled = 0;
    // A read may give fewer bytes than there is room for, and `read_exact` does not say how many came before the end.
    while filled < buffer.len() {
        let count = stream.read(&mut buffer[filled..])?;
        if count == 0 {
            break;
        }
        filled += count;
    }
    Ok(filled)
}
