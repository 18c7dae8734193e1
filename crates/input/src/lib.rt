// A block from a reader, for programs. What a file or standard input gives no contract can say; of a reader whose bytes are known, over memory say, the
// contract says that an answer is what they begin with: none is changed or made up. That all are there it does not say, since any read may fail.
#![tactic(auto)]

ghost use Rattle.std.specs.Prelude.{◌≤◌, length, take, IfOk, IfSome};
ghost use Rattle.std.specs.Io.{StartsWith};
ghost use Rattle.std.specs.Io.KnownBytes.{Consumes};

use arrayvec::ArrayVec;
use std::io;
use std::io::Read;

// One byte more than the longest block, so that a longer input is seen and refused, and not cut.
pub const MOST: usize = records::BLOCK_BYTES + 1;

// Reads until the bytes are full, the input ends or a read fails, and answers how many were read.
// By hand, so that the programs do what they did on every input: `read_exact` does not answer how many, and `io::copy` fails where a read does, which is an
// end here unless one more read fails too.
fn fill<R: Read>(input: &mut R, out: &mut [u8]) -> usize
    ensures bound { result ≤ length out.new }
    ensures bytes { Consumes (R.remaining input.old) (R.remaining input.new) (take result out.new) }
{
    let mut done = 0;
    while done < out.len() {
        match input.read(&mut out[done..]) {
            Ok(0) | Err(_) => return done,
            Ok(n) => done += n,
        }
    }
    done
}

// The bytes up to the end of the input, or to a read that fails, or so many that no block is as long; or why reading fails. A read that failed before looks
// like the end of the input: one more tells the two apart.
pub fn block<R: Read>(input: &mut R) -> io::Result<ArrayVec<u8, MOST>>
    ensures { IfOk result (λ block. IfSome (R.remaining input.old) (λ bytes. StartsWith bytes block.items)) }
{
    let mut bytes = [0u8; MOST];
    let n = fill(input, &mut bytes);
    input.read(&mut [0u8; 1])?;
    let mut block = ArrayVec::from_array_in((), bytes);
    block.truncate(n);
    Ok(block)
}
