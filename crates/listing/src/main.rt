// The listing program (document 01): standard input to text. What it prints is what a proved function of the stream crate answers.
#![tactic(auto)]

ghost use Rattle.std.specs.Prelude.{◌≤◌, ◌<◌, length, take, OnOk};
ghost use Rattle.std.specs.Io.KnownBytes.{Consumes, IsAtEnd};

use std::io;
use std::io::Read;
use stream::listing;

// Reads until `buffer` is full, the input ends or a read fails, however few bytes each read brings. Answers how many bytes it put at the
// start of `buffer`, and whether a read failed behind them.
fn read_full<R: Read>(reader: &mut R, buffer: &mut [u8]) -> (usize, io::Result<()>)
    ensures in_bounds { result.0 ≤ length buffer.new }
    ensures bytes { Consumes (R.remaining reader.old) (R.remaining reader.new) (take result.0 buffer.new) }
    ensures end { OnOk result.1 (result.0 < length buffer.new → IsAtEnd (R.remaining reader.new)) }
{
    let mut done = 0;
    while done < buffer.len() {
        match reader.read(&mut buffer[done..]) {
            Ok(0) => return (done, Ok(())),
            Ok(n) => done += n,
            Err(error) => return (done, Err(error)),
        }
    }
    (done, Ok(()))
}

fn main(rt: HostRuntime) {
    // One byte more than a listing takes, so that a longer input is seen to be too long.
    let mut input = [0u8; 65537];
    // A failed read ends the input, as the end of a file does.
    let (got, _) = read_full(&mut rt.stdin(), &mut input);
    let mut text = [0u8; 82432];
    let length = listing::listing(&input[..got], &mut text);
    // A failed write is not told: the program's only answer is its text.
    let _ = rt.write_all(&text[..length]);
}
