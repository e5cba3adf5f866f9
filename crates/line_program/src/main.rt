// The line program: each line of standard input gets its reply, or its refusal in two decimal digits, each ended by a
// line feed.
#![tactic(auto)]

ghost use Rattle.std.specs.Prelude.{◌≡◌, length, take};
ghost use Rattle.line_program.specs.Counts.{clamp_len};
ghost use Rattle.line_cut.specs.Stream.{Streams};
ghost use Rattle.line_stream.specs.Output.{turn_of};

use line_kinds::SPREAD;
use line_stream::{KEPT, ROOM, Streamed};
use std::io;
use std::io::{Read, Write};

// The characters that are read at once, and room for the answers to them, for the answer to a line that began earlier,
// and for one more, without which `stream` stops.
const BLOCK: usize = 65536;

const OUT: usize = SPREAD * BLOCK + 2 * ROOM;

// Stays: a number below 0 for a read that failed, though std's `read` gives none: `turn` promises what it writes of one
// too (`turn_of`, `clamp_len`).
fn given(got: isize, block: &[u8]) -> usize
    ensures { result ≡ clamp_len got (length block.now) }
{
    if got < 0 {
        return 0;
    }
    (got as usize).min(block.len())
}

// Answers the lines that end in what a read gave: `got` is what it said, of the block that it was lent.
fn turn(
    got: isize,
    block: &[u8; BLOCK],
    kept: &mut [u8; KEPT],
    count: usize,
    out: &mut [u8; OUT],
) -> Streamed
    ensures { Streams
        (turn_of (take count kept.old)
        (take (clamp_len got (length block.now)) block.now))
        result.used result.count result.filled kept.new out.old out.new }
{
    // a slice, of which the proof knows the length
    let block: &[u8] = block;
    let n = given(got, block);
    line_stream::stream(&block[..n], kept, count, out)
}

// Reads to the end of the input, or to the first read or write that fails. A line that has begun is answered where the
// input ends. After a read that failed it is not: more of it may stand in the input. A proved loop has to end, and
// nothing says that the input does: so the turns are counted, up to a number that no run comes to.
fn main(rt: HostRuntime) -> io::Result<()> {
    let mut input = rt.stdin();
    let mut output = rt.stdout();
    let mut block = [0u8; BLOCK];
    let mut kept = [0u8; KEPT];
    let mut out = [0u8; OUT];
    let mut count = 0;
    for _ in 0..u64::MAX {
        let got = input.read(&mut block)?;
        if got == 0 {
            let mut last = [0u8; ROOM];
            let n = line_stream::finish(&kept, count, &mut last);
            return output.write_all(&last[..n]);
        }
        let t = turn(got as isize, &block, &mut kept, count, &mut out);
        let filled = t.filled;
        output.write_all(&out[..filled])?;
        count = t.count;
    }
    Ok(())
}
