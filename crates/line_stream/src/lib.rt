// The line entry's answers to the lines of blocks of characters, in constant memory.
#![tactic(auto)]

mod answer;

ghost use Rattle.std.specs.Prelude.{◌≡◌, ◌++◌, ◌+◌, ◌≤◌, length, take};
ghost use Rattle.line_cut.specs.Cut.{Fills, Put};
ghost use Rattle.line_cut.specs.Stream.{kept_most, Streams};
ghost use Rattle.line_stream.specs.Output.{line_output, answer_most, line_way, call_of, last_output};

use answer::write_line;
use line_cut::keep::{keep, least};
use line_cut::line_feed::find;
use line_kinds::{LINE, REPLY};

// The characters kept of a line that has begun.
pub const KEPT: usize = LINE + 1;

// The places that a line's answer may take, a line feed among them.
pub const ROOM: usize = REPLY + 1;

// How far a call came: the characters of the input that it used, those kept of a line that has begun, and the places of
// the output that it filled.
#[derive(Clone, Copy)]
pub struct Streamed {
    pub used: usize,
    pub count: usize,
    pub filled: usize,
}

// The line that `part` ends. One that lies in the block as a whole is answered where it stands.
fn end_line(part: &[u8], kept: &mut [u8], count: usize, out: &mut [u8], at: usize) -> usize
    requires kept_len { length kept.old ≡ kept_most line_way }
    requires answer_most_in_bounds { at + answer_most ≤ length out.old }
    ensures { Put out.old at
        (line_output (take (kept_most line_way) (take count kept.old ++ part.now)))
        result out.new }
{
    if count == 0 {
        let n = least(KEPT, part.len());
        return write_line(&part[..n], out, at);
    }
    let n = keep(kept, count, part);
    write_line(&kept[..n], out, at)
}

// Answers the lines that end in `input`, as long as `out` has room for another answer, `ROOM` places. The first `count`
// places of `kept` hold the first characters of a line that began in an earlier call; `used` says where the next call
// goes on.
// Stays: `kept` with `count` beside it, here and in line_cut's `keep`. The promises of `stream`, `finish` and `keep`
// are for every count, also one above the places; a type that holds the count within them would ask more of callers.
pub fn stream(input: &[u8], kept: &mut [u8; KEPT], count: usize, out: &mut [u8]) -> Streamed
    ensures { Streams (call_of (length out.old) (take count kept.old) input.now)
        result.used result.count result.filled kept.new out.old out.new }
{
    // A slice, of which the proof knows the length.
    let kept: &mut [u8] = kept;
    let mut count = least(count, KEPT);
    let mut at = 0;
    let mut filled = 0;
    while ROOM <= out.len() - filled {
        let end = find(input, at);
        if end == input.len() {
            let n = keep(kept, count, &input[at..]);
            return Streamed {
                used: end,
                count: n,
                filled,
            };
        }
        filled = end_line(&input[at..end], kept, count, out, filled);
        count = 0;
        at = end + 1;
    }
    Streamed {
        used: at,
        count,
        filled,
    }
}

// Answers the line that has begun where the input ends, if it has a character.
pub fn finish(kept: &[u8; KEPT], count: usize, out: &mut [u8; ROOM]) -> usize
    ensures { Fills out.old (last_output (take count kept.now)) result out.new }
{
    let n = least(count, KEPT);
    if n == 0 {
        return 0;
    }
    write_line(&kept[..n], out, 0)
}
