// A line's answer in characters.
ghost use Rattle.std.specs.Prelude.{◌≡◌, ◌++◌, ◌∷◌, [], ◌+◌, ◌%◌, ◌≤◌, ◌<◌, length, set};
ghost use Rattle.line_cut.specs.Cut.{Put};
ghost use Rattle.line_stream.specs.Output.{pair_of_digits, line_output, answer_most};

use lines::answered;

fn digit(n: u32) -> u8
    ensures { result ≡ 48 + n % 10 }
{
    (48 + n % 10) as u8
}

// A number in two digits and a line feed, from `at` on.
// Stays: digits by hand, since the lent places are written and nothing is allocated: `write!` needs a writer over them,
// of which the promise (`Put`) would have to be proved besides.
fn write_number(n: u32, out: &mut [u8], at: usize) -> usize
    requires { at + 3 ≤ length out.old }
    ensures { Put out.old at (pair_of_digits n ++ (10 ∷ [])) result out.new }
{
    out[at] = digit(n / 10);
    out[at + 1] = digit(n);
    out[at + 2] = b'\n';
    at + 3
}

// A line feed after a reply that fills so many places from `at` on; says where it ends.
fn end_reply(out: &mut [u8], at: usize, filled: usize) -> usize
    requires { at + filled < length out.old }
    ensures { (result ≡ at + filled + 1) × (out.new ≡ set out.old (at + filled) 10) }
{
    out[at + filled] = b'\n';
    at + filled + 1
}

// The answer to a line, from `at` on; says where it ends.
pub fn write_line(text: &[u8], out: &mut [u8], at: usize) -> usize
    requires { at + answer_most ≤ length out.old }
    ensures { Put out.old at (line_output text.now) result out.new }
{
    match answered(text, &mut out[at..]) {
        Ok(filled) => end_reply(out, at, filled),
        Err(refusal) => write_number(u32::from(refusal), out, at),
    }
}
