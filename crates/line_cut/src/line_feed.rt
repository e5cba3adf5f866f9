// Where a line ends.
ghost use Rattle.std.specs.Prelude.{◌≡◌, ◌+◌, ◌≤◌, ◌<◌, length, drop, fold, ◌&&◌, not, eqb, true, ◌^◌};
ghost use Rattle.std.specs.List.{position_from};
ghost use Rattle.line_cut.specs.Cut.{line_length};

// Whether none of the characters is a line feed. All are tested, so that it is done at once.
fn no_feed<const N: usize>(part: &[u8; N]) -> bool
    ensures { result ≡ fold (λ none c. none && not (eqb c 10)) true part.now }
{
    part.iter().fold(true, |none, &c| none & (c != b'\n'))
}

// What is left after the first parts of N characters, as far as these have no line feed.
fn pass<const N: usize>(input: &[u8]) -> &[u8]
    requires some { 0 < N }
    requires few { N < 2 ^ 63 }
    ensures fewer { length result.now ≤ length input.now }
    ensures passed { length input.now + line_length result.now ≡ length result.now + line_length input.now }
{
    let mut rest = input;
    while let Some((part, after)) = rest.split_first_chunk::<N>() {
        if !no_feed(part) {
            break;
        }
        rest = after;
    }
    rest
}

fn first_feed(input: &[u8]) -> Option<usize>
    ensures { result ≡ position_from (λ c. eqb c 10) 0 input.now }
{
    input.iter().position(|&c| c == b'\n')
}

// The place of the first line feed from `from` on; where there is none, the end.
pub fn find(input: &[u8], from: usize) -> usize
    ensures { result ≡ from + line_length (drop from input.now) }
{
    if input.len() < from {
        return from;
    }
    let rest = pass::<8>(pass::<32>(&input[from..]));
    input.len() - rest.len() + first_feed(rest).unwrap_or(rest.len())
}
