// The first characters of a line that has begun.
ghost use Rattle.std.specs.Prelude.{◌≡◌, min};
ghost use Rattle.line_cut.specs.Cut.{lengthened, Fills};

pub fn least(a: usize, b: usize) -> usize
    ensures { result ≡ min a b }
{
    a.min(b)
}

// Lengthens the line by `part`, as far as there are places.
pub fn keep(kept: &mut [u8], count: usize, part: &[u8]) -> usize
    ensures { Fills kept.old (lengthened kept.old count part.now) result kept.new }
{
    let begun = least(count, kept.len());
    let n = least(kept.len() - begun, part.len());
    kept[begun..begun + n].copy_from_slice(&part[..n]);
    begun + n
}
