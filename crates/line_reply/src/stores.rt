// Numbers stored as bytes, one after the other.
ghost use Rattle.std.specs.Prelude.{◌≡◌, ◌+◌, ◌*◌, ◌≤◌, length};
ghost use Rattle.std.proofs.lemmas.List.Edits.{sets};
ghost use Rattle.number_bytes.specs.Bytes.{number_bytes_of};
ghost use Rattle.line_reply.specs.Reply.{numbers_bytes};

use number_bytes::to_be_bytes;

fn put(bytes: &mut [u8], at: usize, x: f64)
    requires { at + 8 ≤ length bytes.old }
    ensures { bytes.new ≡ sets bytes.old at (number_bytes_of x) }
{
    bytes[at..at + 8].copy_from_slice(&to_be_bytes(x));
}

// Stays: where in the whole it stores is a number beside the places, here, in `put` and in line_stream's answers, since
// the promises say what the whole holds (`sets bytes.old at ..`), and under `zip` an invariant has no name for it.
pub fn put_row(bytes: &mut [u8], at: usize, row: &[f64])
    requires { at + 8 * length row.now ≤ length bytes.old }
    ensures { bytes.new ≡ sets bytes.old at (numbers_bytes row.now) }
{
    for (i, &x) in row.iter().enumerate() {
        put(bytes, at + 8 * i, x);
    }
}
