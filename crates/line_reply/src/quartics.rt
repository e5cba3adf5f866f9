// The reply of kinds 06 and 07: for each of two quartics what it needs, its coefficients,
// and the resolvent's arguments.
ghost use Rattle.std.specs.Prelude.{◌≡◌, ◌++◌, ◌+◌, ◌≤◌, length};
ghost use Rattle.std.proofs.lemmas.List.Edits.{sets};
ghost use Rattle.line_reply.specs.Reply.{quartic_bytes};

use super::stores::put_row;
use roots::{quartic_need, resolvent_arguments};

fn put_quartic(bytes: &mut [u8], at: usize, p: [f64; 4])
    requires { at + 57 ≤ length bytes.old }
    ensures { bytes.new ≡ sets bytes.old at (quartic_bytes p) }
{
    let [a, b, c, d] = p;
    let r = resolvent_arguments(a, b, c, d);
    let row = [a, b, c, d, r.x0, r.x1, r.x2];
    bytes[at] = u8::from(quartic_need(a, b, c, d));
    put_row(bytes, at + 1, &row);
}

pub fn put_quartics(bytes: &mut [u8; 114], uddu: [f64; 4], udud: [f64; 4])
    ensures { bytes.new ≡ quartic_bytes uddu ++ quartic_bytes udud }
{
    put_quartic(bytes, 0, uddu);
    put_quartic(bytes, 57, udud);
}
