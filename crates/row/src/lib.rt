// A profile's numbers in one row: t, t_sum, j (seven each), a, v, p (eight each), as in a reply, then pf, vf, af.
// So they are lent as one array, and nothing is copied from one attempt to the next.
#![tactic(auto)]

ghost use Rattle.std.specs.Prelude.{◌≡◌, ◌+◌, ◌≤◌, length};
ghost use Rattle.std.proofs.lemmas.List.Edits.{sets};
ghost use Rattle.row.specs.Row.{numbers_in, with_times, with_sums, with_jerks, with_nodes, start_of};

// Stays: one array with the places of its parts by name, no struct of arrays: parts of different lengths that are read
// and written as one run of numbers (`numbers_in`); crates/profile has the struct, `Profile`.
pub const NUMBERS: usize = 48;

pub const T_SUM: usize = 7;

pub const J: usize = 14;

pub const A: usize = 21;

pub const V: usize = 29;

pub const P: usize = 37;

pub const PF: usize = 45;

pub const VF: usize = 46;

pub const AF: usize = 47;

// All zeros but for where a move begins and where it is to end.
// Stays: six numbers one by one, as in the Rust's `set_boundary`, which gives them in this order.
#[tactic(auto, unfolding(crate::specs::Row::part))]
pub fn start(p0: f64, v0: f64, a0: f64, pf: f64, vf: f64, af: f64) -> [f64; NUMBERS]
    ensures { numbers_in result ≡ start_of p0 v0 a0 pf vf af }
{
    let mut x = [0.0; NUMBERS];
    x[A] = a0;
    x[V] = v0;
    x[P] = p0;
    x[PF] = pf;
    x[VF] = vf;
    x[AF] = af;
    x
}

// Numbers from a place on.
// Stays: one by one, no `copy_from_slice`: std's copy tests whether the two places overlap; with that and two things
// more a line of kind 01 took a tenth longer (docs/DECISIONS.md, 'The design pass').
fn put(x: &mut [f64], at: usize, some: &[f64])
    requires { at + length some.now ≤ length x.old }
    ensures { x.new ≡ sets x.old at some.now }
{
    for (i, &number) in some.iter().enumerate() {
        x[at + i] = number;
    }
}

// A whole part of the row.
// Stays: three by name, since each is public with a promise of its own (`with_times`, `with_sums`, `with_jerks`).
#[tactic(auto, using(crate::proofs::Rows::put_times))]
pub fn set_times(x: &mut [f64; NUMBERS], t: [f64; 7])
    ensures { numbers_in x.new ≡ with_times t (numbers_in x.old) }
{
    put(x, 0, &t);
}

#[tactic(auto, using(crate::proofs::Rows::put_sums))]
pub fn set_sums(x: &mut [f64; NUMBERS], t_sum: [f64; 7])
    ensures { numbers_in x.new ≡ with_sums t_sum (numbers_in x.old) }
{
    put(x, T_SUM, &t_sum);
}

#[tactic(auto, using(crate::proofs::Rows::put_jerks))]
pub fn set_jerks(x: &mut [f64; NUMBERS], j: [f64; 7])
    ensures { numbers_in x.new ≡ with_jerks j (numbers_in x.old) }
{
    put(x, J, &j);
}

pub fn set_nodes(x: &mut [f64; NUMBERS], a: [f64; 8], v: [f64; 8], p: [f64; 8])
    ensures { numbers_in x.new
        ≡ with_nodes (record { a = a; v = v; p = p }) (numbers_in x.old) }
{
    put(x, A, &a);
    put(x, V, &v);
    put(x, P, &p);
}

#[tactic(auto, unfolding(crate::specs::Row::part))]
pub fn times(x: &[f64; NUMBERS]) -> [f64; 7]
    ensures { result ≡ (numbers_in x.now).t }
{
    *x[..].first_chunk::<7>().unwrap()
}
