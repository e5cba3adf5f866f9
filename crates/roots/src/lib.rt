// The quartic of roots.rs, x^4 + a x^3 + b x^2 + c x + d: its roots that are not negative. The set is in positive_set.
// Its cube root and the roots of its resolvent are worked out elsewhere and handed in as a `RootAnswer`.
#![tactic(auto)]

ghost use Rattle.std.specs.Prelude.{◌≡◌, List, [], ◌≤◌, length, Float};
ghost use Rattle.positive_set.specs.Set.{set_of, insert_all_of, sorted_of};
ghost use Rattle.roots.specs.Quartic.{small_of, need_of, need_number_of, resolvent_of, chosen_of, larger_of};
ghost use Rattle.roots.specs.Quartic.{factors_of, quadratic_of, without_cd_of, with_cbrt_of, resolved_of};
ghost use Rattle.roots.specs.Quartic.{roots_of, polynom_roots_of};

use float::{abs, near, pick};
use positive_set::PositiveSet;
use sqrt::sqrt_unmarked;

// The Rust's sixteenfold of its EPSILON.
const EPS_M_BY_16: f64 = 16.0 * f64::EPSILON;

// The resolvent's three arguments or its three values.
// Stays: three fields, no array: document 01's form, a struct of three floats.
#[derive(Clone, Copy)]
pub struct Three {
    pub x0: f64,
    pub x1: f64,
    pub x2: f64,
}

// What is handed in: the cube root of c, or what `solve_resolvent` answers, its count and its values.
#[derive(Clone, Copy)]
pub enum RootAnswer {
    CubeRoot(f64),
    Resolved(u8, Three),
}

// What a quartic needs to be handed in.
// Stays: Nothing among the needs, no Option of one: a reply has its number 0 like the others' (`need_number_of`).
#[derive(Clone, Copy)]
pub enum Need {
    Nothing,
    Cube,
    Resolvent,
}

// The quartic as (x^2 + p1 x + q1) (x^2 + p2 x + q2).
#[derive(Clone, Copy)]
struct Factors {
    p1: f64,
    q1: f64,
    p2: f64,
    q2: f64,
}

// Whether x counts as 0.
fn small(x: f64) -> bool
    ensures { result ≡ small_of x }
{
    near(x, f64::EPSILON)
}

// What has to be handed in for a quartic.
// Stays: a, b, c, d one by one, here and below, since this and `resolvent_arguments` are public with clauses that name
// them (`need_of a b c d`), and each formula names them, as in the Rust.
#[tactic(auto, using(crate::proofs::Needs::d_alone), unfolding(crate::specs::Quartic::need_of))]
pub fn quartic_need(a: f64, b: f64, c: f64, d: f64) -> Need
    ensures { result ≡ need_of a b c d }
{
    if small(d) {
        if small(c) {
            return Need::Nothing;
        }
        if small(a) & small(b) {
            return Need::Cube;
        }
    }
    Need::Resolvent
}

// The byte that stands for a need on a line.
impl From<Need> for u8 {
    ghost from_gives = { λ need byte. byte ≡ need_number_of need };

    fn from(need: Need) -> u8 {
        need as u8
    }
}

// What `solve_resolvent` is to be asked, worked out whether or not it is needed.
pub fn resolvent_arguments(a: f64, b: f64, c: f64, d: f64) -> Three
    ensures { result ≡ resolvent_of a b c d }
{
    let a_squared = a * a;
    let four_b = 4.0 * b;
    Three {
        x0: -b,
        x1: a * c - 4.0 * d,
        x2: -a_squared * d - c * c + four_b * d,
    }
}

// x where its size is above that of y, else y.
fn larger(y: f64, x: f64) -> f64
    ensures { result ≡ larger_of y x }
{
    pick(abs(x) > abs(y), x, y)
}

// Y with maximal absolute value.
fn chosen(number_zeroes: u8, x3: Three) -> f64
    ensures { result ≡ chosen_of number_zeroes x3 }
{
    pick(
        number_zeroes == 1,
        x3.x0,
        larger(larger(x3.x0, x3.x1), x3.x2),
    )
}

// The two factors, by a root y of the resolvent.
#[tactic(auto, unfolding(crate::specs::Quartic::factors_of))]
fn factor(a: f64, b: f64, c: f64, d: f64, y: f64) -> Factors
    ensures { result ≡ factors_of a b c d y }
{
    let mut d_ = y * y - 4.0 * d;
    if small(d_) {
        let q = y / 2.0;
        d_ = a * a - 4.0 * (b - y);
        if small(d_) {
            let p = a / 2.0;
            Factors {
                p1: p,
                q1: q,
                p2: p,
                q2: q,
            }
        } else {
            let sqrt_d = sqrt_unmarked(d_);
            Factors {
                p1: (a + sqrt_d) / 2.0,
                q1: q,
                p2: (a - sqrt_d) / 2.0,
                q2: q,
            }
        }
    } else {
        let sqrt_d = sqrt_unmarked(d_);
        let q1 = (y + sqrt_d) / 2.0;
        let q2 = (y - sqrt_d) / 2.0;
        Factors {
            p1: (a * q1 - c) / (q1 - q2),
            q1,
            p2: (c - a * q2) / (q1 - q2),
            q2,
        }
    }
}

// The roots of x^2 + p x + q go into the set; a discriminant below eps in size counts as 0.
fn insert_quadratic(roots: PositiveSet, p: f64, q: f64, eps: f64) -> PositiveSet
    ensures { (l : List Float) → length l ≤ 4 → roots ≡ set_of l
        → result ≡ set_of (insert_all_of l (quadratic_of eps p q)) }
{
    let d_ = p * p - 4.0 * q;
    if near(d_, eps) {
        roots.insert(-p / 2.0)
    } else if d_ > 0.0 {
        let sqrt_d = sqrt_unmarked(d_);
        roots
            .insert((-p - sqrt_d) / 2.0)
            .insert((-p + sqrt_d) / 2.0)
    } else {
        roots
    }
}

// c and d count as 0: x^2 (x^2 + a x + b).
fn solve_without_cd(a: f64, b: f64) -> PositiveSet
    ensures { result ≡ set_of (insert_all_of [] (without_cd_of a b)) }
{
    insert_quadratic(PositiveSet::new().insert(0.0), a, b, f64::EPSILON)
}

// Only c is left: x (x^3 + c).
fn solve_with_cbrt(cbrt: f64) -> PositiveSet
    ensures { result ≡ set_of (insert_all_of [] (with_cbrt_of cbrt)) }
{
    PositiveSet::new().insert(0.0).insert(-cbrt)
}

// By the resolvent's roots.
fn solve_resolved(a: f64, b: f64, c: f64, d: f64, number_zeroes: u8, x3: Three) -> PositiveSet
    ensures { result ≡ set_of (insert_all_of [] (resolved_of a b c d number_zeroes x3)) }
{
    let f = factor(a, b, c, d, chosen(number_zeroes, x3));
    let roots = insert_quadratic(PositiveSet::new(), f.p1, f.q1, EPS_M_BY_16);
    insert_quadratic(roots, f.p2, f.q2, EPS_M_BY_16)
}

#[tactic(auto, using(crate::proofs::Needs::branches), unfolding(crate::specs::Quartic::offered_of))]
fn solve_quart_monic_coeffs(a: f64, b: f64, c: f64, d: f64, answer: RootAnswer) -> PositiveSet
    ensures { result ≡ set_of (roots_of a b c d answer) }
{
    match (quartic_need(a, b, c, d), answer) {
        (Need::Nothing, _) => solve_without_cd(a, b),
        (Need::Cube, RootAnswer::CubeRoot(cbrt)) => solve_with_cbrt(cbrt),
        (Need::Resolvent, RootAnswer::Resolved(number_zeroes, x3)) => {
            solve_resolved(a, b, c, d, number_zeroes, x3)
        }
        // an answer that does not suit the need
        (Need::Cube, RootAnswer::Resolved(_, _)) => PositiveSet::new(),
        (Need::Resolvent, RootAnswer::CubeRoot(_)) => PositiveSet::new(),
    }
}

// The roots that are not negative, in the order in which they were found.
// An answer that does not suit the need gives none.
pub fn solve_quart_monic_arr(polynom: [f64; 4], answer: RootAnswer) -> PositiveSet
    ensures { result ≡ set_of (polynom_roots_of polynom answer) }
{
    solve_quart_monic_coeffs(polynom[0], polynom[1], polynom[2], polynom[3], answer)
}

// The same roots in the order in which the shapes try them, from the smallest on.
pub fn sorted_roots(polynom: [f64; 4], answer: RootAnswer) -> PositiveSet
    ensures { result ≡ set_of (sorted_of (polynom_roots_of polynom answer)) }
{
    solve_quart_monic_arr(polynom, answer).sorted()
}
