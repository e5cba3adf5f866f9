// The sign of the jerk in each phase, and the seven jerks.
#![tactic(auto)]

ghost use Rattle.std.specs.Prelude.{◌≡◌};
ghost use Rattle.jerks.specs.Jerks.{pattern_of, signed_of, jerk_of, jerks_of};

use float::pick;
use labels::ControlSigns;

#[derive(Clone, Copy)]
pub enum Sign {
    Plus,
    Zero,
    Minus,
}

const SIGNS: [[Sign; 7]; 2] = [
    [
        Sign::Plus,
        Sign::Zero,
        Sign::Minus,
        Sign::Zero,
        Sign::Minus,
        Sign::Zero,
        Sign::Plus,
    ],
    [
        Sign::Plus,
        Sign::Zero,
        Sign::Minus,
        Sign::Zero,
        Sign::Plus,
        Sign::Zero,
        Sign::Minus,
    ],
];

// The seven signs of a pattern.
fn pattern(control_signs: ControlSigns) -> [Sign; 7]
    ensures { result ≡ pattern_of control_signs }
{
    SIGNS[control_signs as usize]
}

fn signed(s: Sign, jf: f64) -> f64
    ensures { result ≡ signed_of s jf }
{
    match s {
        Sign::Plus => jf,
        Sign::Zero => 0.0,
        Sign::Minus => -jf,
    }
}

// A phase whose time is not above 0, NaN included, has jerk 0.
fn jerk(s: Sign, t: f64, jf: f64) -> f64
    ensures { result ≡ jerk_of s t jf }
{
    pick(t > 0.0, signed(s, jf), 0.0)
}

// Stays: seven calls, no plainer by `array::from_fn(|i| jerk(row[i], t[i], jf))`: of that neither `search` nor `grind`
// finds `jerks_of`, and it would need a proof by hand where these need none.
#[tactic(auto, unfolding(crate::specs::Jerks::jerks_of))]
pub fn jerks(control_signs: ControlSigns, t: [f64; 7], jf: f64) -> [f64; 7]
    ensures { result ≡ jerks_of control_signs t jf }
{
    let row = pattern(control_signs);
    [
        jerk(row[0], t[0], jf),
        jerk(row[1], t[1], jf),
        jerk(row[2], t[2], jf),
        jerk(row[3], t[3], jf),
        jerk(row[4], t[4], jf),
        jerk(row[5], t[5], jf),
        jerk(row[6], t[6], jf),
    ]
}
