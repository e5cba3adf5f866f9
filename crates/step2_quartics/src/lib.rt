// position_third_step2.rs: the quartics of the two shapes that try the roots of one. They are solved elsewhere.
#![tactic(auto)]

mod acc0_vel;
mod acc1_vel;

ghost use Rattle.std.specs.Prelude.{◌≡◌};
ghost use Rattle.step2_quartics.specs.Quartics.{no_quartics_of, acc1_vel_quartics_of};
ghost use Rattle.step2_quartics.specs.Quartics.{acc0_vel_quartics_of, the_quartics};

use step2_solver::{Limits, PositionThirdOrderStep2, Shape};

// UDDU's quartic and UDUD's, four coefficients each.
#[derive(Clone, Copy)]
pub struct Quartics {
    pub uddu: [f64; 4],
    pub udud: [f64; 4],
}

fn no_quartics() -> Quartics
    ensures { result ≡ no_quartics_of }
{
    Quartics {
        uddu: [0.0; 4],
        udud: [0.0; 4],
    }
}

// Inlined, like those below: handed over in memory the coefficients cost a line of kinds 06 and 07 some hundredths.
#[inline(always)]
#[tactic(auto, unfolding(crate::specs::Quartics::acc1_vel_quartics_of))]
fn acc1_vel_quartics(s: PositionThirdOrderStep2, l: Limits) -> Quartics
    ensures { result ≡ acc1_vel_quartics_of s l }
{
    Quartics {
        uddu: acc1_vel::uddu_polynom(s, l.a_min, l.j_max),
        udud: acc1_vel::udud_polynom(s, l.a_max, l.j_max),
    }
}

#[inline(always)]
#[tactic(auto, unfolding(crate::specs::Quartics::acc0_vel_quartics_of))]
fn acc0_vel_quartics(s: PositionThirdOrderStep2, l: Limits) -> Quartics
    ensures { result ≡ acc0_vel_quartics_of s l }
{
    let ph1 = acc0_vel::ph1(s, l.a_max, l.j_max);
    Quartics {
        uddu: acc0_vel::uddu_polynom(s, l.a_max, l.j_max, ph1),
        udud: acc0_vel::udud_polynom(s, l.a_max, l.j_max, ph1),
    }
}

// Those of a shape; zeros for a shape that has none.
// Stays: zeros and no Option: `the_quartics` has them, and `ask` takes quartics of any shape.
#[inline(always)]
pub fn quartics_of(shape: Shape, s: PositionThirdOrderStep2, l: Limits) -> Quartics
    ensures { result ≡ the_quartics shape s l }
{
    match shape {
        Shape::Acc1Vel => acc1_vel_quartics(s, l),
        Shape::Acc0Vel => acc0_vel_quartics(s, l),
        Shape::Acc0Acc1Vel | Shape::Acc0Acc1 | Shape::Acc0 | Shape::RestToRest => no_quartics(),
    }
}
