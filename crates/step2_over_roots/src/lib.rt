// position_third_step2.rs: the two shapes that try the roots of quartics, on a profile's lent row.
#![tactic(auto)]

pub mod acc0_vel;
pub mod acc1_vel;
mod over_roots;

use roots::RootAnswer;

// The root answers for UDDU's quartic and for UDUD's.
#[derive(Clone, Copy)]
pub struct RootAnswers {
    pub uddu: RootAnswer,
    pub udud: RootAnswer,
}
