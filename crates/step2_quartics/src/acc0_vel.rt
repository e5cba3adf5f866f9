// position_third_step2.rs, `time_acc0_vel`: the coefficients of its two quartics.
ghost use Rattle.std.specs.Prelude.{◌≡◌};
ghost use Rattle.time_acc0_vel.specs.TimeAcc0Vel.{acc0_vel_ph1, acc0_vel_uddu_polynom, acc0_vel_udud_polynom};

use step2_solver::PositionThirdOrderStep2;

#[tactic(auto, unfolding(time_acc0_vel::specs::TimeAcc0Vel::acc0_vel_ph1))]
pub fn ph1(s: PositionThirdOrderStep2, a_max: f64, j_max: f64) -> f64
    ensures { result ≡ acc0_vel_ph1 s a_max j_max }
{
    12.0 * j_max
        * (-a_max * a_max * s.vd - j_max * s.vd_vd + 2.0 * a_max * j_max * (-s.pd + s.tf * s.vf))
}

#[tactic(auto, unfolding(time_acc0_vel::specs::TimeAcc0Vel::acc0_vel_uddu_polynom))]
pub fn uddu_polynom(s: PositionThirdOrderStep2, a_max: f64, j_max: f64, ph1: f64) -> [f64; 4]
    ensures { result ≡ acc0_vel_uddu_polynom s a_max j_max ph1 }
{
    let polynom0 = (2.0 * a_max) / j_max;
    let polynom1 = (s.a0_a0 - s.af_af
        + 2.0 * s.ad * a_max
        + a_max * a_max
        + 2.0 * j_max * (s.vd - a_max * s.tf))
        / s.j_max_j_max;
    let polynom2 = 0.0;
    let polynom3 = -(-3.0 * (s.a0_p4 + s.af_p4) + 4.0 * (s.af_p3 + 2.0 * s.a0_p3) * a_max
        - 12.0 * s.a0 * a_max * (s.af_af - 2.0 * j_max * s.vd)
        + 6.0 * s.a0_a0 * (s.af_af - a_max * a_max - 2.0 * j_max * s.vd)
        + 6.0 * s.af_af * (a_max * a_max - 2.0 * a_max * j_max * s.tf + 2.0 * j_max * s.vd)
        + ph1)
        / (12.0 * s.j_max_j_max * s.j_max_j_max);
    [polynom0, polynom1, polynom2, polynom3]
}

#[tactic(auto, unfolding(time_acc0_vel::specs::TimeAcc0Vel::acc0_vel_udud_polynom))]
pub fn udud_polynom(s: PositionThirdOrderStep2, a_max: f64, j_max: f64, ph1: f64) -> [f64; 4]
    ensures { result ≡ acc0_vel_udud_polynom s a_max j_max ph1 }
{
    let polynom0 = (-2.0 * a_max) / j_max;
    let polynom1 = -(s.a0_a0 + s.af_af - 2.0 * (s.a0 + s.af) * a_max
        + a_max * a_max
        + 2.0 * j_max * (s.vd - a_max * s.tf))
        / s.j_max_j_max;
    let polynom2 = 0.0;
    let polynom3 = (3.0 * (s.a0_p4 + s.af_p4) - 4.0 * (s.af_p3 + 2.0 * s.a0_p3) * a_max
        + 6.0 * s.a0_a0 * (s.af_af + a_max * a_max + 2.0 * j_max * s.vd)
        - 12.0 * s.a0 * a_max * (s.af_af + 2.0 * j_max * s.vd)
        + 6.0 * s.af_af * (a_max * a_max - 2.0 * a_max * j_max * s.tf + 2.0 * j_max * s.vd)
        - ph1)
        / (12.0 * s.j_max_j_max * s.j_max_j_max);
    [polynom0, polynom1, polynom2, polynom3]
}
