// position_third_step2.rs, `time_acc1_vel`: the coefficients of its two quartics.
ghost use Rattle.std.specs.Prelude.{◌≡◌};
ghost use Rattle.time_acc1_vel.specs.TimeAcc1Vel.{acc1_vel_uddu_polynom, acc1_vel_udud_polynom};

use step2_solver::PositionThirdOrderStep2;

#[tactic(auto, unfolding(time_acc1_vel::specs::TimeAcc1Vel::acc1_vel_uddu_polynom))]
pub fn uddu_polynom(s: PositionThirdOrderStep2, a_min: f64, j_max: f64) -> [f64; 4]
    ensures { result ≡ acc1_vel_uddu_polynom s a_min j_max }
{
    let ph1 = s.a0_a0 + s.af_af
        - a_min * (s.a0 + 2.0 * s.af - a_min)
        - 2.0 * j_max * (s.vd - a_min * s.tf);
    let ph2 = 2.0 * a_min * (j_max * s.g1 + s.af * s.vd) - a_min * a_min * s.vd + j_max * s.vd_vd;
    let ph3 = s.af_af + a_min * (a_min - 2.0 * s.af) - 2.0 * j_max * (s.vd - a_min * s.tf);
    let polynom0 = (2.0 * (2.0 * s.a0 - a_min)) / j_max;
    let polynom1 = (4.0 * s.a0_a0 + ph1 - 3.0 * s.a0 * a_min) / s.j_max_j_max;
    let polynom2 = (2.0 * s.a0 * ph1) / (s.j_max_j_max * j_max);
    let polynom3 = (3.0 * (s.a0_p4 + s.af_p4) - 4.0 * (s.a0_p3 + 2.0 * s.af_p3) * a_min
        + 6.0 * s.af_af * (a_min * a_min - 2.0 * j_max * s.vd)
        + 12.0 * j_max * ph2
        + 6.0 * s.a0_a0 * ph3)
        / (12.0 * s.j_max_j_max * s.j_max_j_max);
    [polynom0, polynom1, polynom2, polynom3]
}

#[tactic(auto, unfolding(time_acc1_vel::specs::TimeAcc1Vel::acc1_vel_udud_polynom))]
pub fn udud_polynom(s: PositionThirdOrderStep2, a_max: f64, j_max: f64) -> [f64; 4]
    ensures { result ≡ acc1_vel_udud_polynom s a_max j_max }
{
    let ph1 = s.a0_a0 - s.af_af + (2.0 * s.af - s.a0) * a_max
        - a_max * a_max
        - 2.0 * j_max * (s.vd - a_max * s.tf);
    let ph2 = a_max * a_max + 2.0 * j_max * s.vd;
    let ph3 = s.af_af + ph2 - 2.0 * a_max * (s.af + j_max * s.tf);
    let ph4 = 2.0 * a_max * j_max * s.g1 + a_max * a_max * s.vd + j_max * s.vd_vd;
    let polynom0 = (4.0 * s.a0 - 2.0 * a_max) / j_max;
    let polynom1 = (4.0 * s.a0_a0 - 3.0 * s.a0 * a_max + ph1) / s.j_max_j_max;
    let polynom2 = (2.0 * s.a0 * ph1) / (s.j_max_j_max * j_max);
    let polynom3 = (3.0 * (s.a0_p4 + s.af_p4)
        - 4.0 * (s.a0_p3 + 2.0 * s.af_p3) * a_max
        - 24.0 * s.af * a_max * j_max * s.vd
        + 12.0 * j_max * ph4
        - 6.0 * s.a0_a0 * ph3
        + 6.0 * s.af_af * ph2)
        / (12.0 * s.j_max_j_max * s.j_max_j_max);
    [polynom0, polynom1, polynom2, polynom3]
}
