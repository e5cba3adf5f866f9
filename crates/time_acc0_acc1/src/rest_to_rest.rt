// Document 02, Paper 4: a t[1] for the rest formula that is the motion's.

ghost use Rattle.std.specs.Prelude.{◌≡◌};
ghost use Rattle.time_acc0_acc1.specs.RestToRest.{rest_to_rest_t1};

use step2_solver::PositionThirdOrderStep2;

#[tactic(auto, unfolding(crate::specs::RestToRest::rest_to_rest_t1))]
pub fn t1(s: PositionThirdOrderStep2, a_max: f64, a_min: f64, jf: f64) -> f64
    ensures { result ≡ rest_to_rest_t1 s a_max a_min jf }
{
    (jf * (s.vd - a_min * s.tf) - (a_max - a_min) * (a_max - a_min)) / ((a_max - a_min) * jf)
}
