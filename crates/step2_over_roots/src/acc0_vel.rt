// The third shape: the first acceleration and the velocity reach their limits.
ghost use Rattle.std.specs.Prelude.{◌≡◌, cond, [], ◌++◌};
ghost use Rattle.profile.specs.Parts.{profile_in, checked_in};
ghost use Rattle.step2_attempt.specs.Attempt.{tried_of};
ghost use Rattle.time_acc0_vel.specs.TimeAcc0Vel.{acc0_vel_too_short, acc0_vel_uddu_window, acc0_vel_uddu};
ghost use Rattle.time_acc0_vel.specs.TimeAcc0Vel.{acc0_vel_udud_window, acc0_vel_udud};
ghost use Rattle.step2_over_roots.specs.OverRoots.{over_roots};

use super::RootAnswers;
use super::over_roots::over_both;
use labels::Labels;
use profile::in_place::Verdict;
use row::NUMBERS;
use step2_quartics::Quartics;
use step2_solver::{Limits, PositionThirdOrderStep2, Window};

// Whether no attempt is made.
#[tactic(auto, unfolding(time_acc0_vel::specs::TimeAcc0Vel::acc0_vel_too_short))]
fn too_short(s: PositionThirdOrderStep2, a_max: f64, j_max: f64) -> bool
    ensures { result ≡ acc0_vel_too_short s a_max j_max }
{
    s.tf < float::max((-s.a0 + a_max) / j_max, 0.0) + float::max(a_max / j_max, 0.0)
}

fn uddu_window(s: PositionThirdOrderStep2, l: Limits) -> Window
    ensures { result ≡ acc0_vel_uddu_window s l }
{
    let t_min = -s.af / l.j_max;
    let t_max = float::min(s.tf - (2.0 * l.a_max - s.a0) / l.j_max, -l.a_min / l.j_max);
    Window { t_min, t_max }
}

fn udud_window(s: PositionThirdOrderStep2, l: Limits) -> Window
    ensures { result ≡ acc0_vel_udud_window s l }
{
    let t_min = s.af / l.j_max;
    let t_max = float::min(s.tf - l.a_max / l.j_max, l.a_max / l.j_max);
    Window { t_min, t_max }
}

pub fn time_acc0_vel(
    s: PositionThirdOrderStep2,
    l: Limits,
    q: Quartics,
    answers: RootAnswers,
    x: &mut [f64; NUMBERS],
    labels: Labels,
) -> Verdict
    ensures { checked_in x.new result
        ≡ tried_of l (cond (acc0_vel_too_short s l.a_max l.j_max) []
        (over_roots (acc0_vel_uddu s l (acc0_vel_uddu_window s l)) q.uddu answers.uddu
        ++ over_roots (acc0_vel_udud s l (acc0_vel_udud_window s l)) q.udud answers.udud))
        (profile_in x.old labels) }
{
    if too_short(s, l.a_max, l.j_max) {
        return Verdict { ok: false, labels };
    }
    let w = uddu_window(s, l);
    let v = udud_window(s, l);
    over_both(
        |root| time_acc0_vel::uddu(s, l, w, root),
        |root| time_acc0_vel::udud(s, l, v, root),
        l,
        q,
        answers,
        x,
        labels,
    )
}
