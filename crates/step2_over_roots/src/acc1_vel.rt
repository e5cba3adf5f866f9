// The second shape: the second acceleration and the velocity reach their limits.
ghost use Rattle.std.specs.Prelude.{◌≡◌, ◌++◌};
ghost use Rattle.profile.specs.Parts.{profile_in, checked_in};
ghost use Rattle.step2_attempt.specs.Attempt.{tried_of};
ghost use Rattle.time_acc1_vel.specs.TimeAcc1Vel.{acc1_vel_uddu_window, acc1_vel_uddu};
ghost use Rattle.time_acc1_vel.specs.TimeAcc1Vel.{acc1_vel_udud_window, acc1_vel_udud};
ghost use Rattle.step2_over_roots.specs.OverRoots.{over_roots};

use super::RootAnswers;
use super::over_roots::over_both;
use labels::Labels;
use profile::in_place::Verdict;
use row::NUMBERS;
use step2_quartics::Quartics;
use step2_solver::{Limits, PositionThirdOrderStep2, Window};

fn uddu_window(s: PositionThirdOrderStep2, l: Limits) -> Window
    ensures { result ≡ acc1_vel_uddu_window s l }
{
    let t_min = -s.a0 / l.j_max;
    let t_max = float::min(
        (s.tf + 2.0 * l.a_min / l.j_max - (s.a0 + s.af) / l.j_max) / 2.0,
        (l.a_max - s.a0) / l.j_max,
    );
    Window { t_min, t_max }
}

fn udud_window(s: PositionThirdOrderStep2, l: Limits) -> Window
    ensures { result ≡ acc1_vel_udud_window s l }
{
    let t_min = -s.a0 / l.j_max;
    let t_max = float::min(
        (s.tf + s.ad / l.j_max - 2.0 * l.a_max / l.j_max) / 2.0,
        (l.a_max - s.a0) / l.j_max,
    );
    Window { t_min, t_max }
}

pub fn time_acc1_vel(
    s: PositionThirdOrderStep2,
    l: Limits,
    q: Quartics,
    answers: RootAnswers,
    x: &mut [f64; NUMBERS],
    labels: Labels,
) -> Verdict
    ensures { checked_in x.new result
        ≡ tried_of l (over_roots (acc1_vel_uddu s l (acc1_vel_uddu_window s l)) q.uddu answers.uddu
        ++ over_roots (acc1_vel_udud s l (acc1_vel_udud_window s l)) q.udud answers.udud)
        (profile_in x.old labels) }
{
    let w = uddu_window(s, l);
    let v = udud_window(s, l);
    over_both(
        |root| time_acc1_vel::uddu(s, l, w, root),
        |root| time_acc1_vel::udud(s, l, v, root),
        l,
        q,
        answers,
        x,
        labels,
    )
}
