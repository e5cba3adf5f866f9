// An attempt at each root of a quartic, in the roots' order of trial, until one gets a yes; and of two quartics, one
// after the other.
ghost use Rattle.std.specs.Prelude.{◌≡◌, ◌++◌, Float};
ghost use Rattle.profile.specs.Parts.{profile_in, checked_in};
ghost use Rattle.step2_solver.specs.declared.Trial.{Trial};
ghost use Rattle.step2_attempt.specs.Attempt.{tried_of};
ghost use Rattle.step2_over_roots.specs.OverRoots.{over_roots};

use super::RootAnswers;
use labels::Labels;
use profile::in_place::Verdict;
use roots::{RootAnswer, sorted_roots};
use row::NUMBERS;
use step2_attempt::tried;
use step2_quartics::Quartics;
use step2_solver::{Limits, Trial};

pub fn over_roots<F: Fn(f64) -> Trial>(
    attempt: F,
    l: Limits,
    polynom: [f64; 4],
    answer: RootAnswer,
    x: &mut [f64; NUMBERS],
    labels: Labels,
) -> Verdict
    requires { F.IsAlwaysCallable attempt }
    ensures { (trial : Float → Trial) → ((root : Float) (k : Trial) → F.post attempt root k → k ≡ trial root)
        → checked_in x.new result ≡ tried_of l (over_roots trial polynom answer) (profile_in x.old labels) }
{
    let set = sorted_roots(polynom, answer);
    let mut left = labels;
    for &root in &set.data[..set.len] {
        let k = attempt(root);
        let r = tried(k, l, x, left);
        if r.ok {
            return r;
        }
        left = r.labels;
    }
    Verdict {
        ok: false,
        labels: left,
    }
}

// The roots of UDDU's quartic, then those of UDUD's.
pub fn over_both<F: Fn(f64) -> Trial, G: Fn(f64) -> Trial>(
    uddu: F,
    udud: G,
    l: Limits,
    q: Quartics,
    answers: RootAnswers,
    x: &mut [f64; NUMBERS],
    labels: Labels,
) -> Verdict
    requires tries_uddu { F.IsAlwaysCallable uddu }
    requires tries_udud { G.IsAlwaysCallable udud }
    ensures { (f h : Float → Trial) → ((root : Float) (k : Trial) → F.post uddu root k → k ≡ f root)
        → ((root : Float) (k : Trial) → G.post udud root k → k ≡ h root)
        → checked_in x.new result
        ≡ tried_of l (over_roots f q.uddu answers.uddu ++ over_roots h q.udud answers.udud) (profile_in x.old labels) }
{
    let r = over_roots(uddu, l, q.uddu, answers.uddu, x, labels);
    if r.ok {
        return r;
    }
    over_roots(udud, l, q.udud, answers.udud, x, r.labels)
}
