// The limits that `check` compares with, widened by V_EPS and A_EPS; and its tests at the end, of the goal and limits.
#![tactic(auto)]

ghost use Rattle.std.specs.Prelude.{◌≡◌};
ghost use Rattle.row.specs.Row.{numbers_in};
ghost use Rattle.labels.specs.Causes.{cause_of};
ghost use Rattle.limits.specs.Limits.{direction_of, band_of, within_of, accelerations_kept_of, velocities_kept_of};
ghost use Rattle.limits.specs.Limits.{five_tests, end_tests};

use float::{near, pick};
use labels::Direction;
use labels::causes::Cause;
use row::{A, AF, NUMBERS, P, PF, V, VF};

// V_EPS and A_EPS
const EPS: f64 = 1e-12;

const P_PRECISION: f64 = 1e-8;

const V_PRECISION: f64 = 1e-8;

const A_PRECISION: f64 = 1e-10;

#[derive(Clone, Copy)]
pub struct Band {
    pub low: f64,
    pub upp: f64,
}

pub fn direction(v_max: f64) -> Direction
    ensures { result ≡ direction_of v_max }
{
    if v_max > 0.0 {
        Direction::UP
    } else {
        Direction::DOWN
    }
}

#[tactic(auto, unfolding(crate::specs::Limits::band_of))]
pub fn widened(v_max: f64, max: f64, min: f64) -> Band
    ensures { result ≡ band_of v_max max min }
{
    let up = v_max > 0.0;
    Band {
        low: pick(up, min, max) - EPS,
        upp: pick(up, max, min) + EPS,
    }
}

fn within(x: f64, band: Band) -> bool
    ensures { result ≡ within_of x band }
{
    (x >= band.low) & (x <= band.upp)
}

#[tactic(auto, using(row::proofs::Rows::part_at), unfolding(crate::specs::Limits::accelerations_kept_of))]
fn accelerations_kept(x: &[f64; NUMBERS], band: Band) -> bool
    ensures { result ≡ accelerations_kept_of (numbers_in x.now).nodes band }
{
    within(x[A + 1], band) & within(x[A + 3], band) & within(x[A + 5], band)
}

#[tactic(auto, using(row::proofs::Rows::part_at), unfolding(crate::specs::Limits::velocities_kept_of))]
fn velocities_kept(x: &[f64; NUMBERS], band: Band) -> bool
    ensures { result ≡ velocities_kept_of (numbers_in x.now).nodes band }
{
    within(x[V + 3], band)
        & within(x[V + 4], band)
        & within(x[V + 5], band)
        & within(x[V + 6], band)
}

// All are looked at before any is told from the others: most moves that get here pass.
// Stays: written out, like `first_short` of phases: over an array of tests and causes they would be told from the
// others one by one, which took a line up to one in a hundred longer (docs/DECISIONS.md, 'Causes').
fn first_failing(p: bool, v: bool, a: bool, a_kept: bool, v_kept: bool) -> Cause
    ensures { result ≡ cause_of (five_tests p v a a_kept v_kept) }
{
    if p & v & a & a_kept & v_kept {
        return Cause::Yes;
    }
    if !p {
        return Cause::EndPosition;
    }
    if !v {
        return Cause::EndVelocity;
    }
    if !a {
        return Cause::EndAcceleration;
    }
    if !a_kept {
        return Cause::AccelerationLimit;
    }
    Cause::VelocityLimit
}

// The cause of the first test at the end that fails.
#[tactic(auto, using(row::proofs::Rows::part_at), unfolding(crate::specs::Limits::end_tests))]
pub fn ended(x: &[f64; NUMBERS], a_band: Band, v_band: Band) -> Cause
    ensures { result ≡ cause_of (end_tests (numbers_in x.now).nodes (numbers_in x.now).goal
        a_band v_band) }
{
    first_failing(
        near(x[P + 7] - x[PF], P_PRECISION),
        near(x[V + 7] - x[VF], V_PRECISION),
        near(x[A + 7] - x[AF], A_PRECISION),
        accelerations_kept(x, a_band),
        velocities_kept(x, v_band),
    )
}
