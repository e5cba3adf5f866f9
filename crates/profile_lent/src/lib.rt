// profile.rs: the functions that change a record which their caller keeps, as the Rust has them with `&mut self`.
// The work is that of `profile`, by value: here the record is read, and what comes back is stored.
// Stays: each beside a function by value, and the checks beside one in place too: document 01 names these forms.
#![tactic(auto)]

ghost use Rattle.std.specs.Prelude.{◌≡◌};
ghost use Rattle.profile.specs.Check.{check_of};
ghost use Rattle.profile.specs.Timing.{timing_of};
ghost use Rattle.profile.specs.Boundary.{boundary_of};

use labels::{ControlSigns, ReachedLimits};
use profile::Profile;

pub fn set_boundary(
    p: &mut Profile,
    p0_new: f64,
    v0_new: f64,
    a0_new: f64,
    pf_new: f64,
    vf_new: f64,
    af_new: f64,
)
    ensures { p.new
        ≡ boundary_of p0_new v0_new a0_new pf_new vf_new af_new p.old }
{
    *p = p.set_boundary(p0_new, v0_new, a0_new, pf_new, vf_new, af_new);
}

pub fn check(
    p: &mut Profile,
    control_signs: ControlSigns,
    limits: ReachedLimits,
    set_limits: bool,
    jf: f64,
    v_max: f64,
    v_min: f64,
    a_max: f64,
    a_min: f64,
) -> bool
    ensures { record { ok = result; profile = p.new } ≡ check_of control_signs limits set_limits
        jf v_max v_min a_max a_min p.old }
{
    let checked = p.check(
        control_signs,
        limits,
        set_limits,
        jf,
        v_max,
        v_min,
        a_max,
        a_min,
    );
    *p = checked.profile;
    checked.ok
}

pub fn check_with_timing(
    p: &mut Profile,
    control_signs: ControlSigns,
    limits: ReachedLimits,
    jf: f64,
    v_max: f64,
    v_min: f64,
    a_max: f64,
    a_min: f64,
    marked: bool,
) -> bool
    ensures { record { ok = result; profile = p.new }
        ≡ timing_of control_signs limits jf v_max v_min a_max a_min marked p.old }
{
    let timed = p.check_with_timing(
        control_signs,
        limits,
        jf,
        v_max,
        v_min,
        a_max,
        a_min,
        marked,
    );
    *p = timed.profile;
    timed.ok
}
