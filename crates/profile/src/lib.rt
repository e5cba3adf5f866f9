// profile.rs: the record of a move, and `check`, which adds up seven phase times.
// Left out of the Rust's `Profile` are `brake` and `accel`, which these functions neither read nor write.
#![tactic(auto)]

pub mod in_place;
mod parts;

ghost use Rattle.std.specs.Prelude.{◌≡◌};
ghost use Rattle.row.specs.Row.{numbers_in};
ghost use Rattle.profile.specs.Parts.{numbers_of, labels_of, profile_in, checked_in};
ghost use Rattle.profile.specs.Check.{check_of};
ghost use Rattle.profile.specs.Boundary.{default_of, boundary_of};
ghost use Rattle.profile.specs.Timing.{timing_of, timing_full_of};

use float::abs;
use in_place::Verdict;
use labels::causes::Cause;
use labels::{ControlSigns, Direction, Labels, ReachedLimits, marked_labels, start_labels};
use parts::part;
use row::{
    A, AF, J, NUMBERS, P, PF, T_SUM, V, VF, set_jerks, set_nodes, set_sums, set_times, start,
};

// J_EPS
const J_EPS: f64 = 1e-12;

#[derive(Clone, Copy)]
pub struct Profile {
    pub t: [f64; 7],
    pub t_sum: [f64; 7],
    pub j: [f64; 7],
    pub a: [f64; 8],
    pub v: [f64; 8],
    pub p: [f64; 8],
    pub pf: f64,
    pub vf: f64,
    pub af: f64,
    pub limits: ReachedLimits,
    pub direction: Direction,
    pub control_signs: ControlSigns,
    pub calls: u8,
    pub cause: Cause,
}

// The verdict of a check, with the record as it leaves it.
// Stays: a flag beside the record, since the record is the Rust's after a no as after a yes (`check_of`).
#[derive(Clone, Copy)]
pub struct Checked {
    pub ok: bool,
    pub profile: Profile,
}

impl Checked {
    // Of a verdict and the row that it leaves.
    pub fn from_row(x: [f64; NUMBERS], answer: Verdict) -> Checked
        ensures { result ≡ checked_in x answer }
    {
        Checked {
            ok: answer.ok,
            profile: Profile::from_row(x, answer.labels),
        }
    }
}

// The record's row is left out.
impl From<Checked> for Verdict {
    ghost from_gives = { λ c v. v ≡ record { ok = c.ok; labels = labels_of c.profile } };

    fn from(checked: Checked) -> Verdict {
        Verdict {
            ok: checked.ok,
            labels: checked.profile.labels(),
        }
    }
}

impl Default for Profile {
    ghost is_default = { λ q. q ≡ default_of };

    #[tactic(auto, unfolding(crate::specs::Parts::profile_in))]
    fn default() -> Profile {
        Profile::from_row(start(0.0, 0.0, 0.0, 0.0, 0.0, 0.0), start_labels())
    }
}

impl Profile {
    // A profile by its row and its labels; `row` and `labels` take one apart. Its fields are named here alone.
    #[tactic(auto, unfolding(crate::specs::Parts::profile_in))]
    pub fn from_row(x: [f64; NUMBERS], labels: Labels) -> Profile
        ensures { result ≡ profile_in x labels }
    {
        Profile {
            t: part(&x, 0),
            t_sum: part(&x, T_SUM),
            j: part(&x, J),
            a: part(&x, A),
            v: part(&x, V),
            p: part(&x, P),
            pf: x[PF],
            vf: x[VF],
            af: x[AF],
            limits: labels.limits,
            direction: labels.direction,
            control_signs: labels.control_signs,
            calls: labels.calls,
            cause: labels.cause,
        }
    }

    pub fn row(self) -> [f64; NUMBERS]
        ensures { numbers_in result ≡ numbers_of self }
    {
        let mut x = start(0.0, 0.0, 0.0, self.pf, self.vf, self.af);
        set_times(&mut x, self.t);
        set_sums(&mut x, self.t_sum);
        set_jerks(&mut x, self.j);
        set_nodes(&mut x, self.a, self.v, self.p);
        x
    }

    pub fn labels(self) -> Labels
        ensures { result ≡ labels_of self }
    {
        Labels {
            limits: self.limits,
            direction: self.direction,
            control_signs: self.control_signs,
            calls: self.calls,
            cause: self.cause,
        }
    }

    #[tactic(auto, unfolding(crate::specs::Boundary::boundary_of))]
    pub fn set_boundary(
        self,
        p0_new: f64,
        v0_new: f64,
        a0_new: f64,
        pf_new: f64,
        vf_new: f64,
        af_new: f64,
    ) -> Profile
        ensures { result ≡ boundary_of p0_new v0_new a0_new pf_new vf_new af_new self }
    {
        let mut next = self;
        next.a[0] = a0_new;
        next.v[0] = v0_new;
        next.p[0] = p0_new;
        next.af = af_new;
        next.vf = vf_new;
        next.pf = pf_new;
        next
    }

    // Stays: jf to a_min one by one, since they are the parameters of the Rust's `check`, in its order.
    #[tactic(auto, using(crate::proofs::Ways::put_together), unfolding(crate::specs::Parts::profile_in))]
    pub fn check(
        self,
        control_signs: ControlSigns,
        limits: ReachedLimits,
        set_limits: bool,
        jf: f64,
        v_max: f64,
        v_min: f64,
        a_max: f64,
        a_min: f64,
    ) -> Checked
        ensures { result
            ≡ check_of control_signs limits set_limits jf v_max v_min a_max a_min self }
    {
        let mut x = self.row();
        let answer = in_place::check(
            &mut x,
            self.labels(),
            control_signs,
            limits,
            set_limits,
            jf,
            v_max,
            v_min,
            a_max,
            a_min,
        );
        Checked::from_row(x, answer)
    }

    #[tactic(auto, using(crate::proofs::Ways::put_together), unfolding(crate::specs::Parts::profile_in))]
    pub fn check_with_timing(
        self,
        control_signs: ControlSigns,
        limits: ReachedLimits,
        jf: f64,
        v_max: f64,
        v_min: f64,
        a_max: f64,
        a_min: f64,
        marked: bool,
    ) -> Checked
        ensures { result ≡ timing_of control_signs limits jf v_max v_min a_max a_min marked self }
    {
        let mut x = self.row();
        let answer = in_place::check_with_timing(
            &mut x,
            self.labels(),
            control_signs,
            limits,
            jf,
            v_max,
            v_min,
            a_max,
            a_min,
            marked,
        );
        Checked::from_row(x, answer)
    }

    // The jerk is held to j_max first. A marked attempt that it keeps from `check` has its cause all the same.
    #[tactic(auto, unfolding(crate::specs::Timing::timing_full_of, crate::specs::Timing::timing_of))]
    pub fn check_with_timing_full(
        self,
        control_signs: ControlSigns,
        limits: ReachedLimits,
        _tf: f64,
        jf: f64,
        v_max: f64,
        v_min: f64,
        a_max: f64,
        a_min: f64,
        j_max: f64,
        marked: bool,
    ) -> Checked
        ensures { result
            ≡ timing_full_of control_signs limits jf v_max v_min a_max a_min j_max marked self }
    {
        if abs(jf) < abs(j_max) + J_EPS {
            self.check_with_timing(
                control_signs,
                limits,
                jf,
                v_max,
                v_min,
                a_max,
                a_min,
                marked,
            )
        } else {
            let left = marked_labels(marked, false, self.labels());
            let answer = Verdict {
                ok: false,
                labels: left,
            };
            Checked::from_row(self.row(), answer)
        }
    }
}
