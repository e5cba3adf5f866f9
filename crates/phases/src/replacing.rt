// What the label puts in the place of an acceleration that a phase ends with.
ghost use Rattle.std.specs.Prelude.{◌≡◌};
ghost use Rattle.phases.specs.Phase.{replaced_of};

use float::pick;
use labels::tests::Tests;

#[derive(Clone, Copy)]
pub struct Replacing {
    pub tests: Tests,
    pub set_limits: bool,
    pub a_max: f64,
    pub a_min: f64,
}

impl Replacing {
    // The acceleration a after phase i.
    #[tactic(auto, unfolding(crate::specs::Phase::replaced_of))]
    pub fn replaced(self, i: usize, a: f64) -> f64
        ensures { result ≡ replaced_of self.tests self.set_limits self.a_max self.a_min i a }
    {
        let x = pick(self.tests.a3 & (i == 2), 0.0, a);
        let y = pick(
            self.set_limits & self.tests.set_a3 & (i == 2),
            self.a_min,
            x,
        );
        let z = pick(
            self.set_limits & self.tests.set_a1_a5 & (i == 0),
            self.a_max,
            y,
        );
        pick(
            self.set_limits & self.tests.set_a1_a5 & (i == 4),
            self.a_min,
            z,
        )
    }
}
