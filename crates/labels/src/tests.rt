// Which tests `check` makes under each label: the Rust's `matches!` as one table.
ghost use Rattle.std.specs.Prelude.{◌≡◌};
ghost use Rattle.labels.specs.Tests.{tests_of};

use super::ReachedLimits;

#[derive(Clone, Copy)]
pub struct Tests {
    // t[3], t[1], t[5] below EPS refuses
    pub t3: bool,
    pub t1: bool,
    pub t5: bool,
    // a[3] becomes 0
    pub a3: bool,
    // where set_limits is on: a[3] becomes a_min; a[1] becomes a_max and a[5] a_min
    pub set_a3: bool,
    pub set_a1_a5: bool,
}

const NONE: Tests = Tests {
    t3: false,
    t1: false,
    t5: false,
    a3: false,
    set_a3: false,
    set_a1_a5: false,
};

const VEL: Tests = Tests {
    t3: true,
    a3: true,
    ..NONE
};

// A row for each label, in the enum's order.
// A static: as a constant of struct updates it was built on the stack in each call of `check`.
static TESTS: [Tests; 8] = [
    VEL,
    VEL,
    Tests { t1: true, ..NONE },
    Tests {
        t5: true,
        set_a3: true,
        ..NONE
    },
    Tests {
        t1: true,
        t5: true,
        a3: true,
        set_a1_a5: true,
        ..NONE
    },
    VEL,
    VEL,
    NONE,
];

#[tactic(auto, unfolding(crate::specs::Tests::tests_of))]
pub fn tests_under(limits: ReachedLimits) -> Tests
    ensures { result ≡ tests_of limits }
{
    TESTS[limits as usize]
}
