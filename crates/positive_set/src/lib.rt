// The set of roots.rs, `PositiveSet`, with four places; the quartic that fills it is in the crate roots.
#![tactic(auto)]

ghost use Rattle.std.specs.Prelude.{◌≡◌, List, [], ◌∷◌, ◌++◌, ◌≤◌, ◌<◌, length, Float};
ghost use Rattle.positive_set.specs.Set.{held_of, set_of, insert_of, sorted_of};

// Four places and how many of them are in use, from the first one on.
// Stays: an array and a length, no slice: document 01's form, by value and with no heap.
#[derive(Clone, Copy)]
pub struct PositiveSet {
    pub data: [f64; 4],
    pub len: usize,
}

// x joins numbers that are in order, before the first that is not below it: it takes that one's place, each of those
// after it that of the next, and the last one is given back.
fn join(sorted: &mut [f64], x: f64) -> f64
    ensures { (l : List Float) → sorted.old ≡ sorted_of l → sorted.new ++ (result ∷ []) ≡ sorted_of (x ∷ l) }
{
    let mut moved = x;
    for place in sorted.iter_mut() {
        let y = *place;
        if !(y < moved) {
            *place = moved;
            moved = y;
        }
    }
    moved
}

impl PositiveSet {
    // The empty set. A place that is free holds 0.
    pub fn new() -> Self
        ensures { result ≡ set_of [] }
    {
        PositiveSet {
            data: [0.0; 4],
            len: 0,
        }
    }

    // The same numbers with nothing in the places that are free. A length above 4 counts as 4.
    // Stays: a test at each place. Tried: `for place in &mut data[len..]`, which proves; but the compiler makes it a
    // call of memset at each of three places in roots::insert_quadratic, in place of at most four stores.
    fn cut(self) -> Self
        ensures { result ≡ set_of (held_of self) }
    {
        let len = self.len;
        let mut data = self.data;
        for (i, place) in data.iter_mut().enumerate() {
            if i >= len {
                *place = 0.0;
            }
        }
        PositiveSet {
            data,
            len: usize::min(len, 4),
        }
    }

    // A value joins if it is not negative and equals none that is held: -0 joins, and equals 0.
    // A full set stays as it is, where the Rust would panic; the quartic offers four values at most.
    // A length above 4 counts as 4.
    pub fn insert(self, value: f64) -> Self
        ensures { result ≡ set_of (insert_of (held_of self) value) }
    {
        let mut set = self.cut();
        let len = set.len;
        let contains = set.data[..len].contains(&value);
        if (value >= 0.0) & !contains & (len < 4) {
            set.data[len] = value;
            set.len = len + 1;
        }
        set
    }

    // The order of trial: from the smallest to the largest, and equal ones stay in order.
    pub fn sorted(self) -> Self
        ensures { result ≡ set_of (sorted_of (held_of self)) }
    {
        let held = &self.data[..usize::min(self.len, 4)];
        let mut set = PositiveSet::new();
        // the last ones first, then each before them in its place
        for x in held.iter().rev() {
            set = set.with(*x);
        }
        set
    }

    // The set of sorted numbers with one more in its place.
    fn with(self, x: f64) -> Self
        requires { self.len < 4 }
        ensures { (l : List Float) → length l < 4 → self ≡ set_of (sorted_of l) → result ≡ set_of (sorted_of (x ∷ l)) }
    {
        let len = self.len;
        let mut data = self.data;
        let last = join(&mut data[..len], x);
        data[len] = last;
        PositiveSet { data, len: len + 1 }
    }
}
