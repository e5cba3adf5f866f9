// The questions to a line, each a function of its own. Which of them a kind is asked, and in which order,
// is `questions_of`.
#![tactic(auto)]

ghost use Rattle.std.specs.Prelude.{◌≡◌};
ghost use Rattle.line_frame.specs.Frame.{byte_at};
ghost use Rattle.line_questions.specs.Suits.{suits, need_of_quartic, both_suit_of};
ghost use Rattle.line_questions.specs.Questions.{length_fits_of, choices_fit_of, counts_fit_of, counts_suit_of};

use line_kinds::{FRAME, LINE, takes_roots};
use roots::{Need, quartic_need};
use step2_quartics::Quartics;
use step2_solver::Shape;

// Question 1, of the count of characters.
pub fn length_fits(n: usize) -> bool
    ensures { result ≡ length_fits_of n }
{
    (n % 2 == 0) & (2 <= n) & (n <= LINE)
}

// Question 5 of kind 00: signs, label, set_limits.
pub fn choices_fit(frame: &[u8; FRAME]) -> bool
    ensures { result ≡ choices_fit_of (byte_at frame.now) }
{
    (frame[1] <= 1) & (frame[2] <= 7) & (frame[3] <= 1)
}

// Question 5 of a shape: the counts of its root answers, where it has some.
#[tactic(auto, unfolding(crate::specs::Questions::counts_fit_of))]
pub fn counts_fit(shape: Shape, frame: &[u8; FRAME]) -> bool
    ensures { result ≡ counts_fit_of shape (byte_at frame.now) }
{
    if takes_roots(shape) {
        (frame[97] <= 3) & (frame[122] <= 3)
    } else {
        true
    }
}

fn count_suits(need: Need, count: u8) -> bool
    ensures { result ≡ suits need count }
{
    match need {
        Need::Nothing => true,
        Need::Cube => count == 0,
        Need::Resolvent => (1 <= count) & (count <= 3),
    }
}

fn need_of(p: [f64; 4]) -> Need
    ensures { result ≡ need_of_quartic p }
{
    quartic_need(p[0], p[1], p[2], p[3])
}

#[tactic(auto, unfolding(crate::specs::Suits::both_suit_of))]
fn both_suit(q: Quartics, uddu_count: u8, udud_count: u8) -> bool
    ensures { result ≡ both_suit_of q uddu_count udud_count }
{
    count_suits(need_of(q.uddu), uddu_count) & count_suits(need_of(q.udud), udud_count)
}

// Question 7: each count suits its quartic. Both are tested, also where the Rust stops earlier.
#[tactic(auto, unfolding(crate::specs::Questions::counts_suit_of))]
pub fn counts_suit(shape: Shape, q: Quartics, frame: &[u8; FRAME]) -> bool
    ensures { result ≡ counts_suit_of shape q (byte_at frame.now) }
{
    if takes_roots(shape) {
        both_suit(q, frame[97], frame[122])
    } else {
        true
    }
}
