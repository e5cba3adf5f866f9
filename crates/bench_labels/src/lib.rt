// The verdict and the labels in one number, for a caller that has no enums.
#![tactic(auto)]

ghost use Rattle.std.specs.Prelude.{◌≡◌};
ghost use Rattle.bench_labels.specs.Codes.{answer_number_of};

use profile::in_place::Verdict;

pub fn answer_number(answer: Verdict) -> u32
    ensures { result ≡ answer_number_of answer }
{
    let labels = answer.labels;
    u32::from(answer.ok)
        + 2 * u32::from(u8::from(labels.direction))
        + 4 * u32::from(u8::from(labels.control_signs))
        + 8 * u32::from(u8::from(labels.limits))
}
