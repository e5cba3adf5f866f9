// What include/siptkvaro.h declares: the two functions of `lines` under the names by which C calls them.
#![tactic(auto)]

// Stays: numbers that are a plain u32, and a count beside the places. This is the C interface; `lines::answered` has
// the `Result` that they are made of.

ghost use Rattle.std.specs.Prelude.{◌≡◌};
ghost use Rattle.lines.specs.Answer.{answer_of, outcome_of};

#[unsafe(no_mangle)]
pub extern "C" fn answer_line(request: &[u8], reply: &mut [u8]) -> u32
    ensures { record { number = result; places = reply.new }
        ≡ answer_of request.now reply.old }
{
    lines::answer_line(request, reply)
}

// The same with the count, for a host that does not know the kinds.
#[unsafe(no_mangle)]
pub extern "C" fn answer_counted(request: &[u8], reply: &mut [u8], filled: &mut usize) -> u32
    ensures { record { number = result; filled = filled.new; places = reply.new }
        ≡ outcome_of request.now reply.old }
{
    lines::answer_counted(request, reply, filled)
}
