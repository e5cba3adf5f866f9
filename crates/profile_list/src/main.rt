// Functions of `profile`, `profile_lent` and `float` that no line reaches, on a stored list. A line is the bytes of a
// kind 00 frame with j_max and tf after them, its first byte saying what is called: 00 the three lent functions one
// after the other, 01 `check_with_timing`, 02 `check_with_timing_full`; or 03 and a number, for `is_finite`.
// 04, 05 and 06 are 00, 01 and 02 with the mark of a square root that does not exist; `check` itself takes no mark.
// A record is answered with the count of its calls of `check` and the cause of the last one after it.
// The list is made by oracle/lists.sh, seed 1, with what the Rust answers.
#![tactic(auto)]

use digits::{byte_to_digits, from_digits, read_line};
use float::is_finite;
use hex_bytes::decode;
use labels::{ControlSigns, ReachedLimits};
use line_frame::{CheckNumbers, check_numbers};
use line_kinds::{CAUSES, FRAME};
use line_reply::write_causes;
use profile::in_place::Verdict;
use profile::{Checked, Profile};
use std::io;
use std::io::{Read, Write};

// What is called for a frame.
#[derive(Clone, Copy)]
enum Function {
    // The three lent functions, one after the other.
    Lent,
    CheckWithTiming,
    CheckWithTimingFull,
}

// What a line's first byte says.
#[derive(Clone, Copy)]
enum Call {
    IsFinite,
    OfFrame { function: Function, marked: bool },
}

// A first byte that says nothing.
struct NoCall;

impl TryFrom<u8> for Call {
    type Error = NoCall;

    fn try_from(number: u8) -> Result<Call, NoCall> {
        let function = match number {
            0 | 4 => Function::Lent,
            1 | 5 => Function::CheckWithTiming,
            2 | 6 => Function::CheckWithTimingFull,
            3 => return Ok(Call::IsFinite),
            _ => return Err(NoCall),
        };
        let marked = number >= 4;
        Ok(Call::OfFrame { function, marked })
    }
}

// The rest of a line but for its line feed.
#[derive(Clone, Copy)]
struct Rest {
    frame: [u8; FRAME],
    j_max: f64,
    tf: f64,
}

// Stays: moves_list's `send_causes` once more, since a public function for it would have nothing to promise, as with
// the loop of `main`.
fn send_record(output: &mut impl Write, c: Checked) -> io::Result<()> {
    let mut reply = [0u8; CAUSES];
    write_causes(&mut reply, Verdict::from(c), &c.profile.row());
    output.write_all(&reply)
}

// What `check` answers and leaves, and what `check_with_timing` then makes of the record that was left.
// The one function that makes a reference to a record.
fn lent(frame: &[u8; FRAME], x: CheckNumbers, marked: bool) -> [Checked; 2] {
    let control_signs = ControlSigns::from(frame[1]);
    let limits = ReachedLimits::from(frame[2]);
    let mut p = timed(x);
    profile_lent::set_boundary(&mut p, x.p0, x.v0, x.a0, x.pf, x.vf, x.af);
    let ok = profile_lent::check(
        &mut p,
        control_signs,
        limits,
        frame[3] == 1,
        x.jf,
        x.v_max,
        x.v_min,
        x.a_max,
        x.a_min,
    );
    let first = Checked { ok, profile: p };
    let ok = profile_lent::check_with_timing(
        &mut p,
        control_signs,
        limits,
        x.jf,
        x.v_max,
        x.v_min,
        x.a_max,
        x.a_min,
        marked,
    );
    [first, Checked { ok, profile: p }]
}

// A default record with the times of a line.
fn timed(x: CheckNumbers) -> Profile {
    let mut q = Profile::default();
    // Stays: an array that is stored in a field goes through a variable, or the check does not cover the function.
    let t = x.t;
    q.t = t;
    q
}

fn send_lent(
    output: &mut impl Write,
    frame: &[u8; FRAME],
    x: CheckNumbers,
    marked: bool,
) -> io::Result<()> {
    for c in lent(frame, x, marked) {
        send_record(output, c)?;
    }
    Ok(())
}

fn bounded(x: CheckNumbers) -> Profile {
    timed(x).set_boundary(x.p0, x.v0, x.a0, x.pf, x.vf, x.af)
}

fn with_timing(frame: &[u8; FRAME], x: CheckNumbers, marked: bool) -> Checked {
    bounded(x).check_with_timing(
        ControlSigns::from(frame[1]),
        ReachedLimits::from(frame[2]),
        x.jf,
        x.v_max,
        x.v_min,
        x.a_max,
        x.a_min,
        marked,
    )
}

fn with_timing_full(
    frame: &[u8; FRAME],
    x: CheckNumbers,
    tf: f64,
    j_max: f64,
    marked: bool,
) -> Checked {
    bounded(x).check_with_timing_full(
        ControlSigns::from(frame[1]),
        ReachedLimits::from(frame[2]),
        tf,
        x.jf,
        x.v_max,
        x.v_min,
        x.a_max,
        x.a_min,
        j_max,
        marked,
    )
}

fn send_reply(
    output: &mut impl Write,
    function: Function,
    marked: bool,
    rest: &Rest,
) -> io::Result<()> {
    let frame = &rest.frame;
    let x = check_numbers(frame).unwrap_or_default();
    match function {
        Function::Lent => send_lent(output, frame, x, marked),
        Function::CheckWithTiming => send_record(output, with_timing(frame, x, marked)),
        Function::CheckWithTimingFull => send_record(
            output,
            with_timing_full(frame, x, rest.tf, rest.j_max, marked),
        ),
    }
}

// The rest of a line after its first byte: the other bytes of the frame; j_max, tf and a line feed.
fn read_rest(input: &mut impl Read) -> io::Result<Option<Rest>> {
    let mut line = [0u8; 294];
    if !read_line(input, &mut line)? {
        return Ok(None);
    }
    let mut after = [0u8; 33];
    if !read_line(input, &mut after)? {
        return Ok(None);
    }
    Ok(rest_of(&line, &after))
}

fn rest_of(line: &[u8; 294], after: &[u8; 33]) -> Option<Rest> {
    let mut frame = [0u8; FRAME];
    let j_max = from_digits(after, 0)?;
    let tf = from_digits(after, 16)?;
    if !decode(line, &mut frame[1..]) {
        return None;
    }
    Some(Rest { frame, j_max, tf })
}

fn answer_frame(
    input: &mut impl Read,
    output: &mut impl Write,
    function: Function,
    marked: bool,
) -> io::Result<bool> {
    let Some(rest) = read_rest(input)? else {
        return Ok(false);
    };
    send_reply(output, function, marked, &rest)?;
    Ok(true)
}

// The rest of a line that says nothing is read all the same.
fn answer_none(input: &mut impl Read) -> io::Result<bool> {
    read_rest(input)?;
    Ok(false)
}

fn answer_finite(input: &mut impl Read, output: &mut impl Write) -> io::Result<bool> {
    let mut line = [0u8; 17];
    if !read_line(input, &mut line)? {
        return Ok(false);
    }
    let Some(x) = from_digits(&line, 0) else {
        return Ok(false);
    };
    output.write_all(&byte_to_digits(u8::from(is_finite(x))))?;
    Ok(true)
}

// Answers one line, and whether there was one.
fn answer_line(input: &mut impl Read, output: &mut impl Write) -> io::Result<bool> {
    let mut first = [0u8; 2];
    if !read_line(input, &mut first)? {
        return Ok(false);
    }
    let mut what = [0u8; 1];
    if !decode(&first, &mut what) {
        return Ok(false);
    }
    let answered = match Call::try_from(what[0]) {
        Ok(Call::IsFinite) => answer_finite(input, output)?,
        Ok(Call::OfFrame { function, marked }) => answer_frame(input, output, function, marked)?,
        Err(NoCall) => answer_none(input)?,
    };
    output.write_all(b"\n")?;
    Ok(answered)
}

// The list is shorter than the count of turns, which is there so that the loop is seen to end.
// Stays: the same loop in five programs, since each function of a library promises its result, and of these turns
// nothing could be promised.
fn main(rt: HostRuntime) -> io::Result<()> {
    let mut input = rt.stdin();
    let mut output = rt.stdout();
    for _ in 0..u64::MAX {
        if !answer_line(&mut input, &mut output)? {
            break;
        }
    }
    Ok(())
}
