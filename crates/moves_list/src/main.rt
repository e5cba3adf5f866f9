// `check`, the shapes and their quartics by value, on a stored list of accepted lines, kinds 00 to 07 of document 01
// and 08 and 11 to 15 of document 02: the reply of each. The list is made by oracle/lists.sh, seed 1: its lists kind00,
// shapes, causes and rest, one after the other, with the oracle's replies.
#![tactic(auto)]

use digits::read_line;
use hex_bytes::decode;
use labels::{ControlSigns, ReachedLimits};
use line_frame::{CheckNumbers, check_numbers, first_answer, move_numbers, second_answer};
use line_kinds::{Asks, CAUSES, FRAME, LINE, QUARTICS, RECORD, row_of};
use line_reply::{write_causes, write_quartics, write_record};
use position_third_step2::{
    time_acc0, time_acc0_acc1, time_acc0_acc1_vel, time_acc0_vel, time_acc1_vel, time_rest_to_rest,
};
use profile::in_place::Verdict;
use profile::{Checked, Profile};
use std::io;
use std::io::{Read, Write};
use step2_quartics::quartics_of;
use step2_solver::{Move, Shape};

// Stays: `send_record` and `send_causes` of three lines each. One function of a size N and of what writes is proved
// too, but is no plainer: it needs two type parameters, the row's type written out, and two `requires`, a bound on N
// and that what writes may always be called.
fn send_record(output: &mut impl Write, c: Checked) -> io::Result<()> {
    let mut reply = [0u8; RECORD];
    write_record(&mut reply, Verdict::from(c), &c.profile.row());
    output.write_all(&reply)
}

fn send_causes(output: &mut impl Write, c: Checked) -> io::Result<()> {
    let mut reply = [0u8; CAUSES];
    write_causes(&mut reply, Verdict::from(c), &c.profile.row());
    output.write_all(&reply)
}

fn send_quartics(output: &mut impl Write, shape: Shape, x: Move) -> io::Result<()> {
    let q = quartics_of(shape, x.solver(), x.limits());
    let mut reply = [0u8; QUARTICS];
    write_quartics(&mut reply, q.uddu, q.udud);
    output.write_all(&reply)
}

fn checked(frame: &[u8; FRAME], x: CheckNumbers) -> Checked {
    let mut q = Profile::default().set_boundary(x.p0, x.v0, x.a0, x.pf, x.vf, x.af);
    // Stays: an array that is stored in a field goes through a variable, or the check does not cover the function.
    let t = x.t;
    q.t = t;
    q.check(
        ControlSigns::from(frame[1]),
        ReachedLimits::from(frame[2]),
        frame[3] == 1,
        x.jf,
        x.v_max,
        x.v_min,
        x.a_max,
        x.a_min,
    )
}

// A frame whose numbers are not all finite gives zeros; the list has none.
fn tried(shape: Shape, frame: &[u8; FRAME]) -> Checked {
    let x = move_numbers(frame).unwrap_or_default();
    let first = first_answer(frame);
    let second = second_answer(frame);
    let s = x.solver();
    let q = Profile::default().set_boundary(x.p0, x.v0, x.a0, x.pf, x.vf, x.af);
    match shape {
        Shape::Acc0Acc1Vel => time_acc0_acc1_vel(s, q, x.v_max, x.v_min, x.a_max, x.a_min, x.j_max),
        Shape::Acc1Vel => time_acc1_vel(
            s, first, second, q, x.v_max, x.v_min, x.a_max, x.a_min, x.j_max,
        ),
        Shape::Acc0Vel => time_acc0_vel(
            s, first, second, q, x.v_max, x.v_min, x.a_max, x.a_min, x.j_max,
        ),
        Shape::Acc0Acc1 => time_acc0_acc1(s, q, x.v_max, x.v_min, x.a_max, x.a_min, x.j_max),
        Shape::Acc0 => time_acc0(s, q, x.v_max, x.v_min, x.a_max, x.a_min, x.j_max),
        Shape::RestToRest => time_rest_to_rest(s, q, x.v_max, x.v_min, x.a_max, x.a_min, x.j_max),
    }
}

fn send_reply(output: &mut impl Write, asks: Asks, frame: &[u8; FRAME]) -> io::Result<()> {
    match asks {
        Asks::OfCheck => {
            let x = check_numbers(frame).unwrap_or_default();
            send_record(output, checked(frame, x))
        }
        Asks::OfShape(shape) => send_record(output, tried(shape, frame)),
        Asks::OfQuartics(shape) => {
            let x = move_numbers(frame).unwrap_or_default();
            send_quartics(output, shape, x)
        }
        Asks::OfCauses(shape) => send_causes(output, tried(shape, frame)),
    }
}

// Fills `line`, takes the line feed after it, and puts its bytes into `bytes`.
fn read_digits(input: &mut impl Read, line: &mut [u8], bytes: &mut [u8]) -> io::Result<bool> {
    let mut feed = [0u8; 1];
    if !read_line(input, line)? {
        return Ok(false);
    }
    if !read_line(input, &mut feed)? {
        return Ok(false);
    }
    Ok(decode(line, bytes))
}

// The rest of a line, of n digits.
fn read_rest(input: &mut impl Read, n: usize, bytes: &mut [u8]) -> io::Result<bool> {
    let mut line = [0u8; LINE];
    if LINE < n {
        return Ok(false);
    }
    read_digits(input, &mut line[..n], bytes)
}

// Answers one line, and whether there was one. The kind comes first and tells how many bytes follow.
fn answer_line(input: &mut impl Read, output: &mut impl Write) -> io::Result<bool> {
    let mut kind = [0u8; 2];
    if !read_line(input, &mut kind)? {
        return Ok(false);
    }
    let mut frame = [0u8; FRAME];
    decode(&kind, &mut frame);
    let Some(row) = row_of(frame[0]) else {
        return Ok(false);
    };
    let bytes = row.bytes;
    if bytes < 1 {
        return Ok(false);
    }
    if FRAME < bytes {
        return Ok(false);
    }
    if !read_rest(input, 2 * (bytes - 1), &mut frame[1..])? {
        return Ok(false);
    }
    send_reply(output, row.asks, &frame)?;
    output.write_all(b"\n")?;
    Ok(true)
}

// The list is shorter than the count of turns, which is there so that the loop is seen to end.
// Stays: the same loop in five programs, since each function of a library promises its result, and of these turns
// nothing could be promised.
fn main(rt: HostRuntime) -> io::Result<()> {
    let mut input = rt.stdin();
    let mut output = rt.stdout();
    for _ in 0..u64::MAX {
        if !answer_line(&mut input, &mut output)? {
            break;
        }
    }
    Ok(())
}
