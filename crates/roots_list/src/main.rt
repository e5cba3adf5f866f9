// The quartic on a stored list. A line has the answer that is handed in, its count and its three values, and a b c d;
// the reply is the need, the resolvent's three arguments, and how many roots there are,
// with the roots in order of trial.
// The list is made by oracle/lists.sh, seed 1, with what the Rust's `solve_quart_monic_arr` answers.
#![tactic(auto)]

use digits::{byte_to_digits, from_digits, read_line, to_digits};
use hex_bytes::decode;
use roots::{RootAnswer, Three, quartic_need, resolvent_arguments, sorted_roots};
use std::io;
use std::io::{Read, Write};

// What a line asks: the answer that is handed in, and a b c d.
#[derive(Clone, Copy)]
struct Asked {
    answer: RootAnswer,
    coefficients: [f64; 4],
}

// A count of 0 is for a cube root, the first of the three values.
fn root_answer(count: u8, x3: Three) -> RootAnswer {
    match count {
        0 => RootAnswer::CubeRoot(x3.x0),
        _ => RootAnswer::Resolved(count, x3),
    }
}

// The count in the two characters of a byte, 3 at most.
fn count(line: &[u8; 115]) -> Option<u8> {
    let mut byte = [0u8; 1];
    if decode(&line[..2], &mut byte) & (byte[0] <= 3) {
        Some(byte[0])
    } else {
        None
    }
}

fn question(line: &[u8; 115]) -> Option<Asked> {
    let n = count(line)?;
    let x3 = Three {
        x0: from_digits(line, 2)?,
        x1: from_digits(line, 18)?,
        x2: from_digits(line, 34)?,
    };
    let a = from_digits(line, 50)?;
    let b = from_digits(line, 66)?;
    let c = from_digits(line, 82)?;
    let d = from_digits(line, 98)?;
    Some(Asked {
        answer: root_answer(n, x3),
        coefficients: [a, b, c, d],
    })
}

fn write_number(output: &mut impl Write, x: f64) -> io::Result<()> {
    output.write_all(&to_digits(x))
}

fn write_reply(output: &mut impl Write, asked: Asked) -> io::Result<()> {
    let [a, b, c, d] = asked.coefficients;
    let arguments = resolvent_arguments(a, b, c, d);
    output.write_all(&byte_to_digits(u8::from(quartic_need(a, b, c, d))))?;
    write_number(output, arguments.x0)?;
    write_number(output, arguments.x1)?;
    write_number(output, arguments.x2)?;
    let roots = sorted_roots([a, b, c, d], asked.answer);
    output.write_all(&byte_to_digits((roots.len % 256) as u8))?;
    for &x in roots.data.iter().take(roots.len) {
        write_number(output, x)?;
    }
    output.write_all(b"\n")
}

// Answers one line, and whether there was one.
fn answer_line(input: &mut impl Read, output: &mut impl Write) -> io::Result<bool> {
    let mut line = [0u8; 115];
    if !read_line(input, &mut line)? {
        return Ok(false);
    }
    let Some(asked) = question(&line) else {
        return Ok(false);
    };
    write_reply(output, asked)?;
    Ok(true)
}

// The list is shorter than the count of turns, which is there so that the loop is seen to end.
// Stays: the same loop in five programs, since each function of a library promises its result, and of these turns
// nothing could be promised.
fn main(rt: HostRuntime) -> io::Result<()> {
    let mut input = rt.stdin();
    let mut output = rt.stdout();
    for _ in 0..u64::MAX {
        if !answer_line(&mut input, &mut output)? {
            break;
        }
    }
    Ok(())
}
