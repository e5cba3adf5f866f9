// `integrate` on a stored list: t p0 v0 a0 j a line in, p v a out.
// The list is made by oracle/lists.sh, seed 1, with what the Rust's `integrate` answers.
#![tactic(auto)]

use digits::{from_digits, read_line, to_digits};
use std::io;
use std::io::{Read, Write};
use util::{State, integrate};

// The state that a line asks for, if it is a line of the list.
fn answer(line: &[u8; 81]) -> Option<State> {
    let t = from_digits(line, 0)?;
    let p0 = from_digits(line, 16)?;
    let v0 = from_digits(line, 32)?;
    let a0 = from_digits(line, 48)?;
    let j = from_digits(line, 64)?;
    Some(integrate(t, p0, v0, a0, j))
}

// Answers one line, and whether there was one.
fn answer_line(input: &mut impl Read, output: &mut impl Write) -> io::Result<bool> {
    let mut line = [0u8; 81];
    if !read_line(input, &mut line)? {
        return Ok(false);
    }
    let Some(state) = answer(&line) else {
        return Ok(false);
    };
    output.write_all(&to_digits(state.p))?;
    output.write_all(&to_digits(state.v))?;
    output.write_all(&to_digits(state.a))?;
    output.write_all(b"\n")?;
    Ok(true)
}

// The list is shorter than the count of turns, which is there so that the loop is seen to end.
// Stays: the same loop in five programs, since each function of a library promises its result, and of these turns
// nothing could be promised.
fn main(rt: HostRuntime) -> io::Result<()> {
    let mut input = rt.stdin();
    let mut output = rt.stdout();
    for _ in 0..u64::MAX {
        if !answer_line(&mut input, &mut output)? {
            break;
        }
    }
    Ok(())
}
