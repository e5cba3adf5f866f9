// The square roots of a stored list: a number a line in, its root out, and 01 for a mark, else 00.
// Lines 1 to 5000 are made by oracle/lists.sh, seed 1, with the roots of Rust's f64::sqrt. The last 21 are the
// square roots of real arguments not below zero in CPython's Lib/test/cmath_testcases.txt, with the roots
// published there (Debian libpython3.11-testsuite 3.11.2-6+deb12u9).
#![tactic(auto)]

use digits::{byte_to_digits, from_digits, read_line, to_digits};
use sqrt::{is_mark, sqrt, to_f64};
use std::io;
use std::io::{Read, Write};

fn send_root(output: &mut impl Write, root: Option<f64>) -> io::Result<()> {
    output.write_all(&to_digits(to_f64(root)))?;
    output.write_all(&byte_to_digits(u8::from(is_mark(root))))
}

// Answers one line, and whether there was one.
fn answer_line(input: &mut impl Read, output: &mut impl Write) -> io::Result<bool> {
    let mut line = [0u8; 17];
    if !read_line(input, &mut line)? {
        return Ok(false);
    }
    let Some(x) = from_digits(&line, 0) else {
        return Ok(false);
    };
    send_root(output, sqrt(x))?;
    output.write_all(b"\n")?;
    Ok(true)
}

// The list is shorter than the count of turns, which is there so that the loop is seen to end.
// Stays: the same loop in five programs, since each function of a library promises its result, and of these turns
// nothing could be promised.
fn main(rt: HostRuntime) -> io::Result<()> {
    let mut input = rt.stdin();
    let mut output = rt.stdout();
    for _ in 0..u64::MAX {
        if !answer_line(&mut input, &mut output)? {
            break;
        }
    }
    Ok(())
}
