// Ints against the oracle: carries out the opcodes that standard input asks for and writes what they give. `stdin` and `stdout` hold questions and answers of the
// oracle's own Ints; `player ints` in oracle/ makes them.
// A row of 17 bytes: the opcode's number, then two Ints, each little-endian; `Neg` takes the first. An answer is 9 bytes: its kind, 0 an Int, 1 a Bool, 2 a zero
// divisor, then the Int, or 1 for true, or 0.

#![tactic(auto)]

use std::io;
use std::io::{Read, Write};

#[derive(Clone, Copy)]
enum Answer {
    Int(u64),
    Bool(bool),
    ZeroDivisor,
}

impl Answer {
    fn kind(self) -> u8 {
        match self {
            Answer::Int(_) => 0,
            Answer::Bool(_) => 1,
            Answer::ZeroDivisor => 2,
        }
    }

    fn number(self) -> u64 {
        match self {
            Answer::Int(number) => number,
            Answer::Bool(truth) => u64::from(truth),
            Answer::ZeroDivisor => 0,
        }
    }
}

fn operated(opcode: u8, a: u64, b: u64) -> Answer {
    match opcode {
        17 => Answer::Int(ints::neg(a)),
        19 => Answer::Int(ints::add(a, b)),
        20 => Answer::Int(ints::sub(a, b)),
        21 => Answer::Int(ints::mul(a, b)),
        22 => ints::div(a, b).map_or(Answer::ZeroDivisor, Answer::Int),
        23 => ints::rem(a, b).map_or(Answer::ZeroDivisor, Answer::Int),
        26 => Answer::Bool(ints::gt(a, b)),
        27 => Answer::Bool(ints::ge(a, b)),
        28 => Answer::Bool(ints::lt(a, b)),
        _ => Answer::Bool(ints::le(a, b)),
    }
}

// One row; false at the end of the input.
fn row(input: &mut impl Read, output: &mut impl Write) -> io::Result<bool> {
    let mut asked = [0u8; 17];
    if input.read_exact(&mut asked).is_err() {
        return Ok(false);
    }
    let a = cells::read64(&asked, 1);
    let b = cells::read64(&asked, 9);
    let answer = operated(asked[0], a, b);
    let mut written = [0u8; 9];
    written[0] = answer.kind();
    cells::write64(&mut written, 1, answer.number());
    output.write_all(&written)?;
    Ok(true)
}

fn main(rt: HostRuntime) -> io::Result<()> {
    let mut input = rt.stdin();
    let mut output = rt.stdout();
    for _ in 0..1000000u32 {
        if !row(&mut input, &mut output)? {
            break;
        }
    }
    Ok(())
}
