// Fuel against the Rust: carries out the operations that standard input asks for and writes what fuel then is. `stdin` and `stdout` hold questions and answers of
// the unchanged fuel.rs; `player fuel` in oracle/ makes them.
// A row of 16 bytes: fuel, then two numbers, each in the 5-byte form of a loan, and the operation's number. An answer is 6 bytes: the loan, then 2 if
// it is interrupted, else 1 if it should continue.

#![tactic(auto)]

use std::io;
use std::io::{Read, Write};

fn operated(fuel: fuel::Fuel, operation: u8, x: i32, max: i32) -> fuel::Fuel {
    match operation {
        0 => fuel.adjust(x),
        1 => fuel.consume(x),
        2 => fuel.refill(x, max),
        3 => fuel.set_remaining(x),
        4 => fuel.interrupt(),
        5 => fuel.clear_interrupt(),
        6 => fuel::charged(fuel, x),
        7 => fuel::Fuel::with(x),
        _ => fuel::Fuel::empty(),
    }
}

fn number(loan: &[u8]) -> i32 {
    match fuel::read(loan) {
        Ok(fuel) => fuel.remaining(),
        Err(_) => 0,
    }
}

fn flags(fuel: fuel::Fuel) -> u8 {
    if fuel.is_interrupted() {
        return 2;
    }
    if fuel.should_continue() {
        return 1;
    }
    0
}

fn write(output: &mut impl Write, loan: &mut [u8], fuel: fuel::Fuel) -> io::Result<()> {
    fuel::write(loan, fuel);
    output.write_all(loan)?;
    output.write_all(&[flags(fuel)])
}

// One row; false at the end of the input.
fn row(input: &mut impl Read, output: &mut impl Write) -> io::Result<bool> {
    let mut asked = [0u8; 16];
    if input.read_exact(&mut asked).is_err() {
        return Ok(false);
    }
    let x = number(&asked[5..10]);
    let max = number(&asked[10..15]);
    match fuel::read(&asked[0..5]) {
        Ok(before) => {
            let after = operated(before, asked[15], x, max);
            write(output, &mut asked[0..5], after)?;
            Ok(true)
        }
        Err(_) => Ok(false),
    }
}

fn main(rt: HostRuntime) -> io::Result<()> {
    let mut input = rt.stdin();
    let mut output = rt.stdout();
    for _ in 0..1000000u32 {
        if !row(&mut input, &mut output)? {
            break;
        }
    }
    Ok(())
}
