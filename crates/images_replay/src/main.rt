// Images against the oracle's reader: reads images from standard input, each behind its length (32 bits, little-endian), and writes a line for each with the
// number of its refusal, 0 for an accepted one. `stdin` and `stdout` hold images and answers of the oracle; `player images` in oracle/ makes them.

#![tactic(auto)]

use std::io;
use std::io::{Read, Write};

// So many bytes are read into the front of a buffer; false where it is too short or the input ends.
fn fill(input: &mut impl Read, buf: &mut [u8], len: usize) -> bool {
    if len > buf.len() {
        return false;
    }
    input.read_exact(&mut buf[..len]).is_ok()
}

fn answer(output: &mut impl Write, buf: &[u8], len: usize) -> io::Result<bool> {
    if len > buf.len() {
        return Ok(false);
    }
    writeln!(output, "{}", reader::refusal(&buf[..len]))?;
    Ok(true)
}

// One image; false at the end of the input. The buffer is longer than the longest image, so that one too long is read whole.
fn image(input: &mut impl Read, output: &mut impl Write) -> io::Result<bool> {
    let mut head = [0u8; 4];
    if input.read_exact(&mut head).is_err() {
        return Ok(false);
    }
    let len = cells::read32(&head, 0) as usize;
    let mut buf = [0u8; 131072];
    if !fill(input, &mut buf, len) {
        return Ok(false);
    }
    answer(output, &buf, len)
}

fn main(rt: HostRuntime) -> io::Result<()> {
    let mut input = rt.stdin();
    let mut output = rt.stdout();
    for _ in 0..4000000000u32 {
        if !image(&mut input, &mut output)? {
            break;
        }
    }
    Ok(())
}
