// The calls of the host against the oracle: carries out the calls that standard input asks for, on one memory, and writes what each answers and leaves. `stdin` and
// `stdout` hold calls and answers of the Rust; `player calls` in oracle/ makes them.
// A question is a head of 64 bytes: the call (0 to 10, or 11: a byte of the state block becomes another), its number, the lengths of image, page, arguments,
// handlers and fuel (32 bits each), 4 spare bytes, then the value's two halves and the word (64 bits each), 8 spare bytes; then those five parts.
// An answer is 24 bytes: code, ticks (or which slice), the value (or start and length); then the fuel's buffer of 16 bytes, and the first 64 of the state block.
// Live stack and store are short, so that their limits are met.

#![tactic(auto)]

use std::io;
use std::io::{Read, Write};

#[derive(Clone, Copy)]
struct Answer {
    code: u32,
    ticks: u32,
    low: u64,
    high: u64,
}

impl From<u32> for Answer {
    fn from(code: u32) -> Answer {
        Answer {
            code,
            ticks: 0,
            low: 0,
            high: 0,
        }
    }
}

impl From<asks::Got> for Answer {
    fn from(got: asks::Got) -> Answer {
        Answer {
            code: got.code,
            ticks: 0,
            low: got.low,
            high: got.high,
        }
    }
}

impl From<asks::Part> for Answer {
    fn from(part: asks::Part) -> Answer {
        Answer {
            code: part.code,
            ticks: part.from,
            low: part.start,
            high: part.len,
        }
    }
}

impl From<runs::Ran> for Answer {
    fn from(ran: runs::Ran) -> Answer {
        Answer {
            code: ran.code,
            ticks: ran.ticks,
            low: 0,
            high: 0,
        }
    }
}

// A byte of the state block becomes another, so that memory is no longer in form.
fn poke(state: &mut [u8], at: u64, byte: u64) -> Answer {
    let place = at as usize;
    if place >= state.len() {
        return Answer::from(0);
    }
    state[place] = (byte % 256) as u8;
    Answer::from(0)
}

fn play(
    head: &[u8; 64],
    image: &[u8],
    page: &[u8],
    args: &[u8],
    handlers: &[u8],
    fuel: &mut [u8],
    state: &mut [u8],
    live: &mut [u8],
    store: &mut [u8],
) -> Answer {
    let number = cells::read32(head, 4);
    let low = cells::read64(head, 32);
    let high = cells::read64(head, 40);
    let word = cells::read64(head, 48);
    match cells::read32(head, 0) {
        0 => Answer::from(executor::lucia_load(image, state, live, store)),
        1 => Answer::from(executor::lucia_start(image, state, live, store, low, high, args)),
        2 => Answer::from(executor::lucia_run(image, state, live, store, fuel, number)),
        3 => Answer::from(executor::lucia_answer(
            image, state, live, store, fuel, number, word, low, high, args, handlers,
        )),
        4 => Answer::from(executor::lucia_clear(image, state, live, store)),
        5 => Answer::from(executor::lucia_text(image, state, live, store, page, low, high)),
        6 => Answer::from(executor::lucia_bytes(image, state, live, store, low, high)),
        7 => Answer::from(executor::lucia_set_global(image, state, live, store, number, low, high)),
        8 => Answer::from(executor::lucia_get_global(image, state, live, store, number)),
        9 => Answer::from(executor::lucia_set_builtin(
            image, state, live, store, number, low, high,
        )),
        10 => Answer::from(executor::lucia_get_builtin(image, state, live, store, number)),
        _ => poke(state, low, high),
    }
}

// So many bytes of the input into the front of a buffer; false where it is too short or the input ends.
fn fill(input: &mut impl Read, buf: &mut [u8], len: usize) -> bool {
    if len > buf.len() {
        return false;
    }
    input.read_exact(&mut buf[..len]).is_ok()
}

// The first bytes of a slice, none where it is too short.
fn write_first(output: &mut impl Write, bytes: &[u8], len: usize) -> io::Result<bool> {
    if len > bytes.len() {
        return Ok(false);
    }
    output.write_all(&bytes[..len])?;
    Ok(true)
}

fn write(output: &mut impl Write, answer: Answer, fuel: &[u8], state: &[u8]) -> io::Result<bool> {
    let mut bytes = [0u8; 24];
    cells::write32(&mut bytes, 0, answer.code);
    cells::write32(&mut bytes, 4, answer.ticks);
    cells::write64(&mut bytes, 8, answer.low);
    cells::write64(&mut bytes, 16, answer.high);
    output.write_all(&bytes)?;
    output.write_all(fuel)?;
    write_first(output, state, 64)
}

// The front of each buffer is lent.
fn lend(
    output: &mut impl Write,
    head: &[u8; 64],
    image: &[u8],
    page: &[u8],
    args: &[u8],
    handlers: &[u8],
    fuel: &mut [u8],
    state: &mut [u8],
    live: &mut [u8],
    store: &mut [u8],
) -> io::Result<bool> {
    let i = cells::read32(head, 8) as usize;
    let p = cells::read32(head, 12) as usize;
    let a = cells::read32(head, 16) as usize;
    let h = cells::read32(head, 20) as usize;
    let f = cells::read32(head, 24) as usize;
    if i > image.len() || p > page.len() || a > args.len() || h > handlers.len() || f > fuel.len() {
        return Ok(false);
    }
    let answer = play(
        head,
        &image[..i],
        &page[..p],
        &args[..a],
        &handlers[..h],
        &mut fuel[..f],
        state,
        live,
        store,
    );
    write(output, answer, fuel, state)
}

// One call; false at the end of the input.
fn call(
    input: &mut impl Read,
    output: &mut impl Write,
    state: &mut [u8; 8256],
    live: &mut [u8; 32768],
    store: &mut [u8; 1024],
) -> io::Result<bool> {
    let mut head = [0u8; 64];
    if input.read_exact(&mut head).is_err() {
        return Ok(false);
    }
    let mut image = [0u8; 65600];
    let mut page = [0u8; 256];
    let mut args = [0u8; 65600];
    let mut handlers = [0u8; 1024];
    let mut fuel = [0u8; 16];
    if fill(input, &mut image, cells::read32(&head, 8) as usize)
        && fill(input, &mut page, cells::read32(&head, 12) as usize)
        && fill(input, &mut args, cells::read32(&head, 16) as usize)
        && fill(input, &mut handlers, cells::read32(&head, 20) as usize)
        && fill(input, &mut fuel, cells::read32(&head, 24) as usize)
    {
        return lend(
            output, &head, &image, &page, &args, &handlers, &mut fuel, state, live, store,
        );
    }
    Ok(false)
}

fn main(rt: HostRuntime) -> io::Result<()> {
    let mut input = rt.stdin();
    let mut output = rt.stdout();
    let mut state = [0u8; 8256];
    let mut live = [0u8; 32768];
    let mut store = [0u8; 1024];
    for _ in 0..4000000000u32 {
        if !call(&mut input, &mut output, &mut state, &mut live, &mut store)? {
            break;
        }
    }
    Ok(())
}
