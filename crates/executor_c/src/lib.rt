// The calls of the host, exported to C: each is its namesake of the executor, with the same contract.
#![tactic(auto)]

ghost use Rattle.executor.specs.Exports.{memory, Allows, lucia_load, lucia_start, lucia_run, lucia_answer, lucia_clear, lucia_text, lucia_bytes, lucia_set_global, lucia_get_global, lucia_set_builtin, lucia_get_builtin};

use asks::{Got, Part};
use runs::Ran;

#[unsafe(no_mangle)]
pub extern "C" fn lucia_load(image: &[u8], state: &mut [u8], live: &[u8], store: &mut [u8]) -> Got
    ensures { Allows image.now (lucia_load image.now) (memory state.old live.now store.old) result (memory state.new live.now store.new) }
{
    executor::lucia_load(image, state, live, store)
}

#[unsafe(no_mangle)]
pub extern "C" fn lucia_start(
    image: &[u8],
    state: &mut [u8],
    live: &mut [u8],
    store: &mut [u8],
    low: u64,
    high: u64,
    args: &[u8],
) -> u32
    ensures { Allows image.now (lucia_start low high args.now) (memory state.old live.old store.old) result (memory state.new live.new store.new) }
{
    executor::lucia_start(image, state, live, store, low, high, args)
}

#[unsafe(no_mangle)]
pub extern "C" fn lucia_run(
    image: &[u8],
    state: &mut [u8],
    live: &mut [u8],
    store: &mut [u8],
    fuel: &mut [u8],
    ticks: u32,
) -> Ran
    ensures { Allows image.now (lucia_run fuel.old ticks) (memory state.old live.old store.old) (result, fuel.new) (memory state.new live.new store.new) }
{
    executor::lucia_run(image, state, live, store, fuel, ticks)
}

#[unsafe(no_mangle)]
pub extern "C" fn lucia_answer(
    image: &[u8],
    state: &mut [u8],
    live: &mut [u8],
    store: &mut [u8],
    fuel: &mut [u8],
    kind: u32,
    word: u64,
    low: u64,
    high: u64,
    args: &[u8],
    handlers: &[u8],
) -> u32
    ensures { Allows image.now (lucia_answer fuel.old kind word low high args.now handlers.now) (memory state.old live.old store.old) (result, fuel.new) (memory state.new live.new store.new) }
{
    executor::lucia_answer(
        image, state, live, store, fuel, kind, word, low, high, args, handlers,
    )
}

#[unsafe(no_mangle)]
pub extern "C" fn lucia_clear(image: &[u8], state: &mut [u8], live: &[u8], store: &[u8]) -> u32
    ensures { Allows image.now lucia_clear (memory state.old live.now store.now) result (memory state.new live.now store.now) }
{
    executor::lucia_clear(image, state, live, store)
}

#[unsafe(no_mangle)]
pub extern "C" fn lucia_text(
    image: &[u8],
    state: &[u8],
    live: &[u8],
    store: &[u8],
    page: &[u8],
    low: u64,
    high: u64,
) -> Part
    ensures { Allows image.now (lucia_text page.now low high) (memory state.now live.now store.now) result (memory state.now live.now store.now) }
{
    executor::lucia_text(image, state, live, store, page, low, high)
}

#[unsafe(no_mangle)]
pub extern "C" fn lucia_bytes(
    image: &[u8],
    state: &[u8],
    live: &[u8],
    store: &[u8],
    low: u64,
    high: u64,
) -> Part
    ensures { Allows image.now (lucia_bytes low high) (memory state.now live.now store.now) result (memory state.now live.now store.now) }
{
    executor::lucia_bytes(image, state, live, store, low, high)
}

#[unsafe(no_mangle)]
pub extern "C" fn lucia_set_global(
    image: &[u8],
    state: &mut [u8],
    live: &[u8],
    store: &[u8],
    number: u32,
    low: u64,
    high: u64,
) -> u32
    ensures { Allows image.now (lucia_set_global number low high) (memory state.old live.now store.now) result (memory state.new live.now store.now) }
{
    executor::lucia_set_global(image, state, live, store, number, low, high)
}

#[unsafe(no_mangle)]
pub extern "C" fn lucia_get_global(
    image: &[u8],
    state: &[u8],
    live: &[u8],
    store: &[u8],
    number: u32,
) -> Got
    ensures { Allows image.now (lucia_get_global number) (memory state.now live.now store.now) result (memory state.now live.now store.now) }
{
    executor::lucia_get_global(image, state, live, store, number)
}

#[unsafe(no_mangle)]
pub extern "C" fn lucia_set_builtin(
    image: &[u8],
    state: &mut [u8],
    live: &[u8],
    store: &[u8],
    number: u32,
    low: u64,
    high: u64,
) -> u32
    ensures { Allows image.now (lucia_set_builtin number low high) (memory state.old live.now store.now) result (memory state.new live.now store.now) }
{
    executor::lucia_set_builtin(image, state, live, store, number, low, high)
}

#[unsafe(no_mangle)]
pub extern "C" fn lucia_get_builtin(
    image: &[u8],
    state: &[u8],
    live: &[u8],
    store: &[u8],
    number: u32,
) -> Got
    ensures { Allows image.now (lucia_get_builtin number) (memory state.now live.now store.now) result (memory state.now live.now store.now) }
{
    executor::lucia_get_builtin(image, state, live, store, number)
}
