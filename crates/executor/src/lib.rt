// The calls of the host. Each is one function of the crates below, with the same contract; `executor_c` exports them to C.
#![tactic(auto)]

ghost use Rattle.executor.specs.Exports.{memory, Allows, lucia_load, lucia_start, lucia_run, lucia_answer, lucia_clear, lucia_text, lucia_bytes, lucia_set_global, lucia_get_global, lucia_set_builtin, lucia_get_builtin};

use asks::{Got, Part};
use runs::Ran;

pub fn lucia_load(image: &[u8], state: &mut [u8], live: &[u8], store: &mut [u8]) -> Got
    ensures { Allows image.now (lucia_load image.now) (memory state.old live.now store.old) result (memory state.new live.now store.new) }
{
    loading::load(image, state, live, store)
}

pub fn lucia_start(
    image: &[u8],
    state: &mut [u8],
    live: &mut [u8],
    store: &mut [u8],
    low: u64,
    high: u64,
    args: &[u8],
) -> u32
    ensures { Allows image.now (lucia_start low high args.now) (memory state.old live.old store.old) result (memory state.new live.new store.new) }
{
    turns::start(image, state, live, store, asks::cell_of(low, high), args)
}

pub fn lucia_run(
    image: &[u8],
    state: &mut [u8],
    live: &mut [u8],
    store: &mut [u8],
    fuel: &mut [u8],
    ticks: u32,
) -> Ran
    ensures { Allows image.now (lucia_run fuel.old ticks) (memory state.old live.old store.old) (result, fuel.new) (memory state.new live.new store.new) }
{
    runs::run(image, state, live, store, fuel, ticks)
}

pub fn lucia_answer(
    image: &[u8],
    state: &mut [u8],
    live: &mut [u8],
    store: &mut [u8],
    fuel: &mut [u8],
    kind: u32,
    word: u64,
    low: u64,
    high: u64,
    args: &[u8],
    handlers: &[u8],
) -> u32
    ensures { Allows image.now (lucia_answer fuel.old kind word low high args.now handlers.now) (memory state.old live.old store.old) (result, fuel.new) (memory state.new live.new store.new) }
{
    let subject = asks::cell_of(low, high);
    turns::answer(
        image, state, live, store, fuel, kind, word, subject, args, handlers,
    )
}

pub fn lucia_clear(image: &[u8], state: &mut [u8], live: &[u8], store: &[u8]) -> u32
    ensures { Allows image.now lucia_clear (memory state.old live.now store.now) result (memory state.new live.now store.now) }
{
    loading::clear(image, state, live, store)
}

pub fn lucia_text(
    image: &[u8],
    state: &[u8],
    live: &[u8],
    store: &[u8],
    page: &[u8],
    low: u64,
    high: u64,
) -> Part
    ensures { Allows image.now (lucia_text page.now low high) (memory state.now live.now store.now) result (memory state.now live.now store.now) }
{
    readings::text(image, state, live, store, page, low, high)
}

pub fn lucia_bytes(
    image: &[u8],
    state: &[u8],
    live: &[u8],
    store: &[u8],
    low: u64,
    high: u64,
) -> Part
    ensures { Allows image.now (lucia_bytes low high) (memory state.now live.now store.now) result (memory state.now live.now store.now) }
{
    readings::bytes(image, state, live, store, low, high)
}

pub fn lucia_set_global(
    image: &[u8],
    state: &mut [u8],
    live: &[u8],
    store: &[u8],
    number: u32,
    low: u64,
    high: u64,
) -> u32
    ensures { Allows image.now (lucia_set_global number low high) (memory state.old live.now store.now) result (memory state.new live.now store.now) }
{
    settings::set_global(image, state, live, store, number, low, high)
}

pub fn lucia_get_global(image: &[u8], state: &[u8], live: &[u8], store: &[u8], number: u32) -> Got
    ensures { Allows image.now (lucia_get_global number) (memory state.now live.now store.now) result (memory state.now live.now store.now) }
{
    readings::get_global(image, state, live, store, number)
}

pub fn lucia_set_builtin(
    image: &[u8],
    state: &mut [u8],
    live: &[u8],
    store: &[u8],
    number: u32,
    low: u64,
    high: u64,
) -> u32
    ensures { Allows image.now (lucia_set_builtin number low high) (memory state.old live.now store.now) result (memory state.new live.now store.now) }
{
    settings::set_builtin(image, state, live, store, number, low, high)
}

pub fn lucia_get_builtin(image: &[u8], state: &[u8], live: &[u8], store: &[u8], number: u32) -> Got
    ensures { Allows image.now (lucia_get_builtin number) (memory state.now live.now store.now) result (memory state.now live.now store.now) }
{
    readings::get_builtin(image, state, live, store, number)
}
