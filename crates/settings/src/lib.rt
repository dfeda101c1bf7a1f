// The calls of the host that set a global or a builtin.
#![tactic(auto)]

ghost use Rattle.std.specs.Prelude.{◌≤◌};
ghost use Rattle.machine.specs.Calls.{set_global, set_builtin};
ghost use Rattle.form.specs.Entry.{entry};
ghost use Rattle.asks.specs.Asks.{cell_of, Asked};
ghost use Rattle.refusals.specs.Refusals.{number_of};
ghost use Rattle.settings.specs.Settings.{Setting};

use cells::Cell;
use refusals::Refusal;

// Cell `first + number` of the state block becomes a value.
#[tactic(auto, using(crate::specs::SettingLaws::set_not))]
fn set_value(
    image: &[u8],
    state: &mut [u8],
    live: &[u8],
    store: &[u8],
    first: usize,
    number: u32,
    v: Cell,
) -> Result<(), Refusal>
    requires { first ≤ 260 }
    ensures { Setting first number v state.old store.now (entry image.now state.old live.now store.now) (number_of result) state.new }
{
    asks::entered_with(image, state, live, store, v)?;
    if number >= asks::NAMES {
        return Err(Refusal::BadValue);
    }
    cells::put(state, first + number as usize, v);
    Ok(())
}

pub fn set_global(
    image: &[u8],
    state: &mut [u8],
    live: &[u8],
    store: &[u8],
    number: u32,
    low: u64,
    high: u64,
) -> u32
    ensures { Asked (set_global number (cell_of low high)) image.now state.old live.now store.now result state.new }
{
    let v = asks::cell_of(low, high);
    refusals::number_of(set_value(image, state, live, store, 4, number, v))
}

pub fn set_builtin(
    image: &[u8],
    state: &mut [u8],
    live: &[u8],
    store: &[u8],
    number: u32,
    low: u64,
    high: u64,
) -> u32
    ensures { Asked (set_builtin number (cell_of low high)) image.now state.old live.now store.now result state.new }
{
    let v = asks::cell_of(low, high);
    refusals::number_of(set_value(image, state, live, store, 260, number, v))
}
