// What closes a slice: a call, a return; and the effect callback, which stands alone. Each is judged on what it would leave, and only then carried out; a call that begins a frame and a return to one go through no plan.
#![tactic(auto)]

ghost use Rattle.std.specs.Prelude.{ℕ};
ghost use Rattle.machine.specs.Values.{Program};
ghost use Rattle.scan.specs.Tables.{program_of};
ghost use Rattle.closing.specs.Closed.{closing_number, Closable, Returnable, Closes, Callbackable, PerformsCallback};

use acts::Acted;
use moves::Running;
use plan::Counts;
use refusals::Refusal;
use steps::Closing;
use values::Metamethod;

// 36 `Call`: function and arguments are popped, and the frame stays under the new one.
fn call(
    program: &lookups::Program,
    state: &mut [u8],
    live: &mut [u8],
    store: &mut [u8],
    starts: &mut [u32],
    args: &mut [u8],
    frames: usize,
    used: usize,
    g: Running,
    x: u32,
) -> Result<Acted, Refusal>
    requires { Closable (program_of program.now) 36 frames used g x state.old live.old store.old starts.old args.old }
    ensures { Closes (program_of program.now) 36 frames used g x result state.old live.old store.old starts.old state.new live.new store.new starts.new }
{
    let n = x as usize;
    if n >= g.stack {
        moves::settle(live, g);
        return Err(Refusal::FewValues);
    }
    let f = moves::top(live, g, n);
    let left = acts::left_of(g, n + 1);
    if !calls::callable(f) {
        let error = values::meta_un_operator(Metamethod::Call as u32, values::type_of(f));
        let failed = acts::fail(
            program, state, live, store, starts, frames, used, g, left, error,
        );
        return failed.map(Acted::Failed);
    }
    blocks::copy(args, 0, live, moves::end(g) - n, n);
    let given = &args[..16 * n];
    let c = Counts {
        frames,
        live: moves::end(left),
        store: used,
    };
    if let Some(b) = calls::frame_of(program, live, store, starts, frames, f, n) {
        return acts::start(
            b.start, b.params, given, state, live, store, starts, c, g, left,
        )
        .map(Acted::Done);
    }
    let plan = calls::call_function(program, live, store, starts, frames, f, given);
    acts::over(plan, given, state, live, store, starts, c, g, left).map(Acted::Done)
}

// 38 `ReturnCall`: the frame is gone before the call.
fn tail_call(
    program: &lookups::Program,
    state: &mut [u8],
    live: &mut [u8],
    store: &mut [u8],
    starts: &mut [u32],
    args: &mut [u8],
    frames: usize,
    used: usize,
    g: Running,
    x: u32,
) -> Result<Acted, Refusal>
    requires { Closable (program_of program.now) 38 frames used g x state.old live.old store.old starts.old args.old }
    ensures { Closes (program_of program.now) 38 frames used g x result state.old live.old store.old starts.old state.new live.new store.new starts.new }
{
    let n = x as usize;
    if n >= g.stack {
        moves::settle(live, g);
        return Err(Refusal::FewValues);
    }
    let f = moves::top(live, g, n);
    if !calls::callable(f) {
        let left = acts::left_of(g, n + 1);
        let error = values::meta_un_operator(Metamethod::Call as u32, values::type_of(f));
        let thrown = acts::fail(
            program, state, live, store, starts, frames, used, g, left, error,
        );
        return thrown.map(Acted::Failed);
    }
    blocks::copy(args, 0, live, moves::end(g) - n, n);
    let given = &args[..16 * n];
    let under = frames - 1;
    let plan = calls::call_function(program, live, store, starts, under, f, given);
    let c = Counts {
        frames: under,
        live: g.base,
        store: used,
    };
    acts::below(plan, given, state, live, store, starts, c, g).map(Acted::Done)
}

// 37 `Return`.
fn return_top(
    state: &mut [u8],
    live: &mut [u8],
    store: &mut [u8],
    starts: &mut [u32],
    frames: usize,
    used: usize,
    g: Running,
) -> Result<Acted, Refusal>
    requires { Returnable frames used g state.old live.old store.old starts.old }
    ensures { (P : Program) (x : ℕ) → Closes P 37 frames used g x result state.old live.old store.old starts.old state.new live.new store.new starts.new }
{
    if g.stack == 0 {
        moves::settle(live, g);
        return Err(Refusal::FewValues);
    }
    let under = frames - 1;
    let v = moves::top(live, g, 0);
    let c = Counts {
        frames: under,
        live: g.base,
        store: used,
    };
    if under != 0 {
        return acts::receive(v, state, live, store, starts, c, g).map(Acted::Done);
    }
    let none = [0u8; 16];
    let plan = calls::return_value(under, v);
    acts::below(plan, &none[..0], state, live, store, starts, c, g).map(Acted::Done)
}

// An opcode that closes its slice.
pub fn close(
    k: Closing,
    program: &lookups::Program,
    state: &mut [u8],
    live: &mut [u8],
    store: &mut [u8],
    starts: &mut [u32],
    args: &mut [u8],
    frames: usize,
    used: usize,
    g: Running,
    x: u32,
) -> Result<Acted, Refusal>
    requires { Closable (program_of program.now) (closing_number k) frames used g x state.old live.old store.old starts.old args.old }
    ensures { Closes (program_of program.now) (closing_number k) frames used g x result state.old live.old store.old starts.old state.new live.new store.new starts.new }
{
    match k {
        Closing::Call => call(
            program, state, live, store, starts, args, frames, used, g, x,
        ),
        Closing::Return => return_top(state, live, store, starts, frames, used, g),
        Closing::ReturnCall => tail_call(
            program, state, live, store, starts, args, frames, used, g, x,
        ),
    }
}

// An effect called as a function: its frame at `base` is gone, and the effect is performed with what was on its stack.
pub fn effect_callback(
    program: &lookups::Program,
    state: &mut [u8],
    live: &mut [u8],
    store: &mut [u8],
    starts: &mut [u32],
    args: &mut [u8],
    c: Counts,
) -> Result<Acted, Refusal>
    requires { Callbackable (program_of program.now) c state.old live.old store.old starts.old args.old }
    ensures { PerformsCallback (program_of program.now) c result state.old live.old store.old starts.old state.new live.new store.new starts.new }
{
    let under = c.frames - 1;
    let base = starts[under] as usize;
    let g = moves::open(live, base);
    let n = g.stack;
    blocks::copy(args, 0, live, moves::end(g) - n, n);
    let plan = calls::perform_effect_with(
        program,
        live,
        starts,
        under,
        1,
        cells::get(live, base + 1),
        n,
        None,
    );
    let left = Counts {
        frames: under,
        live: base,
        ..c
    };
    acts::below(plan, &args[..16 * n], state, live, store, starts, left, g).map(Acted::Done)
}
