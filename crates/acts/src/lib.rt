// A plan is judged on what it would leave, and only then carried out: over the running frame, or once it is gone; and an opcode's own error is thrown.
#![tactic(auto)]

ghost use Rattle.std.specs.Prelude.{◌≡◌, [], ◌≤◌, ◌<◌};
ghost use Rattle.cells.specs.Cells.{cells};
ghost use Rattle.scan.specs.Tables.{program_of};
ghost use Rattle.plan.specs.declared.Plan.TheVariants.{Starts, Receives};
ghost use Rattle.acts.specs.Acted.{Judgeable, Judges, Eases, Standing, standing_counts, Overable, ActsOver, Belowable, ActsBelow, Leavable, SettlesLeft, Actable, ActsOn, left_of, Failable, Fails};

use cells::Cell;
use moves::Running;
use plan::{Counts, Error, Params, Plan, Start};
use refusals::Refusal;

// What a step that is not refused came to, with what the machine has then: it is done, or its own error is thrown.
#[derive(Clone, Copy)]
pub enum Acted {
    Done(Counts),
    Failed(Counts),
}

// A plan with n arguments is judged: what the machine has after it.
fn judge(
    plan: Plan,
    n: usize,
    live: &[u8],
    store: &[u8],
    starts: &[u32],
    c: Counts,
) -> Result<Counts, Refusal>
    requires { Judgeable plan n c live.now store.now starts.now }
    ensures { Judges plan n c live.now store.now starts.now result }
{
    let after = counts::counts_after(plan, n, live, store, starts, c);
    counts::check(after, cells::room(live), cells::room(store))?;
    Ok(after)
}

// How many frames a resume puts on top that has room however much its last frame keeps, where that is known and there
// are some.
// To judge it as the others its frames would be walked over to the last one, and once more to put them back.
fn easy(plan: Plan, n: usize, live: &[u8], store: &[u8], starts: &[u32], c: Counts) -> Option<usize>
    requires { Judgeable plan n c live.now store.now starts.now }
    ensures { Eases plan n c live.now store.now starts.now result }
{
    if let Plan::Resumes(handle, _) = plan {
        let count = cells::number(store, handle) as usize;
        let size = cells::payload(store, handle) as usize;
        if count == 0 || c.frames + count > 256 {
            return None;
        }
        if c.live + size + 1 > cells::room(live) {
            return None;
        }
        return Some(count);
    }
    None
}

// What a machine has whose frames stand.
fn standing(live: &[u8], starts: &[u32], frames: usize, store: usize) -> Counts
    requires { Standing (cells live.now) starts.now frames }
    ensures { result ≡ standing_counts (cells live.now) starts.now frames store }
{
    let top = frames - 1;
    let g = moves::open(live, starts[top] as usize);
    Counts {
        frames,
        live: moves::end(g),
        store,
    }
}

// What is left of the running frame, if anything is, is written.
fn settle_left(live: &mut [u8], left: Option<Running>)
    requires { Leavable left live.old }
    ensures { SettlesLeft left live.old live.new }
{
    if let Some(g) = left {
        moves::settle(live, g);
    }
}

// A plan for the machine whose running frame g becomes `left`, or is gone. Where it is refused, the frame is written as
// it was.
fn act(
    plan: Plan,
    args: &[u8],
    state: &mut [u8],
    live: &mut [u8],
    store: &mut [u8],
    starts: &mut [u32],
    c: Counts,
    g: Running,
    left: Option<Running>,
) -> Result<Counts, Refusal>
    requires { Actable plan (cells args.now) c g left state.old live.old store.old starts.old }
    ensures { ActsOn plan (cells args.now) c g left result state.old live.old store.old starts.old state.new live.new store.new starts.new }
{
    let n = cells::room(args);
    if let Some(more) = easy(plan, n, live, store, starts, c) {
        settle_left(live, left);
        actions::carry(plan, args, state, live, store, starts, c);
        return Ok(standing(live, starts, c.frames + more, c.store));
    }
    match judge(plan, n, live, store, starts, c) {
        Err(refusal) => {
            moves::settle(live, g);
            Err(refusal)
        }
        Ok(after) => {
            settle_left(live, left);
            actions::carry(plan, args, state, live, store, starts, c);
            Ok(after)
        }
    }
}

// A plan over the running frame g, of which `left` is left.
pub fn over(
    plan: Plan,
    args: &[u8],
    state: &mut [u8],
    live: &mut [u8],
    store: &mut [u8],
    starts: &mut [u32],
    c: Counts,
    g: Running,
    left: Running,
) -> Result<Counts, Refusal>
    requires { Overable plan (cells args.now) c g left state.old live.old store.old starts.old }
    ensures { ActsOver plan (cells args.now) c g left result state.old live.old store.old starts.old state.new live.new store.new starts.new }
{
    act(plan, args, state, live, store, starts, c, g, Some(left))
}

// A plan once the running frame g is gone.
pub fn below(
    plan: Plan,
    args: &[u8],
    state: &mut [u8],
    live: &mut [u8],
    store: &mut [u8],
    starts: &mut [u32],
    c: Counts,
    g: Running,
) -> Result<Counts, Refusal>
    requires { Belowable plan (cells args.now) c g state.old live.old store.old starts.old }
    ensures { ActsBelow plan (cells args.now) c g result state.old live.old store.old starts.old state.new live.new store.new starts.new }
{
    act(plan, args, state, live, store, starts, c, g, None)
}

// A new frame over the running frame g, of which `left` is left: what `over` does with the plan `Starts`. Calls are frequent, so that theirs goes through no plan.
pub fn start(
    f: Start,
    p: Params,
    args: &[u8],
    state: &[u8],
    live: &mut [u8],
    store: &mut [u8],
    starts: &mut [u32],
    c: Counts,
    g: Running,
    left: Running,
) -> Result<Counts, Refusal>
    requires { Overable (Starts f p) (cells args.now) c g left state.now live.old store.old starts.old }
    ensures { ActsOver (Starts f p) (cells args.now) c g left result state.now live.old store.old starts.old state.now live.new store.new starts.new }
{
    let after = counts::started(c, f.locals as usize, p, cells::room(args));
    if let Err(refusal) = counts::check(after, cells::room(live), cells::room(store)) {
        moves::settle(live, g);
        return Err(refusal);
    }
    moves::settle(live, left);
    actions::start_frame(live, store, starts, c, f, p, args);
    Ok(after)
}

// A value for the top frame of those that are left once the running frame g is gone: what `below` does with the plan `Receives`. Returns are frequent, so that theirs goes through no plan.
pub fn receive(
    v: Cell,
    state: &[u8],
    live: &mut [u8],
    store: &[u8],
    starts: &[u32],
    c: Counts,
    g: Running,
) -> Result<Counts, Refusal>
    requires { Belowable (Receives v) (cells []) c g state.now live.old store.now starts.now }
    ensures { ActsBelow (Receives v) (cells []) c g result state.now live.old store.now starts.now state.now live.new store.now starts.now }
{
    let after = counts::received(c, live, starts);
    if let Err(refusal) = counts::check(after, cells::room(live), cells::room(store)) {
        moves::settle(live, g);
        return Err(refusal);
    }
    let top = c.frames - 1;
    placing::receive(live, starts[top] as usize, v);
    Ok(after)
}

// The registers past the opcode, with so many values less.
pub fn left_of(g: Running, n: usize) -> Running
    requires { (n ≤ g.stack) × (g.place < 4294967296) }
    ensures { result ≡ left_of g n }
{
    Running {
        place: g.place + 1,
        ..g.dropped(n)
    }
}

// An opcode's own error is thrown, over the frame left: what the machine has after the throw.
pub fn fail(
    program: &lookups::Program,
    state: &mut [u8],
    live: &mut [u8],
    store: &mut [u8],
    starts: &mut [u32],
    frames: usize,
    used: usize,
    g: Running,
    left: Running,
    x: Error,
) -> Result<Counts, Refusal>
    requires { Failable (program_of program.now) frames used g left x state.old live.old store.old starts.old }
    ensures { Fails (program_of program.now) frames used g left x result state.old live.old store.old starts.old state.new live.new store.new starts.new }
{
    let plan = calls::throw_error(program, live, starts, frames, 1, x);
    let none = [0u8; 16];
    let c = Counts {
        frames,
        live: moves::end(left),
        store: used,
    };
    over(plan, &none[..0], state, live, store, starts, c, g, left)
}
