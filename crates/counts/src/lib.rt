// What a plan would leave, in numbers: frames, live cells and store cells are judged on it before anything is written.
#![tactic(auto)]

ghost use Rattle.std.specs.Prelude.{◌≡◌, List, ◌<◌, length};
ghost use Rattle.cells.specs.Cells.{cells};
ghost use Rattle.cells.specs.declared.Cell.{Cell};
ghost use Rattle.machine.specs.Values.{Program};
ghost use Rattle.machine.specs.Machine.{M};
ghost use Rattle.plan.specs.Rest.{counts_of, Held};
ghost use Rattle.plan.specs.Plans.{taken_count, listed_cells, Enough, Carries};
ghost use Rattle.refusals.specs.Refusals.{number_of};
ghost use Rattle.counts.specs.Counted.{refusal_by, Ready, Countable, started_counts, resumed_counts, handled_counts, received_counts, Resumable, Handleable, Receivable};

use plan::{Counts, Params, Plan};
use refusals::Refusal;

// How many values n arguments are once they are parsed.
fn parsed(p: Params, n: usize) -> usize
    ensures { result ≡ taken_count p n }
{
    if p.variadic {
        return p.count as usize + 1;
    }
    n
}

// How many cells of the store the list of the rest takes.
fn listed(p: Params, n: usize) -> usize
    requires { (n < 4294967296) × Enough p n }
    ensures { result ≡ listed_cells p n }
{
    if p.variadic {
        return 1 + (n - p.count as usize);
    }
    0
}

// A new frame.
pub fn started(c: Counts, locals: usize, p: Params, n: usize) -> Counts
    requires { (c.frames < 4294967296) × (c.live < 4294967296) × (c.store < 4294967296) × (locals < 4294967296) × (n < 4294967296) × Enough p n }
    ensures { result ≡ started_counts c locals p n }
{
    Counts {
        frames: c.frames + 1,
        live: c.live + 6 + locals + parsed(p, n),
        store: c.store + listed(p, n),
    }
}

// The frames of a continuation on top, the last with its value.
fn resumed(c: Counts, store: &[u8], handle: usize) -> Counts
    requires { Resumable c handle (cells store.now) }
    ensures { result ≡ resumed_counts c handle (cells store.now) }
{
    let count = cells::number(store, handle) as usize;
    let last = placing::last_frame(store, handle + 1, count);
    let g = moves::kept(store, last);
    Counts {
        frames: c.frames + count,
        live: c.live + (moves::end(g) - (handle + 1)) + 1,
        store: c.store,
    }
}

// Frame i enters its handler, and the frames above it become a continuation.
fn handled(c: Counts, live: &[u8], starts: &[u32], i: usize, p: Params, n: usize) -> Counts
    requires { Handleable c i n (cells live.now) starts.now × Enough p n }
    ensures { result ≡ handled_counts c i p n (cells live.now) starts.now }
{
    let base = starts[i] as usize;
    let g = moves::kept(live, base);
    let above = starts[i + 1] as usize;
    Counts {
        frames: i + 1,
        live: base + 6 + g.locals + g.stack + 2 + parsed(p, n),
        store: c.store + 1 + (c.live - above) + listed(p, n),
    }
}

// The top frame loses its handlers and gets a value.
pub fn received(c: Counts, live: &[u8], starts: &[u32]) -> Counts
    requires { Receivable c (cells live.now) starts.now }
    ensures { result ≡ received_counts c (cells live.now) starts.now }
{
    let base = starts[c.frames - 1] as usize;
    let g = moves::kept(live, base);
    Counts {
        live: base + 6 + g.locals + g.stack + 1,
        ..c
    }
}

// What a plan with n arguments would leave.
pub fn counts_after(
    plan: Plan,
    n: usize,
    live: &[u8],
    store: &[u8],
    starts: &[u32],
    c: Counts,
) -> Counts
    requires { Countable plan n c (cells live.now) (cells store.now) starts.now }
    ensures { (P : Program) (m m' : M) (args : List Cell) → length args ≡ n → Carries P plan args m m' → Held P m c (cells live.now) (cells store.now) starts.now → Ready plan m (cells live.now) → result ≡ counts_of m' }
{
    match plan {
        Plan::Starts(f, p) => started(c, f.locals as usize, p, n),
        Plan::Resumes(handle, _) => resumed(c, store, handle),
        Plan::Handles(i, _, _, p) => handled(c, live, starts, i, p, n),
        Plan::Catches(i, _, _) => handled(c, live, starts, i, Params::ONE, 1),
        Plan::Unhandled(_) => Counts {
            live: c.live + n,
            ..c
        },
        Plan::Fails(_) => c,
        Plan::Receives(_) => received(c, live, starts),
        Plan::Returns(_) => c,
        Plan::Stays => c,
    }
}

// Is there room for so much? "Then 13, 14, 15."
pub fn check(c: Counts, live: usize, store: usize) -> Result<(), Refusal>
    ensures { number_of result ≡ refusal_by (record { live = live; store = store }) c }
{
    if c.frames > 256 {
        return Err(Refusal::ManyFrames);
    }
    if c.live > live {
        return Err(Refusal::LiveFull);
    }
    if c.store > store {
        return Err(Refusal::StoreFull);
    }
    Ok(())
}
