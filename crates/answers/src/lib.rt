// What an answer of the host does to its callback's frame: the word that it keeps, and the handlers of an answered call.
#![tactic(auto)]

ghost use Rattle.std.specs.Prelude.{◌+◌, ◌≤◌};
ghost use Rattle.cells.specs.Cells.{room, cells};
ghost use Rattle.scan.specs.Tables.{program_of};
ghost use Rattle.answers.specs.Answered.{Among, Distinct, Worded, Handleable, Rehandled, Layable, Lays, Puttable, PutsHandlers};
ghost use Rattle.answers.specs.Different.{Keeps};

use cells::Cell;
use refusals::Refusal;

// Is an effect equal to one of the first n that are kept?
fn among(program: &lookups::Program, kept: &[u8], n: usize, e: Cell) -> bool
    requires { n ≤ room kept.now }
    ensures { Among (program_of program.now) (cells kept.now) n e result }
{
    (0..n).any(|j| effects::equal_effects(program, cells::get(kept, j), e))
}

// An effect goes behind the first n that are kept, unless one of them is equal to it: how many are kept then, or `None`
// where 16 are there.
#[tactic(auto, using(crate::specs::Different::keeps_old, crate::specs::Different::keeps_many, crate::specs::Different::keeps_new))]
fn keep(program: &lookups::Program, kept: &mut [u8], n: usize, e: Cell) -> Option<usize>
    requires { (n ≤ 16) × (16 ≤ room kept.old) }
    ensures { Keeps (program_of program.now) e n kept.old result kept.new }
{
    if among(program, kept, n, e) {
        return Some(n);
    }
    if n == 16 {
        return None;
    }
    cells::put(kept, n, e);
    Some(n + 1)
}

// "A repeat in an answer's handlers is dropped": the different ones are kept and counted; `None` says that there is a
// seventeenth.
pub fn distinct(program: &lookups::Program, handlers: &[u8], kept: &mut [u8]) -> Option<usize>
    requires { 16 ≤ room kept.old }
    ensures { Distinct (program_of program.now) (cells handlers.now) result (cells kept.new) }
{
    let all = cells::room(handlers);
    let mut count = 0;
    for i in 0..all {
        let e = cells::get(handlers, i);
        count = keep(program, kept, count, e)?;
    }
    Some(count)
}

// The word to keep is put in the frame of a host callback, which begins at `base`.
#[tactic(auto, using(crate::specs::Frames::words))]
pub fn set_word(live: &mut [u8], base: usize, word: u64)
    requires { base + 6 ≤ room live.old }
    ensures { Worded base word live.old live.new }
{
    cells::set_payload(live, base + 1, word);
}

// The frame of a host callback gets the first n effects of `kept` as its handlers.
pub fn set_handlers(live: &mut [u8], base: usize, kept: &[u8], n: usize)
    requires { Handleable base n (cells kept.now) live.old }
    ensures { Rehandled base n (cells kept.now) live.old live.new }
{
    let mut g = moves::clear_handlers(live, moves::open(live, base));
    for j in 0..n {
        g = moves::add_handler(live, g, cells::get(kept, j), 0, 0);
    }
    moves::settle(live, g);
}

// The frames go into a copy of the live stack that has room for 16 handlers more, with the word in the top one: where each begins, and where they end.
pub fn lay(live: &[u8], work: &mut [u8], starts: &mut [u32], frames: usize, word: u64) -> usize
    requires { Layable frames live.now work.old starts.old }
    ensures { Lays frames word result live.now work.old starts.old work.new starts.new }
{
    let end = placing::starts(live, starts, frames);
    blocks::copy(work, 0, live, 0, end);
    let top = frames - 1;
    set_word(work, starts[top] as usize, word);
    end
}

// The different handlers of an answered call go into its frame, which begins at `base`: where the frame ends then. 17 are
// too many.
pub fn put_handlers(
    program: &lookups::Program,
    handlers: &[u8],
    work: &mut [u8],
    base: usize,
) -> Result<usize, Refusal>
    requires { Puttable base work.old }
    ensures { PutsHandlers (program_of program.now) base (cells handlers.now) result work.old work.new }
{
    let mut kept = [0u8; 256];
    let n = distinct(program, handlers, &mut kept).ok_or(Refusal::ManyHandlers)?;
    set_handlers(work, base, &kept, n);
    Ok(moves::end(moves::open(work, base)))
}
