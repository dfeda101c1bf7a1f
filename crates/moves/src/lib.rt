// The moves on live stack and store that opcodes are made of: what each does to cells is what the machine's definition does to lists.
// A frame that runs has its counts and its place in registers; reads and moves of it are said of any frame that its registers hold (`Top`).
#![tactic(auto)]

ghost use Rattle.std.specs.Prelude.{◌≡◌, List, ◌+◌, ◌-◌, ◌≤◌, ◌<◌, get_or};
ghost use Rattle.cells.specs.Cells.{null, room, cells, Sound};
ghost use Rattle.memory.specs.Layout.{Written};
ghost use Rattle.moves.specs.Runs.{Top, Turns, Settles, stack_at, end_of, with_counts, opened, pushed, set_top, set_local, no_handler, add_handler, set_handler, clear_handlers};
ghost use Rattle.moves.specs.Frames.{kept_in};

use cells::{Cell, Tag};

// The frame that runs: where it begins, its counts and its place. Its head need not show the last three until it is settled.
#[derive(Clone, Copy)]
pub struct Running {
    pub base: usize,
    pub locals: usize,
    pub handlers: usize,
    pub stack: usize,
    pub place: usize,
}

impl Running {
    // The same frame with so many values less on its stack.
    pub fn dropped(self, n: usize) -> Running
        requires { n ≤ self.stack }
        ensures { result ≡ record { base = self.base; locals = self.locals; handlers = self.handlers; stack = self.stack - n; place = self.place } }
    {
        Running {
            stack: self.stack - n,
            ..self
        }
    }
}

// The same frame with other counts of handlers and stack values.
fn with_counts(g: Running, handlers: usize, stack: usize) -> Running
    ensures { result ≡ with_counts handlers stack g }
{
    Running {
        handlers,
        stack,
        ..g
    }
}

// Where its stack begins.
fn stack_at(g: Running) -> usize
    requires { stack_at g < 18446744073709551616 }
    ensures { result ≡ stack_at g }
{
    g.base + 6 + g.locals + 2 * g.handlers
}

// Where it ends.
pub fn end(g: Running) -> usize
    requires { end_of g < 18446744073709551616 }
    ensures { result ≡ end_of g }
{
    stack_at(g) + g.stack
}

// The frame at `base`, as its head shows it.
pub fn open(x: &[u8], base: usize) -> Running
    requires { base + 6 ≤ room x.now }
    ensures { (result ≡ opened (cells x.now) base) × (result.place < 4294967296) }
{
    Running {
        base,
        locals: cells::number(x, base) as usize,
        handlers: cells::payload(x, base) as usize,
        stack: cells::payload(x, base + 2) as usize,
        place: cells::number(x, base + 2) as usize,
    }
}

// Its head shows the counts and the place again.
#[tactic(auto, using(crate::specs::Runs::settled))]
pub fn settle(live: &mut [u8], g: Running)
    requires { (g.base + 6 ≤ room live.old) × (g.place < 4294967296) }
    ensures { Settles g live.old live.new }
{
    cells::set_payload(live, g.base, g.handlers as u64);
    cells::set_number(live, g.base + 2, g.place as u32);
    cells::set_payload(live, g.base + 2, g.stack as u64);
}

// A value goes on its stack.
pub fn push(live: &mut [u8], g: Running, v: Cell) -> Running
    requires { end_of g < room live.old }
    ensures { (result ≡ with_counts g.handlers (g.stack + 1) g) × Turns (pushed v) g live.old result live.new }
{
    cells::put(live, end(g), v);
    with_counts(g, g.handlers, g.stack + 1)
}

// The i-th value from the top, which is 0.
pub fn top(live: &[u8], g: Running, i: usize) -> Cell
    requires { (i < g.stack) × (end_of g ≤ room live.now) }
    ensures { ((w : Written) (pre : List Cell) → Top w pre g (cells live.now) → result ≡ get_or w.stack i null) × Sound result }
{
    cells::get(live, end(g) - 1 - i)
}

// The i-th value from the top becomes v.
pub fn set_top(live: &mut [u8], g: Running, i: usize, v: Cell)
    requires { (i < g.stack) × (end_of g ≤ room live.old) }
    ensures { Turns (set_top i v) g live.old g live.new }
{
    cells::put(live, end(g) - 1 - i, v);
}

// A local.
pub fn local(live: &[u8], g: Running, i: usize) -> Cell
    requires { (i < g.locals) × (end_of g ≤ room live.now) }
    ensures { ((w : Written) (pre : List Cell) → Top w pre g (cells live.now) → result ≡ get_or w.locals i null) × Sound result }
{
    cells::get(live, g.base + 6 + i)
}

// A local becomes v.
#[tactic(auto, using(crate::specs::Runs::sets_local))]
pub fn set_local(live: &mut [u8], g: Running, i: usize, v: Cell)
    requires { (i < g.locals) × (end_of g ≤ room live.old) }
    ensures { Turns (set_local i v) g live.old g live.new }
{
    cells::put(live, g.base + 6 + i, v);
}

// The effect of a handler.
pub fn handler(live: &[u8], g: Running, i: usize) -> Cell
    requires { (i < g.handlers) × (end_of g ≤ room live.now) }
    ensures { ((w : Written) (pre : List Cell) → Top w pre g (cells live.now) → result ≡ (get_or w.handlers i no_handler).effect) × Sound result }
{
    cells::get(live, g.base + 6 + g.locals + 2 * i)
}

// The target of a handler.
pub fn handler_target(live: &[u8], g: Running, i: usize) -> u32
    requires { (i < g.handlers) × (end_of g ≤ room live.now) }
    ensures { (w : Written) (pre : List Cell) → Top w pre g (cells live.now) → result ≡ (get_or w.handlers i no_handler).target }
{
    cells::number(live, g.base + 6 + g.locals + 2 * i + 1)
}

// What is stored with a handler is replaced.
#[tactic(auto, using(crate::specs::Runs::sets_handler))]
pub fn set_handler(live: &mut [u8], g: Running, i: usize, target: u32, size: usize)
    requires { (i < g.handlers) × (end_of g ≤ room live.old) }
    ensures { Turns (set_handler i target size) g live.old g live.new }
{
    cells::put(
        live,
        g.base + 6 + g.locals + 2 * i + 1,
        Cell::new(Tag::Handler, target, size as u64),
    );
}

// A new handler behind the others: the stack goes up by two cells.
pub fn add_handler(live: &mut [u8], g: Running, effect: Cell, target: u32, size: usize) -> Running
    requires { end_of g + 2 ≤ room live.old }
    ensures { (result ≡ with_counts (g.handlers + 1) g.stack g) × Turns (add_handler effect target size) g live.old result live.new }
{
    let at = stack_at(g);
    blocks::copy_within(live, at + 2, at, g.stack);
    cells::put(live, at, effect);
    cells::put(live, at + 1, Cell::new(Tag::Handler, target, size as u64));
    with_counts(g, g.handlers + 1, g.stack)
}

// No handler is left: the stack goes down.
pub fn clear_handlers(live: &mut [u8], g: Running) -> Running
    requires { end_of g ≤ room live.old }
    ensures { (result ≡ with_counts 0 g.stack g) × Turns clear_handlers g live.old result live.new }
{
    if g.handlers == 0 {
        return g;
    }
    blocks::copy_within(live, g.base + 6 + g.locals, stack_at(g), g.stack);
    with_counts(g, 0, g.stack)
}

// The frame at `base` as it is before it gets a value: a Lucia frame keeps its stack, a callback frame's is emptied.
pub fn kept(x: &[u8], base: usize) -> Running
    requires { base + 6 ≤ room x.now }
    ensures { (result ≡ kept_in (cells x.now) base) × (result.place < 4294967296) }
{
    let g = open(x, base);
    if cells::tag(x, base) == Tag::FrameLucia as u32 {
        return g;
    }
    with_counts(g, g.handlers, 0)
}
