// `parse_args_to_stack`: a variadic takes the arguments past its count as one new list.
#![tactic(auto)]

ghost use Rattle.std.specs.Prelude.{◌≡◌, List, ℕ, ◌+◌, ◌≤◌, ◌<◌};
ghost use Rattle.cells.specs.Cells.{room, cells};
ghost use Rattle.moves.specs.Runs.{end_of};
ghost use Rattle.plan.specs.Plans.{taken_count, listed_cells, Enough};
ghost use Rattle.plan.specs.Parsed.{Lists, Pushes, PushesFrom};

use cells::{Cell, Tag};
use moves::Running;
use plan::Params;

// The list of the rest goes to the end of the store.
pub fn list_rest(store: &mut [u8], at: usize, args: &[u8], p: Params)
    requires { (at + listed_cells p (room args.now) ≤ room store.old) × Enough p (room args.now) }
    ensures { Lists p at (cells args.now) store.old store.new }
{
    if p.variadic {
        let count = p.count as usize;
        objects::new_object(
            store,
            at,
            Tag::ObjectList as u32,
            0,
            args,
            count,
            cells::room(args) - count,
        );
    }
}

// The parsed arguments go on the stack of a frame; the list, if there is one, stands at a handle.
pub fn push_args(live: &mut [u8], g: Running, args: &[u8], p: Params, list: usize) -> Running
    requires { (end_of g + taken_count p (room args.now) ≤ room live.old) × Enough p (room args.now) × (list < 4294967296) }
    ensures { Pushes p list (cells args.now) g live.old result live.new }
{
    if p.variadic {
        let count = p.count as usize;
        let h = push_from(live, g, args, count);
        return moves::push(live, h, Cell::new(Tag::List, list as u32, 0));
    }
    push_from(live, g, args, cells::room(args))
}

// The first n cells of another slice go on the stack of a frame as they are.
fn push_from(live: &mut [u8], g: Running, args: &[u8], n: usize) -> Running
    requires { (end_of g + n ≤ room live.old) × (n ≤ room args.now) }
    ensures { PushesFrom n (cells args.now) g live.old result live.new }
{
    blocks::copy(live, moves::end(g), args, 0, n);
    Running {
        stack: g.stack + n,
        ..g
    }
}
