// Which handler of a frame has an effect, and which frame under the top.
#![tactic(auto)]

ghost use Rattle.std.specs.Prelude.{◌≡◌, List, ◌<◌, ◌≤◌, length, IfSome};
ghost use Rattle.std.specs.Option.{unwrap_or};
ghost use Rattle.cells.specs.Cells.{room, cells};
ghost use Rattle.machine.specs.Machine.{Frame};
ghost use Rattle.memory.specs.Layout.{Written};
ghost use Rattle.moves.specs.Runs.{Top, end_of};
ghost use Rattle.scan.specs.Tables.{program_of};
ghost use Rattle.plan.specs.Rest.{Under};
ghost use Rattle.plan.specs.Searches.{Finds, Lies, Searched};
ghost use Rattle.handlers.specs.Frames.{Has};

use cells::Cell;
use moves::Running;
use plan::Found;

// Has the j-th handler of a frame the effect?
fn handles(program: &lookups::Program, live: &[u8], g: Running, j: usize, e: Cell) -> bool
    requires { (j < g.handlers) × (end_of g ≤ room live.now) }
    ensures { Has (program_of program.now) e g (cells live.now) j result }
{
    effects::equal_effects(program, moves::handler(live, g, j), e)
}

// The first handler of a frame that has the effect.
pub fn find_handler(program: &lookups::Program, live: &[u8], g: Running, e: Cell) -> Option<usize>
    requires { end_of g ≤ room live.now }
    ensures finds { (w : Written) (pre : List Cell) → Top w pre g (cells live.now) → Finds (program_of program.now) e w.handlers (unwrap_or result g.handlers) }
    ensures within { IfSome result (λ j. j < g.handlers) }
{
    (0..g.handlers).find(|j| handles(program, live, g, *j, e))
}

// "The highest frame holding the effect, the top frame excepted."
pub fn search(
    program: &lookups::Program,
    live: &[u8],
    starts: &[u32],
    frames: usize,
    e: Cell,
) -> Option<Found>
    requires { Lies frames (cells live.now) starts.now }
    ensures { (F : List Frame) → length F ≡ frames → Under F (cells live.now) starts.now → Searched (program_of program.now) e F result }
{
    if frames == 0 {
        return None;
    }
    for i in (0..frames - 1).rev() {
        let g = moves::open(live, starts[i] as usize);
        if let Some(j) = find_handler(program, live, g, e) {
            return Some(Found {
                frame: i,
                handler: j,
            });
        }
    }
    None
}
