// Blocks of cells: copied from one slice to another, moved within one, filled.
#![tactic(auto)]

ghost use Rattle.std.specs.Prelude.{◌+◌, ◌≤◌, drop, replicate};
ghost use Rattle.std.proofs.Math.Seq.{paste};
ghost use Rattle.cells.specs.Cells.{room, cells, Writes};

use cells::Cell;

// The n cells of `from` that begin at `start` go to `to` at `at`. Here and below cell by cell: the slice's own
// `copy_from_slice` and `copy_within` have the archive for C need `memcpy` and `memmove` from outside.
pub fn copy(to: &mut [u8], at: usize, from: &[u8], start: usize, n: usize)
    requires { (at + n ≤ room to.old) × (start + n ≤ room from.now) }
    ensures { Writes to.old (paste (cells to.old) at (drop start (cells from.now)) n) to.new }
{
    for copied in 0..n {
        let c = cells::get(from, start + copied);
        cells::put(to, at + copied, c);
    }
}

// n cells go down within one slice: the first goes first, so that none is overwritten before it is read.
pub fn lower(s: &mut [u8], to: usize, from: usize, n: usize)
    requires { (to ≤ from) × (from + n ≤ room s.old) }
    ensures { Writes s.old (paste (cells s.old) to (drop from (cells s.old)) n) s.new }
{
    for moved in 0..n {
        let c = cells::get(s, from + moved);
        cells::put(s, to + moved, c);
    }
}

// n cells go up within one slice: the last goes first.
pub fn raise(s: &mut [u8], to: usize, from: usize, n: usize)
    requires { (from ≤ to) × (to + n ≤ room s.old) }
    ensures { Writes s.old (paste (cells s.old) to (drop from (cells s.old)) n) s.new }
{
    for left in (0..n).rev() {
        let c = cells::get(s, from + left);
        cells::put(s, to + left, c);
    }
}

// n cells go from `from` to `to` within one slice, wherever the two lie.
pub fn copy_within(s: &mut [u8], to: usize, from: usize, n: usize)
    requires { (to + n ≤ room s.old) × (from + n ≤ room s.old) }
    ensures { Writes s.old (paste (cells s.old) to (drop from (cells s.old)) n) s.new }
{
    if to <= from {
        lower(s, to, from, n);
    } else {
        raise(s, to, from, n);
    }
}

// The n cells at `at` become c.
#[tactic(auto, using(crate::proofs::Copied::copied_same))]
pub fn fill(s: &mut [u8], at: usize, n: usize, c: Cell)
    requires { at + n ≤ room s.old }
    ensures { Writes s.old (paste (cells s.old) at (replicate n c) n) s.new }
{
    for filled in 0..n {
        cells::put(s, at + filled, c);
    }
}
