// The search for the smallest filling and the smallest chain of a class: the columns of a matrix are
// put into the slots of the lent work memory, and the asked chain is reduced by them. The simplices of the
// columns come as their sides, numbers whose digits are the ranks of their facets among the rows (crate
// `lookup`), so nothing is looked up here. `cur` is a lent pair of columns, 2·h bytes, and holds the answer
// at the end. Which slots hold a column stands in `taken`, all false at first: a slot that is not taken is
// not read, whatever its bytes are, so the work memory is not touched before the first column.
#![tactic(auto)]

ghost use Rattle.std.specs.Prelude.{◌≡◌, true, false, List, ◌*◌, ◌≤◌, ◌<◌, length, replicate};
ghost use Rattle.columns.specs.Slot.{room_of, chain_r, chain_v};
ghost use Rattle.format.specs.Simplex.{Simplex, rising_from};
ghost use Rattle.lookup.specs.Sides.{Sides};
ghost use Rattle.solver.specs.Columns.{MatrixIn, SidesWithin, AddsBoundary, HighestSide, WritesColumn, PutsNext, Loads, Marked};
ghost use Rattle.solver.specs.Solved.{RimTold, FillTold, ClassTold};

use columns::{clear, flip, next_down};
use lists::{Marks, SimplexList};
use slots::{class_in, fill_in, insert_column};

// A matrix: so many columns, each the sides of a simplex of `width` vertices, whose facets are among so many rows.
#[derive(Clone, Copy)]
pub struct Matrix<'a> {
    pub rows: usize,
    pub sides: &'a [u64],
    pub columns: usize,
    pub width: usize,
}

// Adds the boundary of the simplex of `size` vertices that has these sides to the chain of rows in hand. A simplex
// has four vertices at most, so its facets are taken off one after the other, which costs less than a loop over `size`.
pub fn add_boundary(cur: &mut [u8], sides: u64, size: usize)
    requires { SidesWithin (8 * length cur.old) size sides }
    ensures { (rows : List Simplex) (s : Simplex) → length s ≡ size → 0 < size → size ≤ 4 → Sides rows s size sides → AddsBoundary rows s cur.old cur.new }
{
    flip(cur, (sides % 65536) as usize);
    if size <= 1 {
        return;
    }
    let rest = sides / 65536;
    flip(cur, (rest % 65536) as usize);
    if size <= 2 {
        return;
    }
    let rest = rest / 65536;
    flip(cur, (rest % 65536) as usize);
    if size <= 3 {
        return;
    }
    flip(cur, (rest / 65536 % 65536) as usize);
}

// The highest of the sides of a simplex of `size` vertices. No two facets of a simplex are the same, so no
// other facet takes that row out of the boundary again: it is the highest row that the boundary holds.
fn highest_side(sides: u64, size: usize) -> usize
    ensures { (rows : List Simplex) (s : Simplex) → length s ≡ size → 0 < size → size ≤ 4 → rising_from 0 s ≡ true → Sides rows s size sides → HighestSide rows s result }
{
    let top = (sides % 65536) as usize;
    if size <= 1 {
        return top;
    }
    let top = top.max((sides / 65536 % 65536) as usize);
    if size <= 2 {
        return top;
    }
    let top = top.max((sides / 65536 / 65536 % 65536) as usize);
    if size <= 3 {
        return top;
    }
    top.max((sides / 65536 / 65536 / 65536 % 65536) as usize)
}

// Writes the column of a simplex over a pair of columns: its boundary, and its rank alone, the bit `own` of the pair.
fn write_column(col: &mut [u8], sides: u64, size: usize, own: usize)
    requires sides_within { SidesWithin (8 * length col.old) size sides }
    requires own_bound { own < 8 * length col.old }
    ensures { (rows : List Simplex) (s : Simplex) → length s ≡ size → 0 < size → size ≤ 4 → Sides rows s size sides → WritesColumn rows s own col.old col.new }
{
    clear(col);
    add_boundary(col, sides, size);
    flip(col, own);
}

// Puts the next column into the slots. Where the slot of its highest row is not taken, the column belongs there as it is:
// it is written there at once, and nothing is searched, reduced or copied.
fn put_column(
    work: &mut [u8],
    cur: &mut [u8],
    taken: &mut [bool],
    matrix: Matrix,
    h: usize,
    rank: usize,
)
    requires matrix_in { MatrixIn h matrix }
    requires rank_bound { rank < matrix.columns }
    requires rows_in_bounds { matrix.rows ≤ length taken.old }
    requires h_in_bounds { room_of h ≤ length work.old }
    requires cur_len { length cur.old ≡ 2 * h }
    requires le_h { 8 ≤ h }
    ensures { (k : MatrixIn h matrix.entry) → PutsNext h k.rows k.high rank work.old taken.old work.new taken.new }
{
    let sides = matrix.sides[rank];
    let top = highest_side(sides, matrix.width);
    let own = 8 * h + rank;
    if taken[top] {
        write_column(cur, sides, matrix.width, own);
        insert_column(work, cur, taken, h, top + 1);
    } else {
        let from = top * (2 * h);
        let to = from + 2 * h;
        write_column(&mut work[from..to], sides, matrix.width, own);
        taken[top] = true;
    }
}

// No slot is taken before the first column.
const NO_SLOTS: [bool; SimplexList::LIMIT] = [false; SimplexList::LIMIT];

// Puts all columns into the slots, of which none is taken before, in rising rank.
pub fn load(work: &mut [u8], cur: &mut [u8], taken: &mut [bool], matrix: Matrix, h: usize)
    requires matrix_in { MatrixIn h matrix }
    requires rows_bound { matrix.rows ≤ 512 }
    requires h_in_bounds { room_of h ≤ length work.old }
    requires cur_len { length cur.old ≡ 2 * h }
    requires taken_value { taken.old ≡ replicate 512 false }
    requires le_h { 8 ≤ h }
    ensures { (k : MatrixIn h matrix.entry) → Loads h k.rows k.high matrix.entry.rows work.new taken.new }
{
    for rank in 0..matrix.columns {
        put_column(work, cur, taken, matrix, h, rank);
    }
}

// Takes the marked ranks, of the first m, as the chain of rows in hand.
pub fn mark(cur: &mut [u8], marks: Marks, m: usize)
    requires m_bound { m ≤ 512 }
    requires m_bound_2 { m ≤ 8 * length cur.old }
    ensures { Marked m marks cur.old cur.new }
{
    clear(cur);
    for (i, &on) in marks.on[..m].iter().enumerate() {
        if on {
            flip(cur, i);
        }
    }
}

// Whether the boundary of the marked chain of columns is empty.
pub fn rim_closed(cur: &mut [u8], matrix: Matrix, marks: Marks, h: usize) -> bool
    requires matrix_in { MatrixIn h matrix }
    requires columns_bound { matrix.columns ≤ 512 }
    requires cur_len { length cur.old ≡ 2 * h }
    ensures { (k : MatrixIn h matrix.entry) → RimTold k.rows k.high marks result }
{
    clear(cur);
    for (i, &on) in marks.on[..matrix.columns].iter().enumerate() {
        if on {
            add_boundary(cur, matrix.sides[i], matrix.width);
        }
    }
    next_down(cur, matrix.rows).is_none()
}

// Fills the marked chain of rows by columns, the smallest way, and says whether that can be: if so, the filling is the second
// half of `cur`.
pub fn fill(work: &mut [u8], cur: &mut [u8], matrix: Matrix, marks: Marks, h: usize) -> bool
    requires matrix_in { MatrixIn h matrix }
    requires rows_bound { matrix.rows ≤ 512 }
    requires h_in_bounds { room_of h ≤ length work.old }
    requires cur_len { length cur.old ≡ 2 * h }
    requires le_h { 8 ≤ h }
    ensures { (k : MatrixIn h matrix.entry) → FillTold k.rows k.high marks result (chain_v h cur.new) }
{
    let mut taken = NO_SLOTS;
    load(work, cur, &mut taken, matrix, h);
    mark(cur, marks, matrix.rows);
    fill_in(cur, work, &taken, h, matrix.rows)
}

// Finds the smallest chain in the class of the marked chain of rows: then it is the first half of `cur`.
pub fn class(work: &mut [u8], cur: &mut [u8], matrix: Matrix, marks: Marks, h: usize)
    requires matrix_in { MatrixIn h matrix }
    requires rows_bound { matrix.rows ≤ 512 }
    requires h_in_bounds { room_of h ≤ length work.old }
    requires cur_len { length cur.old ≡ 2 * h }
    requires le_h { 8 ≤ h }
    ensures { (k : MatrixIn h matrix.entry) → ClassTold k.rows k.high marks (chain_r h cur.new) }
{
    let mut taken = NO_SLOTS;
    load(work, cur, &mut taken, matrix, h);
    mark(cur, marks, matrix.rows);
    class_in(cur, work, &taken, h, matrix.rows);
}
