// Slots in the lent work memory as the reduction of a matrix: what putting a column in, filling a
// chain and finding the smallest of a class come to, said of chains (specs/Slots.antt). With `taken`
// all false no column is in the slots, whatever the memory holds: a slot that is not taken is not read.
#![tactic(auto)]

ghost use Rattle.std.specs.Prelude.{◌≡◌, ℕ, ◌*◌, ◌≤◌, length};
ghost use Rattle.chains.specs.Chain.{Under};
ghost use Rattle.columns.specs.Slot.{room_of, chain_r};
ghost use Rattle.slots.specs.Slots.{PutsIn, FillsIn, ClassesIn};

use columns::{insert, reduce, settle};

// Puts the next column into the slots: the pair in hand is its boundary, which holds no row from `top`
// on, and its rank alone.
pub fn insert_column(work: &mut [u8], cur: &mut [u8], taken: &mut [bool], h: usize, top: usize)
    requires top_bound { top ≤ 8 * h }
    requires h_in_bounds { room_of h ≤ length work.old }
    requires cur_len { length cur.old ≡ 2 * h }
    requires top_in_bounds { top ≤ length taken.old }
    requires le_h { 8 ≤ h }
    ensures { (m : ℕ) → top ≤ m → m ≤ 8 * h → Under top (chain_r h cur.old) → PutsIn h m work.old taken.old cur.old work.new taken.new }
{
    insert(work, cur, taken, h, top);
}

// Fills the chain in hand, if it has a filling, and says whether: if so, the pair in hand then holds the smallest one.
pub fn fill_in(cur: &mut [u8], work: &[u8], taken: &[bool], h: usize, rows: usize) -> bool
    requires rows_bound { rows ≤ 8 * h }
    requires h_in_bounds { room_of h ≤ length work.now }
    requires cur_len { length cur.old ≡ 2 * h }
    requires rows_in_bounds { rows ≤ length taken.now }
    requires le_h { 8 ≤ h }
    ensures { FillsIn h rows work.now taken.now cur.old result cur.new }
{
    settle(cur, work, taken, h, rows).is_none()
}

// Makes the chain in hand the smallest of its class.
pub fn class_in(cur: &mut [u8], work: &[u8], taken: &[bool], h: usize, rows: usize)
    requires rows_bound { rows ≤ 8 * h }
    requires h_in_bounds { room_of h ≤ length work.now }
    requires cur_len { length cur.old ≡ 2 * h }
    requires rows_in_bounds { rows ≤ length taken.now }
    requires le_h { 8 ≤ h }
    ensures { ClassesIn h rows work.now taken.now cur.old cur.new }
{
    reduce(cur, work, taken, h, rows);
}
