// The chain that a job asks about: a chain record's positions, or a walk's steps, become marks by rank.
#![tactic(auto)]

ghost use Rattle.std.specs.Prelude.{◌≡◌, ◌≤◌, ◌<◌, length};
ghost use Rattle.format.specs.Reading.{edge_between};
ghost use Rattle.lists.specs.Meaning.{vertices_of};
ghost use Rattle.lookup.specs.Indexed.{Proper, Indexed};
ghost use Rattle.lookup.specs.Numbered.{simplices_in};
ghost use Rattle.chosen.specs.Meaning.{PositionsRead, WalkRead, step_at};

use lists::{Marks, Simplex};
use refusals::{Reason, Refusal};

// The record that says what is asked about: which of the two it is, and the length of its payload.
#[derive(Clone, Copy)]
pub enum ChainRecord {
    Positions(usize),
    Walk(usize),
}

impl ChainRecord {
    // the kinds of a chain record and of a walk, and their longest payload
    pub const CHAIN: u16 = 5;

    pub const WALK: u16 = 6;

    pub const BYTES: usize = 1024;
}

// Marks the positions of a chain record, two bytes each, which must rise strictly below `count`.
pub fn read_positions(p: &[u8], base: usize, count: usize) -> Result<Marks, Refusal>
    requires { (count ≤ 512) × (base ≤ 65536) }
    ensures { PositionsRead p.now base count result }
{
    let mut marks = Marks::none();
    let mut least = 0;
    for i in 0..p.len() / 2 {
        let position = records::u16_at(p, 2 * i);
        if position < least {
            return Err(Reason::ChainItem.at(base + 2 * i));
        }
        if count <= position {
            return Err(Reason::ChainItem.at(base + 2 * i));
        }
        marks.on[position] = true;
        least = position + 1;
    }
    Ok(marks)
}

// The edge between two vertices, the lower one first.
pub fn edge_between(a: u8, b: u8) -> Simplex
    ensures { vertices_of result ≡ edge_between a b }
{
    if a < b {
        Simplex {
            vertices: [a as u16, b as u16, 0, 0],
            dim: 1,
        }
    } else {
        Simplex {
            vertices: [b as u16, a as u16, 0, 0],
            dim: 1,
        }
    }
}

// The edge that the walk's step from place i on takes; the last step goes back to the first vertex.
fn step_at(p: &[u8], i: usize) -> Simplex
    requires { i < length p.now }
    ensures { vertices_of result ≡ step_at p.now i }
{
    let next = i + 1;
    if next < p.len() {
        edge_between(p[i], p[next])
    } else {
        edge_between(p[i], p[0])
    }
}

// Marks the edges that the steps of a closed walk use; each must be listed, which the first `edges` keys tell.
pub fn read_walk(
    p: &[u8],
    base: usize,
    edges: usize,
    keys: &[u64],
    first: &[u16],
    next: &[u16],
) -> Result<Marks, Refusal>
    requires base_bound { (base ≤ 65536) × (edges ≤ 512) }
    requires proper { Proper 2 (simplices_in 2 keys.now edges) }
    requires indexed { Indexed (simplices_in 2 keys.now edges) keys.now first.now next.now edges }
    ensures { WalkRead p.now base (simplices_in 2 keys.now edges) result }
{
    let mut marks = Marks::none();
    for i in 0..p.len() {
        let found = lookup::find(keys, first, next, edges, step_at(p, i));
        let Some(rank) = found else {
            return Err(Reason::ChainItem.at(base + i));
        };
        marks.on[rank] = true;
    }
    Ok(marks)
}
