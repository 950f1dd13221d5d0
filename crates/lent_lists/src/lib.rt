// The lists of a complex in lent arrays: each list is the numbers of its simplices, by rank, and triangles and tetrahedra have
// the ranks of their facets beside them, their sides. A complex by value is made of them for the edits, and for whoever writes a
// job.
#![tactic(auto)]

ghost use Rattle.std.specs.Prelude.{◌≡◌, length};
ghost use Rattle.format.specs.Simplex.{simplices};
ghost use Rattle.format.specs.Simplex as format;
ghost use Rattle.complexes.specs.Meaning.{complex_of};
ghost use Rattle.lent_lists.specs.Held.{complex_in, Counted, Roomy, Room, HoldsNow, Held, EditsHeld};

use complexes::Complex;
use keys::BUCKETS;
use lists::{Marks, SimplexList};
use refusals::Refusal;

// How many simplices each list has.
#[derive(Clone, Copy)]
pub struct Counts {
    pub edges: usize,
    pub triangles: usize,
    pub tetrahedra: usize,
}

impl Counts {
    // Of lists that nothing was read into.
    pub fn none() -> Self {
        Self {
            edges: 0,
            triangles: 0,
            tetrahedra: 0,
        }
    }

    // How many simplices of a dimension there are in a complex of v vertices.
    #[tactic(auto, unfolding(format::specs::Simplex::simplices))]
    pub fn of(self, v: u16, dim: usize) -> usize
        ensures { (X : format.Complex) → Counted X v self → result ≡ length (simplices X dim) }
    {
        if dim == 0 {
            return v as usize;
        }
        if dim == 1 {
            return self.edges;
        }
        if dim == 2 {
            return self.triangles;
        }
        if dim == 3 {
            return self.tetrahedra;
        }
        0
    }
}

// The complex that the numbers stand for.
pub fn complex_of(
    v: u16,
    counts: Counts,
    edges: &[u64],
    triangles: &[u64],
    tetrahedra: &[u64],
) -> Complex
    requires { Roomy counts edges.now triangles.now tetrahedra.now }
    ensures { complex_of result ≡ complex_in v counts edges.now triangles.now tetrahedra.now }
{
    let edges = lookup::list_of(edges, counts.edges, 2);
    let triangles = lookup::list_of(triangles, counts.triangles, 3);
    let tetrahedra = lookup::list_of(tetrahedra, counts.tetrahedra, 4);
    Complex {
        v,
        edges,
        triangles,
        tetrahedra,
    }
}

// Puts a complex into the arrays: the numbers of its edges (e), triangles (t) and tetrahedra (s), and the sides of the latter.
// Whether all sides are found is not asked: no simplex of a sound complex lacks a facet.
fn hold(
    complex: &Complex,
    e_keys: &mut [u64],
    t_keys: &mut [u64],
    s_keys: &mut [u64],
    t_sides: &mut [u64],
    s_sides: &mut [u64],
) -> Counts
    requires { Room (complex_of complex.now) e_keys.old t_keys.old s_keys.old t_sides.old s_sides.old }
    ensures { HoldsNow (complex_of complex.now) result e_keys.new t_keys.new s_keys.new t_sides.new s_sides.new }
{
    let mut e_first = [0u16; BUCKETS];
    let mut e_next = [0u16; SimplexList::LIMIT];
    let edges = lookup::index(complex.edges, e_keys, &mut e_first, &mut e_next);
    let mut t_first = [0u16; BUCKETS];
    let mut t_next = [0u16; SimplexList::LIMIT];
    let triangles = lookup::index(complex.triangles, t_keys, &mut t_first, &mut t_next);
    let mut s_first = [0u16; BUCKETS];
    let mut s_next = [0u16; SimplexList::LIMIT];
    let tetrahedra = lookup::index(complex.tetrahedra, s_keys, &mut s_first, &mut s_next);
    let _ = lookup::find_sides(
        e_keys, &e_first, &e_next, edges, t_keys, triangles, 3, t_sides,
    );
    let _ = lookup::find_sides(
        t_keys, &t_first, &t_next, triangles, s_keys, tetrahedra, 4, s_sides,
    );
    Counts {
        edges,
        triangles,
        tetrahedra,
    }
}

// After all edits of a job: how many simplices each list has, and the marks.
#[derive(Clone, Copy)]
pub struct Edited {
    pub counts: Counts,
    pub marks: Marks,
}

// Takes the edits from a place to the end of the file. Where there are none, the lists stay as they are; else they are made
// a complex, and what the edits leave of it is put in again. The marks are of the simplices of dimension `dim`.
pub fn take_edits(
    job: &[u8],
    at: usize,
    v: u16,
    counts: Counts,
    marks: Marks,
    dim: usize,
    e_keys: &mut [u64],
    t_keys: &mut [u64],
    s_keys: &mut [u64],
    t_sides: &mut [u64],
    s_sides: &mut [u64],
) -> Result<Edited, Refusal>
    requires { Held v counts e_keys.old t_keys.old s_keys.old t_sides.old s_sides.old }
    ensures { EditsHeld job.now at dim v (complex_in v counts e_keys.old t_keys.old s_keys.old) marks e_keys.new t_keys.new s_keys.new t_sides.new s_sides.new result }
{
    if job.len() <= at {
        return Ok(Edited { counts, marks });
    }
    let complex = complex_of(v, counts, e_keys, t_keys, s_keys);
    let edited = edits::read_edits(job, at, complex, marks, dim)?;
    let marks_after = edited.marks;
    let counts_after = hold(&edited.complex, e_keys, t_keys, s_keys, t_sides, s_sides);
    Ok(Edited {
        counts: counts_after,
        marks: marks_after,
    })
}
