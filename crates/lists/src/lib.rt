// Simplices, the lists of a complex, and chains as marks by rank.
#![tactic(auto)]

ghost use Rattle.std.specs.Prelude.{◌≡◌, ◌+◌, ◌≤◌, ◌<◌, false, [], length, take, drop, get_or, replicate};
ghost use Rattle.format.specs.Simplex as format;
ghost use Rattle.lists.specs.Same.{same_of, same_always};
ghost use Rattle.lists.specs.Meaning.{vertices_of, simplices_of};
ghost use Rattle.lists.specs.Moved.{MovedList, MovedMarks};
ghost use Rattle.format.specs.Reading.{moved};

// A simplex: its vertices stand first in the array, one more of them than the dimension.
#[derive(Clone, Copy)]
pub struct Simplex {
    pub vertices: [u16; 4],
    pub dim: u16,
}

// A list of simplices in rank order: the first `count` items.
#[derive(Clone, Copy)]
pub struct SimplexList {
    pub items: [Simplex; SimplexList::LIMIT],
    pub count: usize,
}

// A chain by ranks in one list: the places that it holds are on.
#[derive(Clone, Copy)]
pub struct Marks {
    pub on: [bool; SimplexList::LIMIT],
}

impl Simplex {
    // What stands at a place that holds no simplex.
    pub fn none() -> Self {
        Self {
            vertices: [0; 4],
            dim: 0,
        }
    }

    // The number of vertices.
    pub fn size(self) -> usize
        ensures { (result ≡ length (vertices_of self)) × (result ≤ 4) }
    {
        (self.dim as usize + 1).min(4)
    }

    // The vertices that count, in their order.
    pub fn vertices(&self) -> &[u16]
        ensures { result.now ≡ vertices_of self.now }
    {
        &self.vertices[..self.size()]
    }

    // The vertex at a place, 0 past the last.
    pub fn vertex(self, place: usize) -> u16
        ensures { result ≡ get_or (vertices_of self) place 0 }
    {
        self.vertices().get(place).copied().unwrap_or(0)
    }
}

// The same vertices.
impl PartialEq for Simplex {
    ghost eq = { λ s t. format.same (vertices_of s) (vertices_of t) };

    ghost laws = { same_of vertices_of };

    fn eq(&self, other: &Self) -> bool {
        // item by item: `==` of slices is a call, which adds to the stack of the edits
        self.vertices().iter().eq(other.vertices())
    }
}

impl Eq for Simplex {
    ghost laws = { same_always vertices_of };
}

impl SimplexList {
    // The kind of each list's record, which is also the number of vertices of its simplices.
    pub const EDGES: u16 = 2;

    pub const TRIANGLES: u16 = 3;

    pub const TETRAHEDRA: u16 = 4;
    // "at most 512 simplices a list"
    pub const LIMIT: usize = 512;

    pub fn empty() -> Self
        ensures { (simplices_of result ≡ []) × (result.count ≡ 0) }
    {
        let items = [Simplex::none(); SimplexList::LIMIT];
        Self { items, count: 0 }
    }

    // The list with the simplex at `seen` taken out and put at `new`; those between shift by one place.
    pub fn moved(mut self, seen: usize, new: usize) -> Self
        ensures { MovedList self result seen new }
    {
        let n = self.count.min(SimplexList::LIMIT);
        if seen < n && new < n {
            move_item(&mut self.items, seen, new);
        }
        self
    }
}

impl Marks {
    // The empty chain.
    pub fn none() -> Self
        ensures { result.on ≡ replicate 512 false }
    {
        Self {
            on: [false; SimplexList::LIMIT],
        }
    }

    // The same chain after its list was changed by a move from `seen` to `new`.
    pub fn moved(mut self, seen: usize, new: usize) -> Self
        ensures { MovedMarks self result seen new }
    {
        if seen < SimplexList::LIMIT && new < SimplexList::LIMIT {
            move_item(&mut self.on, seen, new);
        }
        self
    }
}

// Takes the item at `seen` out and puts it at `new`; those between shift by one place. It changes places with one neighbour after
// the other: turning that part of the list at once would call memmove, and of the C library the header names memcpy and memset alone.
fn move_item<T>(items: &mut [T], seen: usize, new: usize)
    requires { (seen < length items.old) × (new < length items.old) }
    ensures { items.new ≡ moved seen new items.old }
{
    if seen < new {
        for i in seen..new {
            items.swap(i, i + 1);
        }
    } else {
        for i in (new..seen).rev() {
            items.swap(i + 1, i);
        }
    }
}

// The simplex that `width` bytes from `at` on spell.
pub fn simplex_at(p: &[u8], at: usize, width: usize) -> Simplex
    requires { (1 ≤ width) × (width ≤ 4) × (at + width ≤ length p.now) }
    ensures { vertices_of result ≡ take width (drop at p.now) }
{
    let mut vertices = [0; 4];
    for (place, byte) in p[at..at + width].iter().enumerate() {
        vertices[place] = *byte as u16;
    }
    Simplex {
        vertices,
        dim: (width - 1) as u16,
    }
}
