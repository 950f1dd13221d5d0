// A complex: its number of vertices and its three lists, by value; and a job, which asks a question of one.
#![tactic(auto)]

ghost use Rattle.std.specs.Prelude.{◌≡◌, length, ◌≤◌};
ghost use Rattle.lists.specs.Meaning.{simplices_of};
ghost use Rattle.complexes.specs.Meaning.{list_of};

use heads::Head;
use lists::{Marks, SimplexList};

#[derive(Clone, Copy)]
pub struct Complex {
    pub v: u16,
    pub edges: SimplexList,
    pub triangles: SimplexList,
    pub tetrahedra: SimplexList,
}

// The question, the complex after all edits, and A as marks by rank.
#[derive(Clone, Copy)]
pub struct Job {
    pub head: Head,
    pub complex: Complex,
    pub marks: Marks,
}

impl Job {
    // "6,690 bytes a job"
    pub const BYTES: usize = 6690;
}

// How many simplices a list holds.
pub fn count_of(list: SimplexList) -> usize
    ensures { (result ≡ length (simplices_of list)) × (result ≤ 512) }
{
    list.count.min(SimplexList::LIMIT)
}

impl Complex {
    // No vertices and no simplices.
    pub fn empty() -> Self {
        Self {
            v: 0,
            edges: SimplexList::empty(),
            triangles: SimplexList::empty(),
            tetrahedra: SimplexList::empty(),
        }
    }

    // The list of a dimension from 1 to 3; outside, none.
    #[tactic(auto, unfolding(format::specs::Simplex::simplices))]
    pub fn list(self, dim: usize) -> SimplexList
        ensures { 1 ≤ dim → simplices_of result ≡ list_of self dim }
    {
        match dim {
            1 => self.edges,
            2 => self.triangles,
            3 => self.tetrahedra,
            _ => SimplexList::empty(),
        }
    }

    // How many simplices of a dimension there are.
    pub fn count(self, dim: usize) -> usize
        ensures { (result ≡ length (list_of self dim)) × (self.v ≤ 512 → result ≤ 512) }
    {
        match dim {
            0 => self.v as usize,
            _ => count_of(self.list(dim)),
        }
    }
}
