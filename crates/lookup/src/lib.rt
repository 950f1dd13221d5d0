// The look-up of a simplex in its list, the one that all callers share: the simplices' own numbers are chained by buckets
// (crate `keys`), so that neither a list is gone through nor copied.
#![tactic(auto)]

ghost use Rattle.std.specs.Prelude.{◌≡◌, ℕ, List, ◌-◌, ◌≤◌, ◌<◌, length, get_or, IfSome, IfErr};
ghost use Rattle.format.specs.Simplex.{rank};
ghost use Rattle.format.specs.Simplex as format;
ghost use Rattle.lists.specs.Meaning.{vertices_of, simplices_of, rank_of};
ghost use Rattle.format.specs.Reading.{without};
ghost use Rattle.keys.specs.Chained.{Chained};
ghost use Rattle.keys.specs.Number.{digits_of};
ghost use Rattle.lookup.specs.Indexed.{NumberOf, Keyed, Proper, Blank, Entered, Indexed};
ghost use Rattle.lookup.specs.Numbered.{simplices_in};
ghost use Rattle.lookup.specs.Sides.{FacetsTold, SidesTold};

use lists::{Simplex, SimplexList};

// The number of the simplex of these vertices, which are the digits; past the last they are 0.
pub fn number(vertices: [u16; 4]) -> u64
    ensures { (s : format.Simplex) → length s ≤ 4 → ((i : ℕ) → i < 4 → get_or vertices i 0 ≡ get_or s i 0) → NumberOf s result }
{
    let [a, b, c, d] = vertices;
    a as u64 + 65536 * (b as u64 + 65536 * (c as u64 + 65536 * d as u64))
}

// A simplex's own number.
pub fn number_of(s: Simplex) -> u64
    ensures { NumberOf (vertices_of s) result }
{
    number([s.vertex(0), s.vertex(1), s.vertex(2), s.vertex(3)])
}

// The simplex of `width` vertices that has a number.
pub fn simplex_of(number: u64, width: usize) -> Simplex
    requires { (1 ≤ width) × (width ≤ 4) }
    ensures { vertices_of result ≡ digits_of width number }
{
    Simplex {
        vertices: [
            (number % 65536) as u16,
            (number / 65536 % 65536) as u16,
            (number / 65536 / 65536 % 65536) as u16,
            (number / 65536 / 65536 / 65536 % 65536) as u16,
        ],
        dim: (width - 1) as u16,
    }
}

// The number of the facet that leaves out vertex number `skip`, from the simplex's own number.
pub fn facet_number(number: u64, skip: usize) -> u64
    ensures { (s : format.Simplex) → NumberOf s number → length s ≤ 4 → skip < length s → NumberOf (without skip s) result }
{
    let a = number % 65536;
    let behind_a = number / 65536;
    let b = behind_a % 65536;
    let behind_b = behind_a / 65536;
    let c = behind_b % 65536;
    let behind_c = behind_b / 65536;
    match skip {
        0 => behind_a,
        1 => a + 65536 * behind_b,
        2 => a + 65536 * (b + 65536 * behind_c),
        _ => a + 65536 * (b + 65536 * c),
    }
}

// The rank of the simplex that has a number, in the list whose numbers the first n keys are.
pub fn rank_of(keys: &[u64], first: &[u16], next: &[u16], n: usize, number: u64) -> Option<usize>
    requires { Chained keys.now first.now next.now n }
    ensures below { IfSome result (λ r. r < n) }
    ensures rank { (s : format.Simplex) → NumberOf s number → (l : List format.Simplex) → Proper (length s) l → Keyed l keys.now n → rank_of result ≡ rank s l }
{
    keys::find(keys, first, next, n, number)
}

// The rank of a simplex in the list whose numbers the first n keys are.
pub fn find(keys: &[u64], first: &[u16], next: &[u16], n: usize, s: Simplex) -> Option<usize>
    requires { Chained keys.now first.now next.now n }
    ensures { (l : List format.Simplex) → Proper (length (vertices_of s)) l → Keyed l keys.now n → rank_of result ≡ rank (vertices_of s) l }
{
    rank_of(keys, first, next, n, number_of(s))
}

// Enters a simplex behind the first n.
pub fn enter(keys: &mut [u64], first: &mut [u16], next: &mut [u16], n: usize, s: Simplex)
    requires chained { Chained keys.old first.old next.old n }
    requires n_in_bounds { (n < length keys.old) × (n < length next.old) × (n < 65535) }
    ensures { Entered (vertices_of s) keys.old keys.new first.new next.new n }
{
    keys::link(keys, first, next, n, number_of(s));
}

// Enters a whole list, and says how many simplices it has.
pub fn index(list: SimplexList, keys: &mut [u64], first: &mut [u16], next: &mut [u16]) -> usize
    requires blank { Blank first.old next.old }
    requires list_in_bounds { length (simplices_of list) ≤ length keys.old }
    ensures { Indexed (simplices_of list) keys.new first.new next.new result × (result ≤ 512) }
{
    let n = list.count.min(SimplexList::LIMIT);
    for i in 0..n {
        enter(keys, first, next, i, list.items[i]);
    }
    n
}

// The list that the first n numbers stand for, simplices of `width` vertices. Not inlined, or each caller's frame has room for the
// lists that it makes one after the other.
#[inline(never)]
pub fn list_of(keys: &[u64], n: usize, width: usize) -> SimplexList
    requires le_width { (1 ≤ width) × (width ≤ 4) }
    requires n_bound { (n ≤ 512) × (n ≤ length keys.now) }
    ensures { simplices_of result ≡ simplices_in width keys.now n }
{
    let mut list = SimplexList::empty();
    for (rank, number) in keys[..n].iter().enumerate() {
        list.items[rank] = simplex_of(*number, width);
    }
    list.count = n;
    list
}

// The ranks of the facets of the simplex of `width` vertices that has a number, in the list whose numbers the first n keys
// are, if all of them are listed. They are the digits of one number, in dictionary order: the facet without the last vertex
// is the lowest.
pub fn facet_ranks(
    keys: &[u64],
    first: &[u16],
    next: &[u16],
    n: usize,
    number: u64,
    width: usize,
) -> Option<u64>
    requires chained { Chained keys.now first.now next.now n }
    requires width_bound { (width ≤ 4) × (n ≤ 65536) }
    ensures { (s : format.Simplex) → NumberOf s number → length s ≡ width → (faces : List format.Simplex) → Proper (width - 1) faces → Keyed faces keys.now n → FacetsTold faces s result }
{
    let mut ranks: u64 = 0;
    for skip in 0..width {
        let rank = rank_of(keys, first, next, n, facet_number(number, skip))?;
        ranks = ranks * 65536 + rank as u64;
    }
    Some(ranks)
}

// The sides of the n simplices of `width` vertices whose numbers the keys are, over the m faces entered, one after the other.
// Where one lacks a facet, its rank is the error, and those before it have their sides.
pub fn find_sides(
    face_keys: &[u64],
    face_first: &[u16],
    face_next: &[u16],
    m: usize,
    keys: &[u64],
    n: usize,
    width: usize,
    sides: &mut [u64],
) -> Result<(), usize>
    requires chained { Chained face_keys.now face_first.now face_next.now m }
    requires width_bound { (width ≤ 4) × (m ≤ 65536) × (n ≤ length keys.now) × (n ≤ length sides.old) }
    ensures below { IfErr result (λ r. r < n) }
    ensures sides { (faces l : List format.Simplex) → Proper (width - 1) faces → Keyed faces face_keys.now m → Proper width l → Keyed l keys.now n → SidesTold faces l sides.new n result }
{
    for rank in 0..n {
        let found = facet_ranks(face_keys, face_first, face_next, m, keys[rank], width);
        sides[rank] = found.ok_or(rank)?;
    }
    Ok(())
}
