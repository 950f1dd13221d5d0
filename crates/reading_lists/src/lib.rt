// The reader of a list's items: one function for edges, triangles and tetrahedra, which differ in the number of vertices. An item
// is its number, which is looked up, so that the lists are neither gone through nor copied.
#![tactic(auto)]

ghost use Rattle.std.specs.Prelude.{◌≡◌, List, ◌+◌, ◌*◌, ◌≤◌, ◌<◌, length, get_or, take, drop};
ghost use Rattle.format.specs.Simplex.{sound_simplex, listed};
ghost use Rattle.format.specs.Simplex as format;
ghost use Rattle.keys.specs.Chained.{Chained};
ghost use Rattle.lookup.specs.Indexed.{NumberOf, Keyed, Proper, Blank};
ghost use Rattle.refusals.specs.Meaning.{number_of};
ghost use Rattle.reading_lists.specs.Items.{refusal_of, judgement_of, Shaped, ItemsTaken, unsound_edge, lack_of};

use refusals::{Reason, Refusal};

// What taking the items of a list comes to: how many are entered. Where one is refused, those before it are, and rule 8 is still
// asked of them, so the count stands beside the verdict.
#[derive(Clone, Copy)]
pub struct ItemsRead {
    pub verdict: Result<(), Refusal>,
    pub count: usize,
}

// The vertex at a place of the simplex that `width` bytes from `at` on spell, 0 past the last.
fn vertex_at(p: &[u8], at: usize, width: usize, place: usize) -> u16
    requires { at + width ≤ length p.now }
    ensures { result ≡ get_or (take width (drop at p.now)) place 0 }
{
    if place < width {
        p[at + place] as u16
    } else {
        0
    }
}

// The number of the simplex that `width` bytes from `at` on spell.
fn number_at(p: &[u8], at: usize, width: usize) -> u64
    requires { (width ≤ 4) × (at + width ≤ length p.now) }
    ensures { NumberOf (take width (drop at p.now)) result }
{
    let a = vertex_at(p, at, width, 0);
    let b = vertex_at(p, at, width, 1);
    let c = vertex_at(p, at, width, 2);
    let d = vertex_at(p, at, width, 3);
    lookup::number([a, b, c, d])
}

// Whether the vertices rise strictly and are all below v.
fn sound_at(p: &[u8], at: usize, width: usize, v: u16) -> bool
    requires { at + width ≤ length p.now }
    ensures { result ≡ sound_simplex v (take width (drop at p.now)) }
{
    let mut least: u16 = 0;
    for i in 0..width {
        let a = p[at + i] as u16;
        if a < least {
            return false;
        }
        if v <= a {
            return false;
        }
        least = a + 1;
    }
    true
}

// Whether the simplex that has a number is entered already.
fn entered(keys: &[u64], first: &[u16], next: &[u16], n: usize, number: u64) -> bool
    requires { Chained keys.now first.now next.now n }
    ensures { (s : format.Simplex) → NumberOf s number → (l : List format.Simplex) → Proper (length s) l → Keyed l keys.now n → result ≡ listed s l }
{
    lookup::rank_of(keys, first, next, n, number).is_some()
}

// Whether an edge breaks rule 6. The other simplices are sound where their facets are listed, so they are asked only where one
// is missing.
fn unsound_edge(p: &[u8], at: usize, width: usize, v: u16) -> bool
    requires { at + width ≤ length p.now }
    ensures { result ≡ unsound_edge width v (take width (drop at p.now)) }
{
    if 2 < width {
        return false;
    }
    !sound_at(p, at, width, v)
}

// What an item that lacks a facet is refused with: 6 vertex comes before 8 face.
pub fn lack_at(p: &[u8], at: usize, width: usize, v: u16) -> Reason
    requires { at + width ≤ length p.now }
    ensures { number_of result ≡ lack_of v (take width (drop at p.now)) }
{
    if sound_at(p, at, width, v) {
        return Reason::Face;
    }
    Reason::Vertex
}

// The item at a place, which has a number, behind the n items entered: the first of 6 vertex, asked of edges, and 7 twice that
// refuses it, if one does.
fn judge(
    keys: &[u64],
    first: &[u16],
    next: &[u16],
    n: usize,
    p: &[u8],
    at: usize,
    number: u64,
    v: u16,
    width: usize,
) -> Result<(), Reason>
    requires chained { Chained keys.now first.now next.now n }
    requires width_in_bounds { at + width ≤ length p.now }
    requires number_of { NumberOf (take width (drop at p.now)) number }
    ensures { (before : List format.Simplex) → Proper width before → Keyed before keys.now n → judgement_of result ≡ refusal_of width v before (take width (drop at p.now)) }
{
    if unsound_edge(p, at, width, v) {
        return Err(Reason::Vertex);
    }
    if entered(keys, first, next, n, number) {
        return Err(Reason::Twice);
    }
    Ok(())
}

// The items of the payload `p`, which starts at `base` of the file, up to the first that `judge` refuses: their number, and that
// refusal with its place. They are entered, so their numbers stand in the keys.
pub fn take_items(
    p: &[u8],
    base: usize,
    v: u16,
    width: usize,
    keys: &mut [u64],
    first: &mut [u16],
    next: &mut [u16],
) -> ItemsRead
    requires shaped { Shaped p.now base width }
    requires p_len_bound { length p.now ≤ width * length keys.old }
    requires blank { Blank first.old next.old }
    ensures { ItemsTaken p.now base v width keys.new first.new next.new result }
{
    let items = p.len() / width;
    for count in 0..items {
        let at = width * count;
        let number = number_at(p, at, width);
        let judged = judge(keys, first, next, count, p, at, number, v, width);
        if let Err(reason) = judged {
            return ItemsRead {
                verdict: Err(reason.at(base + at)),
                count,
            };
        }
        keys::link(keys, first, next, count, number);
    }
    ItemsRead {
        verdict: Ok(()),
        count: items,
    }
}
