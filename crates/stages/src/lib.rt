// The record stages of a job: a record is opened (2 cut, 3 kind), its shape is checked (4), and then its items.
#![tactic(auto)]

ghost use Rattle.std.specs.Prelude.{◌≡◌, List, ℕ, ◌+◌, ◌*◌, ◌≤◌, ◌<◌, eqb, length};
ghost use Rattle.format.specs.Opened.{opened};
ghost use Rattle.keys.specs.Chained.{Chained};
ghost use Rattle.lookup.specs.Indexed.{Blank};
ghost use Rattle.format.specs.Simplex.{Simplex};
ghost use Rattle.reading_lists.specs.Items.{FacesIn};
ghost use Rattle.stages.specs.Meaning.{opened_of, size_at, RoomAt, ListOpened, NothingRead, ListTaken, TakenItems, FacesFound};

use lists::SimplexList;
use records::Header;
use refusals::{Reason, Refusal};

// Opens the record at a place, where only this kind may stand: the length of its payload.
pub fn open(job: &[u8], at: usize, kind: u16) -> Result<usize, Refusal>
    ensures { opened_of result ≡ opened (eqb kind) job.now at }
{
    match records::header_at(job, at) {
        Header::Ended => Err(Reason::Kind.at(at)),
        Header::Broken => Err(Reason::Cut.at(at)),
        Header::Whole(found, size) => {
            if found != kind {
                return Err(Reason::Kind.at(at));
            }
            Ok(size)
        }
    }
}

// A list that was read: how many simplices are entered, and the offset of the record behind its own.
#[derive(Clone, Copy)]
pub struct ListRead {
    pub count: usize,
    pub next: usize,
}

// What was taken of a list, up to the first item that is refused by 7 or, among edges, by 6. Rule 8 is still asked of the items
// before that one, so their count stands beside the verdict.
#[derive(Clone, Copy)]
pub struct Taken {
    pub verdict: Result<(), Refusal>,
    pub count: usize,
    pub next: usize,
}

// Opens the list record of one kind at a place: 4 where it does not hold whole items, or too many of them.
fn open_list(job: &[u8], at: usize, kind: u16) -> Result<usize, Refusal>
    requires { 2 ≤ kind }
    ensures { ListOpened job.now at kind result }
{
    let size = open(job, at, kind)?;
    let width = kind as usize;
    if size % width != 0 {
        return Err(Reason::Shape.at(at));
    }
    if width * SimplexList::LIMIT < size {
        return Err(Reason::Shape.at(at));
    }
    Ok(size)
}

// How many bytes the list record of one kind at a place holds, 0 where none stands there. Whether the list is sound is not looked
// at: this tells how much room its reading takes.
pub fn list_bytes(job: &[u8], at: usize, kind: u16) -> usize
    ensures { result ≡ size_at job.now at kind }
{
    open(job, at, kind).unwrap_or(0)
}

// Reads a list record that has no items.
pub fn read_nothing(job: &[u8], at: usize, kind: u16) -> Result<ListRead, Refusal>
    requires le_kind { 2 ≤ kind }
    requires room_at { RoomAt job.now at kind 0 }
    ensures { NothingRead job.now at kind result }
{
    let size = open_list(job, at, kind)?;
    Ok(ListRead {
        count: 0,
        next: at + Header::BYTES + size,
    })
}

// Reads a list record of one kind at a place: its items are taken up to the first that is refused by 7 or, among edges, by 6.
// They are entered, so their numbers stand in the keys.
pub fn read_list(
    job: &[u8],
    at: usize,
    kind: u16,
    v: u16,
    keys: &mut [u64],
    first: &mut [u16],
    next: &mut [u16],
) -> Result<Taken, Refusal>
    requires le_kind { (2 ≤ kind) × (kind ≤ 4) }
    requires room_at { RoomAt job.now at kind (length keys.old) }
    requires blank { Blank first.old next.old }
    ensures { ListTaken job.now at kind v keys.new first.new next.new result }
{
    let size = open_list(job, at, kind)?;
    let start = at + Header::BYTES;
    let p = records::payload(job, at, size);
    let items = reading_lists::take_items(p, start, v, kind as usize, keys, first, next);
    let verdict = items.verdict;
    let count = items.count;
    Ok(Taken {
        verdict,
        count,
        next: start + size,
    })
}

// Looks up the facets of what was taken of the triangles or tetrahedra whose record stands at a place, among the m faces entered,
// and keeps them as sides. The first item that lacks one is refused, before whatever stands behind it.
pub fn find_faces(
    job: &[u8],
    at: usize,
    kind: u16,
    v: u16,
    face_keys: &[u64],
    face_first: &[u16],
    face_next: &[u16],
    m: usize,
    keys: &[u64],
    sides: &mut [u64],
    taken: Taken,
) -> Result<ListRead, Refusal>
    requires lt_kind { (2 < kind) × (kind ≤ 4) × (m ≤ 65536) }
    requires chained { Chained face_keys.now face_first.now face_next.now m }
    requires count_in_bounds { (taken.count ≤ length keys.now) × (taken.count ≤ length sides.old) }
    requires count_in_bounds_2 { 0 < taken.count → at + 6 + kind * taken.count ≤ length job.now }
    ensures { (first next : List ℕ) → TakenItems job.now at kind v keys.now first next taken → (faces : List Simplex) → FacesIn kind v faces face_keys.now m → FacesFound job.now at kind v faces keys.now sides.new taken result }
{
    let width = kind as usize;
    let count = taken.count;
    let found = lookup::find_sides(
        face_keys, face_first, face_next, m, keys, count, width, sides,
    );
    if let Err(rank) = found {
        let place = at + Header::BYTES + width * rank;
        let reason = reading_lists::lack_at(job, place, width, v);
        return Err(reason.at(place));
    }
    let verdict = taken.verdict;
    verdict?;
    Ok(ListRead {
        count,
        next: taken.next,
    })
}
