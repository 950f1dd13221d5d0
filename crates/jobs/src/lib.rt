// The job reader: every byte string becomes a job or a numbered refusal with its place. Each stage hands on to the next, and
// the lists stay where they were read: as numbers in lent arrays, of edges (e), triangles (t) and tetrahedra (s), with the sides
// of the latter two.
#![tactic(auto)]

ghost use Rattle.std.specs.Prelude.{◌≡◌, List, ◌≤◌, length};
ghost use Rattle.format.specs.Numbers.{small};
ghost use Rattle.format.specs.Simplex.{Simplex};
ghost use Rattle.format.specs.Reading as format;
ghost use Rattle.format.specs.Reading.{Reading, reading, after_head, after_lists, chain_dimension, question_of};
ghost use Rattle.keys.specs.Chained.{Chained};
ghost use Rattle.lookup.specs.Indexed.{Blank, Indexed};
ghost use Rattle.lookup.specs.Numbered.{simplices_in};
ghost use Rattle.reading_lists.specs.Items.{FacesIn};
ghost use Rattle.stages.specs.Meaning.{RoomAt};
ghost use Rattle.heads.specs.Meaning.{head_of};
ghost use Rattle.lent_lists.specs.Held.{complex_in, Roomy, Held};
ghost use Rattle.jobs.specs.Meaning.{Outcome, SoundHead, FileRoom, SizesTold, ListHeld, ListsTold, Unedited, Told, ByValue};

use complexes::Job;
use heads::Head;
use keys::BUCKETS;
use lent_lists::Counts;
use lists::{Marks, SimplexList};
use records::Header;
use refusals::{Reason, Refusal};
use stages::ListRead;

// A job whose lists stay in lent arrays: the question, how many simplices each list has, and A as marks by rank. Before the edits
// are taken, `next` is the offset from which on they stand.
#[derive(Clone, Copy)]
pub struct NumbersRead {
    pub head: Head,
    pub counts: Counts,
    pub marks: Marks,
    pub next: usize,
}

// The dimension of A: one below the answer's for a filling, the answer's for a class.
pub fn chain_dimension(head: Head) -> usize
    ensures { result ≡ chain_dimension (question_of head.question) head.d }
{
    let d = head.d as usize;
    if head.question == Head::FILL {
        if d == 0 {
            return 0;
        }
        return d - 1;
    }
    d
}

// How many bytes the records of the edges, the triangles and the tetrahedra hold, as far as they stand where they should: what
// room the reading of the lists takes.
#[derive(Clone, Copy)]
pub struct Sizes {
    pub edges: usize,
    pub triangles: usize,
    pub tetrahedra: usize,
}

// The lists stand behind the head's record: its header and its four bytes.
const LISTS: usize = 10;

pub fn list_sizes(job: &[u8]) -> Sizes
    ensures { SizesTold job.now 10 result }
{
    let edges = stages::list_bytes(job, LISTS, SimplexList::EDGES);
    let behind_edges = LISTS + Header::BYTES + edges;
    let triangles = stages::list_bytes(job, behind_edges, SimplexList::TRIANGLES);
    let behind_triangles = behind_edges + Header::BYTES + triangles;
    let tetrahedra = stages::list_bytes(job, behind_triangles, SimplexList::TETRAHEDRA);
    Sizes {
        edges,
        triangles,
        tetrahedra,
    }
}

// The three lists as they were read, and the offset behind them.
#[derive(Clone, Copy)]
struct ListsRead {
    pub counts: Counts,
    pub next: usize,
}

// The tetrahedra, over m triangles. Where no array was lent for them there are none, and nothing is set up to look them up.
fn read_tetrahedra(
    job: &[u8],
    at: usize,
    v: u16,
    t_keys: &[u64],
    t_first: &[u16],
    t_next: &[u16],
    m: usize,
    s_keys: &mut [u64],
    s_sides: &mut [u64],
) -> Result<ListRead, Refusal>
    requires room_at { RoomAt job.now at 4 (length s_keys.old) }
    requires s_keys_in_bounds { length s_keys.old ≤ length s_sides.old }
    requires chained { Chained t_keys.now t_first.now t_next.now m }
    requires m_bound { m ≤ 65536 }
    ensures { (faces : List Simplex) → FacesIn 4 v faces t_keys.now m → ListHeld job.now at 4 v faces s_keys.new s_sides.new result }
{
    if s_keys.len() == 0 {
        return stages::read_nothing(job, at, SimplexList::TETRAHEDRA);
    }
    let mut s_first = [0u16; BUCKETS];
    let mut s_next = [0u16; SimplexList::LIMIT];
    let taken = stages::read_list(
        job,
        at,
        SimplexList::TETRAHEDRA,
        v,
        s_keys,
        &mut s_first,
        &mut s_next,
    )?;
    stages::find_faces(
        job,
        at,
        SimplexList::TETRAHEDRA,
        v,
        t_keys,
        t_first,
        t_next,
        m,
        s_keys,
        s_sides,
        taken,
    )
}

// The edges, the triangles over them and the tetrahedra over those. An edge's facets are vertices, which no list holds, and its
// number says its sides. The links of the edges stay, for a walk; those of triangles serve the look-up of facets and doubles
// alone, and those of tetrahedra that of doubles.
fn read_lists(
    job: &[u8],
    at: usize,
    v: u16,
    e_keys: &mut [u64],
    e_first: &mut [u16],
    e_next: &mut [u16],
    t_keys: &mut [u64],
    s_keys: &mut [u64],
    t_sides: &mut [u64],
    s_sides: &mut [u64],
) -> Result<ListsRead, Refusal>
    requires file_room { FileRoom job.now at e_keys.old t_keys.old s_keys.old t_sides.old s_sides.old }
    requires blank { Blank e_first.old e_next.old }
    ensures { ListsTold job.now at v e_keys.new e_first.new e_next.new t_keys.new s_keys.new t_sides.new s_sides.new result }
{
    let edges = stages::read_list(job, at, SimplexList::EDGES, v, e_keys, e_first, e_next)?;
    edges.verdict?;
    let mut t_first = [0u16; BUCKETS];
    let mut t_next = [0u16; SimplexList::LIMIT];
    let taken = stages::read_list(
        job,
        edges.next,
        SimplexList::TRIANGLES,
        v,
        t_keys,
        &mut t_first,
        &mut t_next,
    )?;
    let found = stages::find_faces(
        job,
        edges.next,
        SimplexList::TRIANGLES,
        v,
        e_keys,
        e_first,
        e_next,
        edges.count,
        t_keys,
        t_sides,
        taken,
    );
    let triangles = found?;
    let tetrahedra = read_tetrahedra(
        job,
        triangles.next,
        v,
        t_keys,
        &t_first,
        &t_next,
        triangles.count,
        s_keys,
        s_sides,
    )?;
    Ok(ListsRead {
        counts: Counts {
            edges: edges.count,
            triangles: triangles.count,
            tetrahedra: tetrahedra.count,
        },
        next: tetrahedra.next,
    })
}

// What is asked about.
fn after_lists(
    job: &[u8],
    head: Head,
    at: usize,
    counts: Counts,
    e_keys: &[u64],
    e_first: &[u16],
    e_next: &[u16],
    t_keys: &[u64],
    s_keys: &[u64],
    t_sides: &[u64],
    s_sides: &[u64],
) -> Result<NumbersRead, Refusal>
    requires job_len_bound { length job.now ≤ 6690 }
    requires sound_head { SoundHead head }
    requires held { Held head.v counts e_keys.now t_keys.now s_keys.now t_sides.now s_sides.now }
    requires indexed { Indexed (simplices_in 2 e_keys.now counts.edges) e_keys.now e_first.now e_next.now counts.edges }
    ensures { Unedited (after_lists small job.now (head_of head) at (complex_in head.v counts e_keys.now t_keys.now s_keys.now)) job.now e_keys.now t_keys.now s_keys.now t_sides.now s_sides.now result }
{
    let v = head.v;
    let dim = chain_dimension(head);
    let count = counts.of(v, dim);
    let edges = counts.edges;
    let asked = chain_stage::read_chain(job, at, dim, count, edges, e_keys, e_first, e_next)?;
    Ok(NumbersRead {
        head,
        counts,
        marks: asked.marks,
        next: asked.next,
    })
}

// The lists, and then what is asked about.
fn after_head(
    job: &[u8],
    head: Head,
    at: usize,
    e_keys: &mut [u64],
    t_keys: &mut [u64],
    s_keys: &mut [u64],
    t_sides: &mut [u64],
    s_sides: &mut [u64],
) -> Result<NumbersRead, Refusal>
    requires job_len_bound { length job.now ≤ 6690 }
    requires sound_head { SoundHead head }
    requires file_room { FileRoom job.now at e_keys.old t_keys.old s_keys.old t_sides.old s_sides.old }
    ensures { Unedited (after_head small job.now at (head_of head)) job.now e_keys.new t_keys.new s_keys.new t_sides.new s_sides.new result }
{
    let mut e_first = [0u16; BUCKETS];
    let mut e_next = [0u16; SimplexList::LIMIT];
    let lists = read_lists(
        job,
        at,
        head.v,
        e_keys,
        &mut e_first,
        &mut e_next,
        t_keys,
        s_keys,
        t_sides,
        s_sides,
    )?;
    let counts = lists.counts;
    after_lists(
        job, head, lists.next, counts, e_keys, &e_first, &e_next, t_keys, s_keys, t_sides, s_sides,
    )
}

// Reads a job file, any bytes of any length, up to its edits, and leaves its lists in the lent arrays.
pub fn read_unedited(
    job: &[u8],
    e_keys: &mut [u64],
    t_keys: &mut [u64],
    s_keys: &mut [u64],
    t_sides: &mut [u64],
    s_sides: &mut [u64],
) -> Result<NumbersRead, Refusal>
    requires { FileRoom job.now 10 e_keys.old t_keys.old s_keys.old t_sides.old s_sides.old }
    ensures { Unedited (reading small job.now) job.now e_keys.new t_keys.new s_keys.new t_sides.new s_sides.new result }
{
    if Job::BYTES < job.len() {
        return Err(Reason::TooLong.at(0));
    }
    let size = stages::open(job, 0, Head::KIND)?;
    if size != Head::BYTES {
        return Err(Reason::Shape.at(0));
    }
    let p = records::payload(job, 0, size);
    let head = heads::read_head(p)?;
    after_head(job, head, LISTS, e_keys, t_keys, s_keys, t_sides, s_sides)
}

// Takes the edits of a job that was read up to them.
pub fn take_edits(
    job: &[u8],
    read: NumbersRead,
    e_keys: &mut [u64],
    t_keys: &mut [u64],
    s_keys: &mut [u64],
    t_sides: &mut [u64],
    s_sides: &mut [u64],
) -> Result<NumbersRead, Refusal>
    requires { Held read.head.v read.counts e_keys.old t_keys.old s_keys.old t_sides.old s_sides.old }
    ensures { (r0 : Reading format.Job) → Unedited r0 job.now e_keys.old t_keys.old s_keys.old t_sides.old s_sides.old (Ok read) → Told r0 e_keys.new t_keys.new s_keys.new t_sides.new s_sides.new result }
{
    let head = read.head;
    let counts = read.counts;
    let marks = read.marks;
    let dim = chain_dimension(head);
    let edited = lent_lists::take_edits(
        job, read.next, head.v, counts, marks, dim, e_keys, t_keys, s_keys, t_sides, s_sides,
    )?;
    let counts_after = edited.counts;
    let marks_after = edited.marks;
    Ok(NumbersRead {
        head,
        counts: counts_after,
        marks: marks_after,
        next: job.len(),
    })
}

// Reads a job file, any bytes of any length, and leaves its lists in the lent arrays, as they stand after the edits.
pub fn read_numbers(
    job: &[u8],
    e_keys: &mut [u64],
    t_keys: &mut [u64],
    s_keys: &mut [u64],
    t_sides: &mut [u64],
    s_sides: &mut [u64],
) -> Result<NumbersRead, Refusal>
    requires { FileRoom job.now 10 e_keys.old t_keys.old s_keys.old t_sides.old s_sides.old }
    ensures { Told (reading small job.now) e_keys.new t_keys.new s_keys.new t_sides.new s_sides.new result }
{
    let unedited = read_unedited(job, e_keys, t_keys, s_keys, t_sides, s_sides)?;
    take_edits(job, unedited, e_keys, t_keys, s_keys, t_sides, s_sides)
}

// A job whose lists lent arrays hold, by value.
pub fn job_by_value(read: NumbersRead, e_keys: &[u64], t_keys: &[u64], s_keys: &[u64]) -> Job
    requires { Roomy read.counts e_keys.now t_keys.now s_keys.now }
    ensures { ByValue read e_keys.now t_keys.now s_keys.now result }
{
    let complex = lent_lists::complex_of(read.head.v, read.counts, e_keys, t_keys, s_keys);
    Job {
        head: read.head,
        complex,
        marks: read.marks,
    }
}

// Reads a job file, any bytes of any length, by value.
pub fn read_job(job: &[u8]) -> Result<Job, Refusal>
    ensures { Outcome (reading small job.now) result }
{
    let mut e_keys = [0u64; SimplexList::LIMIT];
    let mut t_keys = [0u64; SimplexList::LIMIT];
    let mut s_keys = [0u64; SimplexList::LIMIT];
    let mut t_sides = [0u64; SimplexList::LIMIT];
    let mut s_sides = [0u64; SimplexList::LIMIT];
    let read = read_numbers(
        job,
        &mut e_keys,
        &mut t_keys,
        &mut s_keys,
        &mut t_sides,
        &mut s_sides,
    )?;
    Ok(job_by_value(read, &e_keys, &t_keys, &s_keys))
}
