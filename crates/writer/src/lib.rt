// The job writer: puts the normal form of a job into lent bytes, piece behind piece.
#![tactic(auto)]

ghost use Rattle.std.specs.Prelude.{◌≡◌, ◌+◌, ◌≤◌, length, take};
ghost use Rattle.format.specs.Answer.{u16_bytes, u32_bytes, record_of};
ghost use Rattle.format.specs.Writing.{places_from};
ghost use Rattle.lists.specs.Meaning.{vertices_of, simplices_of};
ghost use Rattle.writer.specs.Splice.{splice};
ghost use Rattle.writer.specs.Meaning.{simplex_bytes, list_bytes, header_of_size, mark_bytes, Put, head_record, job_bytes};

use chosen::ChainRecord;
use complexes::Job;
use heads::Head;
use lists::{Marks, Simplex, SimplexList};
use records::Header;

// A number in two bytes, little-endian.
pub fn put_u16(out: &mut [u8], at: usize, n: usize)
    requires { at + 2 ≤ length out.old }
    ensures { out.new ≡ splice out.old at (u16_bytes n) }
{
    out[at..at + 2].copy_from_slice(&n.to_le_bytes()[..2]);
}

// A number in four bytes, little-endian.
pub fn put_u32(out: &mut [u8], at: usize, n: usize)
    requires { at + 4 ≤ length out.old }
    ensures { out.new ≡ splice out.old at (u32_bytes n) }
{
    out[at..at + 4].copy_from_slice(&n.to_le_bytes()[..4]);
}

// A record's header: four bytes of length, two of kind.
pub fn put_header(out: &mut [u8], at: usize, kind: usize, size: usize)
    requires { at + 6 ≤ length out.old }
    ensures { out.new ≡ splice out.old at (header_of_size kind size) }
{
    put_u32(out, at, size);
    put_u16(out, at + 4, kind);
}

// A simplex: one byte a vertex.
pub fn put_simplex(out: &mut [u8], at: usize, s: Simplex)
    requires { at + length (vertices_of s) ≤ length out.old }
    ensures { out.new ≡ splice out.old at (simplex_bytes (vertices_of s)) }
{
    for (place, vertex) in s.vertices().iter().enumerate() {
        out[at + place] = (*vertex % 256) as u8;
    }
}

// The simplices of a list, one behind the other.
pub fn put_list(out: &mut [u8], at: usize, list: SimplexList) -> usize
    requires { at + length (list_bytes (simplices_of list)) ≤ length out.old }
    ensures { Put out.old at (list_bytes (simplices_of list)) out.new result }
{
    let n = complexes::count_of(list);
    let mut next = at;
    for s in &list.items[..n] {
        put_simplex(out, next, *s);
        next += s.size();
    }
    next
}

// The positions of the first n marks that are on, two bytes each; the place behind them.
pub fn put_marks(out: &mut [u8], at: usize, marks: Marks, n: usize) -> usize
    requires { (n ≤ 512) × (at + length (mark_bytes n marks.on) ≤ length out.old) }
    ensures { Put out.old at (mark_bytes n marks.on) out.new result }
{
    let mut next = at;
    for (i, on) in marks.on[..n].iter().enumerate() {
        if *on {
            put_u16(out, next, i);
            next += 2;
        }
    }
    next
}

// A list's record: the simplices behind a header that says how long they are; the place behind it.
pub fn put_list_record(out: &mut [u8], at: usize, kind: u16, list: SimplexList) -> usize
    requires { at + length (record_of kind (list_bytes (simplices_of list))) ≤ length out.old }
    ensures { Put out.old at (record_of kind (list_bytes (simplices_of list))) out.new result }
{
    let start = at + Header::BYTES;
    let next = put_list(out, start, list);
    put_header(out, at, kind as usize, next - start);
    next
}

// The chain record: the positions of the first n marks that are on; the place behind it.
pub fn put_chain_record(out: &mut [u8], at: usize, marks: Marks, n: usize) -> usize
    requires { (n ≤ 512) × (at + length (record_of 5 (mark_bytes n marks.on)) ≤ length out.old) }
    ensures { Put out.old at (record_of 5 (mark_bytes n marks.on)) out.new result }
{
    let start = at + Header::BYTES;
    let next = put_marks(out, start, marks, n);
    put_header(out, at, ChainRecord::CHAIN as usize, next - start);
    next
}

// The head's record at the front; the place behind it.
pub fn put_head(out: &mut [u8], head: Head) -> usize
    requires { 10 ≤ length out.old }
    ensures { Put out.old 0 (head_record head) out.new result }
{
    put_header(out, 0, Head::KIND as usize, Head::BYTES);
    out[Header::BYTES] = head.question;
    out[Header::BYTES + 1] = head.d;
    put_u16(out, Header::BYTES + 2, head.v as usize);
    Header::BYTES + Head::BYTES
}

// How many of the first n marks are on.
pub fn count_marks(marks: Marks, n: usize) -> usize
    requires { n ≤ 512 }
    ensures { result ≡ length (places_from 0 (take n marks.on)) }
{
    // added up, which the compiler does several at a time; `filter` and `count` branch at each mark
    let mut count = 0;
    for on in &marks.on[..n] {
        count += *on as usize;
    }
    count
}

// The whole normal form of a job of which n simplices may be chosen; its length.
pub fn put_job(out: &mut [u8], job: Job, n: usize) -> usize
    requires { (n ≤ 512) × (length (job_bytes job n) ≤ length out.old) }
    ensures { Put out.old 0 (job_bytes job n) out.new result }
{
    // each list in a variable of its own: a field that is passed is copied once more, 8 KB of stack in all
    let edges = job.complex.edges;
    let triangles = job.complex.triangles;
    let tetrahedra = job.complex.tetrahedra;
    let a = put_head(out, job.head);
    let b = put_list_record(out, a, SimplexList::EDGES, edges);
    let c = put_list_record(out, b, SimplexList::TRIANGLES, triangles);
    let d = put_list_record(out, c, SimplexList::TETRAHEDRA, tetrahedra);
    put_chain_record(out, d, job.marks, n)
}
