// The write call: reads a job and puts its normal form into lent bytes, or says why not.
#![tactic(auto)]

ghost use Rattle.std.specs.Prelude.{◌≡◌, ◌≤◌, ◌<◌, length};
ghost use Rattle.format.specs.Numbers.{small};
ghost use Rattle.format.specs.Promise.{two_numbers, WrittenJob, WritePromise};
ghost use Rattle.jobs.specs.Meaning.{Readable, job_in};
ghost use Rattle.writer.specs.Meaning.{job_bytes};
ghost use Rattle.writing.specs.Meaning.{chosen_from, Writable};

use complexes::Job;
use jobs::NumbersRead;
use lists::SimplexList;
use refusals::Reason;

// Two numbers in one: the upper 32 bits and the lower.
fn two_numbers(upper: u64, lower: u64) -> u64
    requires { (upper < 65536) × (lower < 4294967296) }
    ensures { result ≡ two_numbers upper lower }
{
    upper * 4294967296 + lower
}

// The length of the normal form of a job of which n simplices may be chosen: the head's record and four headers, the
// vertices of the lists, and two bytes for each mark that is on.
fn normal_length(job: &Job, n: usize) -> usize
    requires readable { Readable job.now }
    requires n_value { n ≡ length (chosen_from job.now) }
    ensures { (result ≡ length (job_bytes job.now n)) × (result ≤ 6690) }
{
    let e = complexes::count_of(job.complex.edges);
    let t = complexes::count_of(job.complex.triangles);
    let s = complexes::count_of(job.complex.tetrahedra);
    let a = writer::count_marks(job.marks, n);
    34 + 2 * e + 3 * t + 4 * s + 2 * a
}

// The normal form of a job that was read into lent arrays, where there is room for it, and its length; else refusal 14, place 0.
// Not inlined, or the reading would stand on the writing's frame.
#[inline(never)]
fn write_read(
    out: &mut [u8],
    read: NumbersRead,
    e_keys: &[u64],
    t_keys: &[u64],
    s_keys: &[u64],
) -> u64
    requires { Writable read e_keys.now t_keys.now s_keys.now }
    ensures { (k : Writable read e_keys.now t_keys.now s_keys.now) → WrittenJob (job_in read e_keys.now t_keys.now s_keys.now k.set) out.old result out.new }
{
    let job = jobs::job_by_value(read, e_keys, t_keys, s_keys);
    let n = job.complex.count(jobs::chain_dimension(job.head));
    let total = normal_length(&job, n);
    if out.len() < total {
        return two_numbers(u16::from(Reason::Room) as u64, 0);
    }
    writer::put_job(out, job, n);
    total as u64
}

// The write call's work, for every job and every lent bytes.
pub fn write(job: &[u8], out: &mut [u8]) -> u64
    ensures { WritePromise small job.now out.old result out.new }
{
    let mut e_keys = [0u64; SimplexList::LIMIT];
    let mut t_keys = [0u64; SimplexList::LIMIT];
    let mut s_keys = [0u64; SimplexList::LIMIT];
    let mut t_sides = [0u64; SimplexList::LIMIT];
    let mut s_sides = [0u64; SimplexList::LIMIT];
    let read = jobs::read_numbers(
        job,
        &mut e_keys,
        &mut t_keys,
        &mut s_keys,
        &mut t_sides,
        &mut s_sides,
    );
    match read {
        Ok(asked) => write_read(out, asked, &e_keys, &t_keys, &s_keys),
        Err(refusal) => two_numbers(u16::from(refusal.reason) as u64, refusal.place as u64),
    }
}
