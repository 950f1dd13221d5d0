// The panel's calls: numbers and byte slices, no demands on the caller. Everything that matters stands below this crate, and
// crate `mvozelanke_c` exports the calls to C. The answer call lends the arrays in which a job's lists stay from reading to answer
// (crate `lent_lists`): what is lent has to be made zero first, so a small job gets small ones, and one without tetrahedra none for
// them (decision 25).
#![tactic(auto)]

ghost use Rattle.std.specs.Prelude.{◌≡◌, true, ◌≤◌, length, replicate};
ghost use Rattle.format.specs.Numbers.{small};
ghost use Rattle.format.specs.Promise.{AnswerPromise, WritePromise};
ghost use Rattle.jobs.specs.Meaning.{FileRoom};
ghost use Rattle.answering.specs.Meaning.{AnswersFile};

use lists::SimplexList;
use refusals::Refusal;

// So many places are lent for the triangles of a small job, a quarter of a list's limit, and twice as many for its edges, of which
// a surface has half as many again as triangles.
const FEW: usize = 128;

const FEW_EDGES: usize = 256;

// Answers a job with so many places lent for its edges, its triangles and its tetrahedra.
fn answer_with<const EDGES: usize, const TRIANGLES: usize, const TETRAHEDRA: usize>(
    job: &[u8],
    out: &mut [u8],
    work: &mut [u8],
) -> usize
    requires few { (EDGES ≤ 512) × (TRIANGLES ≤ 512) × (TETRAHEDRA ≤ 512) }
    requires file_room { FileRoom job.now 10 (replicate EDGES 0) (replicate TRIANGLES 0) (replicate TETRAHEDRA 0) (replicate TRIANGLES 0) (replicate TETRAHEDRA 0) }
    requires in_bounds { 2055 ≤ length out.old }
    requires in_bounds_2 { 65536 ≤ length work.old }
    ensures { AnswersFile job.now out.old out.new result }
{
    let mut e_keys = [0u64; EDGES];
    let mut t_keys = [0u64; TRIANGLES];
    let mut s_keys = [0u64; TETRAHEDRA];
    let mut t_sides = [0u64; TRIANGLES];
    let mut s_sides = [0u64; TETRAHEDRA];
    answering::answer_in(
        job,
        out,
        work,
        &mut e_keys,
        &mut t_keys,
        &mut s_keys,
        &mut t_sides,
        &mut s_sides,
    )
}

// Answers a job with as little room as the sizes of its lists' records call for.
fn answer_file(job: &[u8], out: &mut [u8], work: &mut [u8]) -> usize
    requires in_bounds { 2055 ≤ length out.old }
    requires in_bounds_2 { 65536 ≤ length work.old }
    ensures { AnswersFile job.now out.old out.new result }
{
    let sizes = jobs::list_sizes(job);
    if 0 < sizes.tetrahedra {
        return answer_with::<
            { SimplexList::LIMIT },
            { SimplexList::LIMIT },
            { SimplexList::LIMIT },
        >(job, out, work);
    }
    if 2 * FEW_EDGES < sizes.edges || 3 * FEW < sizes.triangles {
        return answer_with::<{ SimplexList::LIMIT }, { SimplexList::LIMIT }, 0>(job, out, work);
    }
    answer_with::<FEW_EDGES, FEW, 0>(job, out, work)
}

// Answers a job: the record goes to the front of `out`, its length is returned, and `work` is all zero afterwards. Where
// fewer than 2,055 output bytes or 65,536 bytes of work memory are lent, returns 0 and writes nothing.
pub fn mvz_answer(job: &[u8], out: &mut [u8], work: &mut [u8]) -> usize
    ensures { AnswerPromise small job.now out.old work.old result out.new work.new }
{
    let room = out.len();
    if room < Refusal::ROOM_OUT {
        return 0;
    }
    let memory = work.len();
    if memory < Refusal::ROOM_WORK {
        return 0;
    }
    let count = answer_file(job, out, work);
    columns::clear(work);
    count
}

// Writes a job's normal form: the upper 32 bits are a refusal's number, 0 where it was written, the lower 32 the length
// written or the refusal's place. A refusal writes nothing.
pub fn mvz_write(job: &[u8], out: &mut [u8]) -> u64
    ensures { WritePromise small job.now out.old result out.new }
{
    writing::write(job, out)
}
