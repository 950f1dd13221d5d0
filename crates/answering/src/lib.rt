// Answers a job: it is read into lent arrays, the sides of the asked dimension go to the solver, and its chain or its refusal
// into the output.
#![tactic(auto)]

ghost use Rattle.std.specs.Prelude.{◌≡◌, ◌≤◌, length};
ghost use Rattle.format.specs.Simplex.{Complex, vertex_list, lower, simplices};
ghost use Rattle.format.specs.Reading.{fill, class, chain_dimension, question_of};
ghost use Rattle.format.specs.Answer.{refusal_record};
ghost use Rattle.refusals.specs.Meaning.{number_of};
ghost use Rattle.lookup.specs.Numbered.{simplices_in};
ghost use Rattle.writer.specs.Meaning.{Put};
ghost use Rattle.lent_lists.specs.Held.{complex_in, Counted, Held};
ghost use Rattle.jobs.specs.Meaning.{FileRoom, Asking, job_in};
ghost use Rattle.solver.specs.Solved.{RimTold};
ghost use Rattle.answering.specs.Meaning.{Answers, AnswersFile, MatrixOf, of_dimension};

use jobs::NumbersRead;
use lists::SimplexList;
use refusals::Reason;
use solver::Matrix;

// Of three lists' numbers, or sides, those of a dimension from 1 on.
fn numbers_of<'a>(
    dim: usize,
    edges: &'a [u64],
    triangles: &'a [u64],
    tetrahedra: &'a [u64],
) -> &'a [u64]
    ensures { result.now ≡ of_dimension dim edges.now triangles.now tetrahedra.now }
{
    if dim == 2 {
        return triangles;
    }
    if dim == 3 {
        return tetrahedra;
    }
    edges
}

// The numbers of the vertices 0 to v - 1: "vertices rank by number", and each is its own.
fn number_vertices(keys: &mut [u64], v: usize)
    requires { (v ≤ length keys.old) × (v ≤ 65536) }
    ensures { simplices_in 1 keys.new v ≡ vertex_list v }
{
    for i in 0..v {
        keys[i] = i as u64;
    }
}

// The matrix of a dimension: its simplices are the rows, and those of the next dimension the columns.
fn matrix_of<'a>(
    read: NumbersRead,
    dim: usize,
    e_keys: &'a [u64],
    t_sides: &'a [u64],
    s_sides: &'a [u64],
) -> Matrix<'a>
    requires { dim ≤ 2 }
    ensures { (X : Complex) → Counted X read.head.v read.counts → MatrixOf X dim e_keys.now t_sides.now s_sides.now result }
{
    let counts = read.counts;
    let rows = counts.of(read.head.v, dim);
    let columns = counts.of(read.head.v, dim + 1);
    let sides = numbers_of(dim + 1, e_keys, t_sides, s_sides);
    Matrix {
        rows,
        sides,
        columns,
        width: dim + 2,
    }
}

// Puts a refusal's record at the front of the output.
fn refuse(out: &mut [u8], reason: Reason, place: usize) -> usize
    requires { 12 ≤ length out.old }
    ensures { Put out.old 0 (refusal_record (number_of reason) place) out.new result }
{
    answers::put_refusal(out, u16::from(reason), place)
}

// Whether the boundary of A, of dimension `dim`, is empty: that of vertices is.
fn rim_closed<'a>(
    read: NumbersRead,
    dim: usize,
    e_keys: &'a [u64],
    t_keys: &'a [u64],
    s_keys: &'a [u64],
    t_sides: &'a [u64],
    s_sides: &'a [u64],
) -> bool
    requires asking { Asking read e_keys.now t_keys.now s_keys.now t_sides.now s_sides.now }
    requires dim_bound { dim ≤ 2 }
    ensures { RimTold (lower (complex_in read.head.v read.counts e_keys.now t_keys.now s_keys.now) dim) (simplices (complex_in read.head.v read.counts e_keys.now t_keys.now s_keys.now) dim) read.marks result }
{
    if dim == 0 {
        return true;
    }
    let low = dim - 1;
    let matrix = matrix_of(read, low, e_keys, t_sides, s_sides);
    let mut cur = [0u8; 128];
    solver::rim_closed(&mut cur, matrix, read.marks, 64)
}

// Fills A, of dimension `dim`: the patch, or refusal 12 or 13. What has a filling has a closed rim, so the rim is looked at only
// where none was found.
#[tactic(auto, using(crate::proofs::Told::dimension_few))]
fn answer_fill<'a>(
    out: &mut [u8],
    work: &mut [u8],
    read: NumbersRead,
    dim: usize,
    e_keys: &'a [u64],
    t_keys: &'a [u64],
    s_keys: &'a [u64],
    t_sides: &'a [u64],
    s_sides: &'a [u64],
) -> usize
    requires asking { Asking read e_keys.now t_keys.now s_keys.now t_sides.now s_sides.now }
    requires dim_value { dim ≡ chain_dimension (question_of read.head.question) read.head.d }
    requires question_value { question_of read.head.question ≡ fill }
    requires in_bounds { 2055 ≤ length out.old }
    requires in_bounds_2 { 65536 ≤ length work.old }
    ensures { (k : Asking read e_keys.now t_keys.now s_keys.now t_sides.now s_sides.now) → Answers (job_in read e_keys.now t_keys.now s_keys.now k.set) out.old out.new result }
{
    let d = read.head.d;
    let matrix = matrix_of(read, dim, e_keys, t_sides, s_sides);
    let mut cur = [0u8; 128];
    let n = matrix.columns;
    let filled = solver::fill(work, &mut cur, matrix, read.marks, 64);
    if filled {
        let cols = numbers_of(dim + 1, e_keys, t_keys, s_keys);
        let half = 64;
        answers::put_chain(out, d, cols, n, dim + 2, &cur[half..])
    } else {
        let closed = rim_closed(read, dim, e_keys, t_keys, s_keys, t_sides, s_sides);
        if !closed {
            return refuse(out, Reason::RimOpen, 0);
        }
        refuse(out, Reason::NoFilling, 0)
    }
}

// The smallest chain in the class of A, of dimension `dim`.
#[tactic(auto, using(crate::proofs::Told::dimension_few))]
fn answer_class<'a>(
    out: &mut [u8],
    work: &mut [u8],
    read: NumbersRead,
    dim: usize,
    e_keys: &'a [u64],
    t_keys: &'a [u64],
    s_keys: &'a [u64],
    t_sides: &'a [u64],
    s_sides: &'a [u64],
) -> usize
    requires asking { Asking read e_keys.now t_keys.now s_keys.now t_sides.now s_sides.now }
    requires dim_value { dim ≡ chain_dimension (question_of read.head.question) read.head.d }
    requires question_value { question_of read.head.question ≡ class }
    requires in_bounds { 2055 ≤ length out.old }
    requires in_bounds_2 { 65536 ≤ length work.old }
    ensures { (k : Asking read e_keys.now t_keys.now s_keys.now t_sides.now s_sides.now) → Answers (job_in read e_keys.now t_keys.now s_keys.now k.set) out.old out.new result }
{
    let d = read.head.d;
    let matrix = matrix_of(read, dim, e_keys, t_sides, s_sides);
    let m = matrix.rows;
    let mut cur = [0u8; 128];
    solver::class(work, &mut cur, matrix, read.marks, 64);
    let start = 0;
    let half = 64;
    if dim == 0 {
        let mut vertices = [0u64; SimplexList::LIMIT];
        number_vertices(&mut vertices, m);
        return answers::put_chain(out, d, &vertices, m, 1, &cur[start..half]);
    }
    let rows = numbers_of(dim, e_keys, t_keys, s_keys);
    answers::put_chain(out, d, rows, m, dim + 1, &cur[start..half])
}

// Answers a job: its question is a filling, or else a class.
fn answer_job<'a>(
    out: &mut [u8],
    work: &mut [u8],
    read: NumbersRead,
    e_keys: &'a [u64],
    t_keys: &'a [u64],
    s_keys: &'a [u64],
    t_sides: &'a [u64],
    s_sides: &'a [u64],
) -> usize
    requires asking { Asking read e_keys.now t_keys.now s_keys.now t_sides.now s_sides.now }
    requires in_bounds { 2055 ≤ length out.old }
    requires in_bounds_2 { 65536 ≤ length work.old }
    ensures { (k : Asking read e_keys.now t_keys.now s_keys.now t_sides.now s_sides.now) → Answers (job_in read e_keys.now t_keys.now s_keys.now k.set) out.old out.new result }
{
    let head = read.head;
    let dim = jobs::chain_dimension(head);
    if head.question == heads::Head::FILL {
        answer_fill(
            out, work, read, dim, e_keys, t_keys, s_keys, t_sides, s_sides,
        )
    } else {
        answer_class(
            out, work, read, dim, e_keys, t_keys, s_keys, t_sides, s_sides,
        )
    }
}

// Answers a job file, any bytes of any length, with its lists in lent arrays that have room for them. Most jobs have no edits, so
// these are looked for here: what is done for them stays out of the way of the others.
pub fn answer_in(
    job: &[u8],
    out: &mut [u8],
    work: &mut [u8],
    e_keys: &mut [u64],
    t_keys: &mut [u64],
    s_keys: &mut [u64],
    t_sides: &mut [u64],
    s_sides: &mut [u64],
) -> usize
    requires file_room { FileRoom job.now 10 e_keys.old t_keys.old s_keys.old t_sides.old s_sides.old }
    requires in_bounds { 2055 ≤ length out.old }
    requires in_bounds_2 { 65536 ≤ length work.old }
    ensures { AnswersFile job.now out.old out.new result }
{
    let read = match jobs::read_unedited(job, e_keys, t_keys, s_keys, t_sides, s_sides) {
        Ok(read) => read,
        Err(refusal) => return refuse(out, refusal.reason, refusal.place),
    };
    if job.len() <= read.next {
        return answer_job(out, work, read, e_keys, t_keys, s_keys, t_sides, s_sides);
    }
    match jobs::take_edits(job, read, e_keys, t_keys, s_keys, t_sides, s_sides) {
        Ok(edited) => answer_job(out, work, edited, e_keys, t_keys, s_keys, t_sides, s_sides),
        Err(refusal) => refuse(out, refusal.reason, refusal.place),
    }
}
