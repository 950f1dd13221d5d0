// The panel's calls as a C program links them: the header's two symbols, each the call of crate `mvozelanke` with its promise.
#![tactic(auto)]

ghost use Rattle.format.specs.Numbers.{small};
ghost use Rattle.format.specs.Promise.{AnswerPromise, WritePromise};

// Answers a job: the record goes to the front of `out`, its length is returned, and `work` is all zero afterwards. Where
// fewer than 2,055 output bytes or 65,536 bytes of work memory are lent, returns 0 and writes nothing.
#[unsafe(no_mangle)]
pub extern "C" fn mvz_answer(job: &[u8], out: &mut [u8], work: &mut [u8]) -> usize
    ensures { AnswerPromise small job.now out.old work.old result out.new work.new }
{
    mvozelanke::mvz_answer(job, out, work)
}

// Writes a job's normal form: the upper 32 bits are a refusal's number, 0 where it was written, the lower 32 the length
// written or the refusal's place. A refusal writes nothing.
#[unsafe(no_mangle)]
pub extern "C" fn mvz_write(job: &[u8], out: &mut [u8]) -> u64
    ensures { WritePromise small job.now out.old result out.new }
{
    mvozelanke::mvz_write(job, out)
}
