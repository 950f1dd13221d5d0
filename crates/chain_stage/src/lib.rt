// The stage of a job that says what is asked about: a chain record's positions, or a closed walk.
#![tactic(auto)]

ghost use Rattle.std.specs.Prelude.{◌≡◌, ◌≤◌, length};
ghost use Rattle.format.specs.Numbers.{small};
ghost use Rattle.format.specs.Simplex.{simplices};
ghost use Rattle.format.specs.Simplex as format;
ghost use Rattle.format.specs.Reading.{record_at, may_ask, chain_fits};
ghost use Rattle.refusals.specs.Readings.{reading_of};
ghost use Rattle.lookup.specs.Indexed.{Proper, Indexed};
ghost use Rattle.lookup.specs.Numbered.{simplices_in};
ghost use Rattle.chain_stage.specs.Meaning.{chain_opened, ChainStageRead};

use chosen::ChainRecord;
use lists::Marks;
use records::Header;
use refusals::{Reason, Refusal};

// Opens the record behind the lists: 2 cut, 3 kind (a walk only where A has dimension 1), 4 shape.
pub fn open_chain(job: &[u8], at: usize, dim: usize) -> Result<ChainRecord, Refusal>
    ensures { reading_of (chain_opened job.now at) result ≡ record_at (may_ask dim) (chain_fits small) job.now at }
{
    match records::header_at(job, at) {
        Header::Ended => Err(Reason::Kind.at(at)),
        Header::Broken => Err(Reason::Cut.at(at)),
        Header::Whole(kind, size) => {
            if kind == ChainRecord::CHAIN {
                if size % 2 != 0 {
                    return Err(Reason::Shape.at(at));
                }
                if ChainRecord::BYTES < size {
                    return Err(Reason::Shape.at(at));
                }
                return Ok(ChainRecord::Positions(size));
            }
            if kind != ChainRecord::WALK {
                return Err(Reason::Kind.at(at));
            }
            if dim != 1 {
                return Err(Reason::Kind.at(at));
            }
            if ChainRecord::BYTES < size {
                return Err(Reason::Shape.at(at));
            }
            Ok(ChainRecord::Walk(size))
        }
    }
}

// A's marks by rank, and the offset of the record behind its own.
#[derive(Clone, Copy)]
pub struct ChainStage {
    pub marks: Marks,
    pub next: usize,
}

// Reads what is asked about, over the complex as the file lists it: `count` simplices of dimension `dim`, and the first
// `edges` keys are the numbers of its edges.
pub fn read_chain(
    job: &[u8],
    at: usize,
    dim: usize,
    count: usize,
    edges: usize,
    keys: &[u64],
    first: &[u16],
    next: &[u16],
) -> Result<ChainStage, Refusal>
    requires job_len_bound { length job.now ≤ 6690 }
    requires count_bound { (count ≤ 512) × (edges ≤ 512) }
    requires proper { Proper 2 (simplices_in 2 keys.now edges) }
    requires indexed { Indexed (simplices_in 2 keys.now edges) keys.now first.now next.now edges }
    ensures { (X : format.Complex) → X.edges ≡ simplices_in 2 keys.now edges → length (simplices X dim) ≡ count → ChainStageRead job.now at dim X result }
{
    match open_chain(job, at, dim)? {
        ChainRecord::Positions(size) => {
            let start = at + Header::BYTES;
            let p = records::payload(job, at, size);
            let marks = chosen::read_positions(p, start, count)?;
            Ok(ChainStage {
                marks,
                next: start + size,
            })
        }
        ChainRecord::Walk(size) => {
            let start = at + Header::BYTES;
            let p = records::payload(job, at, size);
            let marks = chosen::read_walk(p, start, edges, keys, first, next)?;
            Ok(ChainStage {
                marks,
                next: start + size,
            })
        }
    }
}
