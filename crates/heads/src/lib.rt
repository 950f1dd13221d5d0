// The head of a job: the question, the answer's dimension and the number of vertices.
#![tactic(auto)]

ghost use Rattle.std.specs.Prelude.{◌≡◌, ◌&&◌, ◌||◌, eqb, leb, ◌<◌};
ghost use Rattle.format.specs.Reading.{dimension_fits, question_of};
ghost use Rattle.heads.specs.Meaning.{HeadKnown};

use refusals::{Reason, Refusal};

#[derive(Clone, Copy, Debug, PartialEq, Eq)]
pub struct Head {
    pub question: u8,
    pub d: u8,
    pub v: u16,
}

impl Head {
    // the record's kind, and the length of its payload
    pub const KIND: u16 = 1;

    pub const BYTES: usize = 4;

    // the two questions
    pub const FILL: u8 = 1;

    pub const CLASS: u8 = 2;

    // "v is 0 to 256"
    pub const VERTICES: usize = 256;

    pub fn new(question: u8, d: u8, v: u16) -> Self
        ensures { (result.question ≡ question) × (result.d ≡ d) × (result.v ≡ v) }
    {
        Self { question, d, v }
    }
}

// Whether there is such a question, and it may be asked in dimension d.
pub fn may_ask(question: usize, d: usize) -> bool
    ensures { result ≡ ((eqb question 1 || eqb question 2) && dimension_fits (question_of question) d) }
{
    if question == Head::FILL as usize {
        if d == 0 {
            return false;
        }
        return d <= 3;
    }
    if question == Head::CLASS as usize {
        return d <= 2;
    }
    false
}

// A head's payload: 5 where the question, d or v is outside its range.
#[tactic(auto, unfolding(format::specs::Reading::read_head))]
pub fn read_head(p: &[u8]) -> Result<Head, Refusal>
    ensures { HeadKnown p.now result }
{
    let question = records::byte_at(p, 0);
    let d = records::byte_at(p, 1);
    let v = records::u16_at(p, 2);
    if may_ask(question, d) {
        if v <= Head::VERTICES {
            return Ok(Head::new(question as u8, d as u8, v as u16));
        }
    }
    Err(Refusal {
        reason: Reason::Head,
        place: 0,
    })
}
