// The record reader: little-endian numbers, a record's header, and its payload as that part of the caller's bytes.
// No call asks anything of its caller: past the end of the bytes a number reads as 0 and a payload is what is left.
#![tactic(auto)]

ghost use Rattle.std.specs.Prelude.{◌≡◌, get_or};
ghost use Rattle.format.specs.Reading.{u16_at, u32_at, header_at, payload_at};
ghost use Rattle.records.specs.Meaning.{header_of, Reads};

// What stands at a place of the file.
#[derive(Clone, Copy, Debug, PartialEq, Eq)]
pub enum Header {
    // the end of the file
    Ended,
    // a record whose header or payload runs past the end
    Broken,
    // a whole record: its kind and the length of its payload
    Whole(u16, usize),
}

impl Header {
    // A record's header: four bytes of length, two of kind.
    pub const BYTES: usize = 6;

    // The kinds of the answer records: a chain, a refusal. Those of a job stand with what reads them.
    pub const ANSWER: u16 = 16;

    pub const REFUSAL: u16 = 17;
}

// One byte.
pub fn byte_at(s: &[u8], at: usize) -> usize
    ensures { Reads (get_or s.now at 0) 256 result }
{
    s.get(at).copied().unwrap_or(0) as usize
}

// Two bytes, little-endian.
pub fn u16_at(s: &[u8], at: usize) -> usize
    ensures { Reads (u16_at s.now at) 65536 result }
{
    byte_at(s, at) + 256 * byte_at(s, at.saturating_add(1))
}

// Four bytes, little-endian.
pub fn u32_at(s: &[u8], at: usize) -> usize
    ensures { Reads (u32_at s.now at) 4294967296 result }
{
    u16_at(s, at) + 65536 * u16_at(s, at.saturating_add(2))
}

// What stands at a place: the end, a broken record or a whole one.
#[tactic(auto, unfolding(format::specs::Reading::header_at))]
pub fn header_at(job: &[u8], at: usize) -> Header
    ensures { header_of result ≡ header_at job.now at }
{
    if job.len() <= at {
        return Header::Ended;
    }
    let rest = &job[at..];
    if rest.len() < Header::BYTES {
        return Header::Broken;
    }
    let size = u32_at(rest, 0);
    if rest.len() < Header::BYTES + size {
        return Header::Broken;
    }
    let kind = u16_at(rest, 4);
    Header::Whole(kind as u16, size)
}

// A record's payload, as that part of the caller's bytes.
pub fn payload<'a>(job: &'a [u8], at: usize, size: usize) -> &'a [u8]
    ensures { result.now ≡ payload_at job.now at size }
{
    let start = job.len().min(at.saturating_add(Header::BYTES));
    let rest = &job[start..];
    &rest[..size.min(rest.len())]
}
