// Answer records: a refusal, or a chain's members in rising rank.
#![tactic(auto)]

ghost use Rattle.std.specs.Prelude.{◌≡◌, ◌+◌, ◌*◌, ◌≤◌, length};
ghost use Rattle.format.specs.Answer.{refusal_record};
ghost use Rattle.lookup.specs.Numbered.{simplices_in};
ghost use Rattle.columns.specs.Column.{chain_of};
ghost use Rattle.writer.specs.Meaning.{Put};
ghost use Rattle.answers.specs.Meaning.{member_bytes, chain_bytes};

use records::Header;

// A refusal's record, twelve bytes: the number in two, the place in four.
#[tactic(auto, unfolding(format::specs::Answer::refusal_record))]
pub fn put_refusal(out: &mut [u8], number: u16, place: usize) -> usize
    requires { 12 ≤ length out.old }
    ensures { Put out.old 0 (refusal_record number place) out.new result }
{
    writer::put_header(out, 0, Header::REFUSAL as usize, 6);
    writer::put_u16(out, Header::BYTES, number as usize);
    writer::put_u32(out, Header::BYTES + 2, place);
    12
}

// The members of a chain of the n simplices whose numbers the keys are, one behind the other; the place behind them.
pub fn put_members(
    out: &mut [u8],
    at: usize,
    keys: &[u64],
    n: usize,
    size: usize,
    col: &[u8],
) -> usize
    requires le_size { (1 ≤ size) × (size ≤ 4) }
    requires n_in_bounds { n ≤ length keys.now }
    requires n_in_bounds_2 { at + length (member_bytes (chain_of col.now) (simplices_in size keys.now n)) ≤ length out.old }
    requires n_bound { n ≤ 8 * length col.now }
    ensures { Put out.old at (member_bytes (chain_of col.now) (simplices_in size keys.now n)) out.new result }
{
    let mut next = at;
    for (i, key) in keys[..n].iter().enumerate() {
        if columns::test(col, i) {
            let s = lookup::simplex_of(*key, size);
            writer::put_simplex(out, next, s);
            next += s.size();
        }
    }
    next
}

// A chain's record: d, and then the members, behind a header that says how long they are.
pub fn put_chain(out: &mut [u8], d: u8, keys: &[u64], n: usize, size: usize, col: &[u8]) -> usize
    requires le_size { (1 ≤ size) × (size ≤ 4) }
    requires n_in_bounds { n ≤ length keys.now }
    requires n_in_bounds_2 { 7 + length (member_bytes (chain_of col.now) (simplices_in size keys.now n)) ≤ length out.old }
    requires n_bound { n ≤ 8 * length col.now }
    ensures { Put out.old 0 (chain_bytes d (chain_of col.now) (simplices_in size keys.now n)) out.new result }
{
    let next = put_members(out, Header::BYTES + 1, keys, n, size, col);
    out[Header::BYTES] = d;
    writer::put_header(out, 0, Header::ANSWER as usize, next - Header::BYTES);
    next
}
