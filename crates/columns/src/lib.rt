// Columns of bits in lent bytes: bit k of byte j is rank 8·j + k. The work memory is 8·h slots of
// 2·h bytes (specs/Slot.antt); slot r is for the reduced column whose highest rank is r. Which slots
// hold a column stands in `taken`: a slot that is not taken is not read, whatever its bytes are, so
// the memory need not be touched before the first column.
#![tactic(auto)]

ghost use Rattle.std.specs.Prelude.{◌≡◌, ◌+◌, ◌*◌, ◌≤◌, ◌<◌, length, take, replicate};
ghost use Rattle.columns.specs.Column.{bit, bit_at, chain_of, xor_bytes, flipped};
ghost use Rattle.columns.specs.Slot.{room_of, slot, store_slot};
ghost use Rattle.columns.specs.Word.{WordAt};
ghost use Rattle.columns.specs.Search.{highest_below};
ghost use Rattle.columns.specs.Reduce.{red_bytes, Settles, Inserts};

// Whether the column holds rank i.
pub fn test(col: &[u8], i: usize) -> bool
    requires { i < 8 * length col.now }
    ensures { result ≡ bit_at col.now i }
{
    (col[i / 8] >> (i % 8)) % 2 == 1
}

// Turns rank i over: puts it in, or takes it out.
pub fn flip(col: &mut [u8], i: usize)
    requires { i < 8 * length col.old }
    ensures { col.new ≡ flipped col.old i }
{
    col[i / 8] ^= 1 << (i % 8);
}

// Adds the first n bytes of src to dst.
pub fn add(dst: &mut [u8], src: &[u8], n: usize)
    requires { (n ≤ length dst.old) × (n ≤ length src.now) }
    ensures { dst.new ≡ xor_bytes dst.old (take n src.now) }
{
    for i in 0..n {
        dst[i] ^= src[i];
    }
}

// Makes every byte zero.
pub fn clear(bytes: &mut [u8])
    ensures { bytes.new ≡ replicate (length bytes.old) 0 }
{
    bytes.fill(0);
}

// The eight bytes from `at` on as one number.
fn word_at(col: &[u8], at: usize) -> u64
    requires { at + 8 ≤ length col.now }
    ensures { WordAt col.now at result }
{
    u64::from_le_bytes(col[at..at + 8].try_into().unwrap())
}

// The highest rank below `from` that the column holds, by a look at each.
pub fn next_down(col: &[u8], from: usize) -> Option<usize>
    requires { from ≤ 8 * length col.now }
    ensures { result ≡ highest_below (chain_of col.now) from }
{
    for i in (0..from).rev() {
        if test(col, i) {
            return Some(i);
        }
    }
    None
}

// Adds slot r to the pair of columns in hand.
#[tactic(auto, using(crate::proofs::Laws::slot_bounds))]
pub fn add_slot(cur: &mut [u8], work: &[u8], h: usize, r: usize)
    requires r_bound { r < 8 * h }
    requires h_in_bounds { room_of h ≤ length work.now }
    requires h_in_bounds_2 { 2 * h ≤ length cur.old }
    ensures { cur.new ≡ xor_bytes cur.old (slot h work.now r) }
{
    let size = 2 * h;
    let from = r * size;
    let to = from + size;
    add(cur, &work[from..to], size);
}

// Puts the pair of columns in hand into slot r.
#[tactic(auto, using(crate::proofs::Laws::slot_bounds))]
pub fn store_slot(work: &mut [u8], cur: &[u8], h: usize, r: usize)
    requires r_bound { r < 8 * h }
    requires h_in_bounds { room_of h ≤ length work.old }
    requires h_in_bounds_2 { 2 * h ≤ length cur.now }
    ensures { work.new ≡ store_slot h work.old r cur.now }
{
    let size = 2 * h;
    let from = r * size;
    let to = from + size;
    work[from..to].copy_from_slice(&cur[..size]);
}

// The highest bit that a word holds below bit `left`. The bit just below is looked at first, since in a full column it is the
// answer as often as not.
fn highest_in(word: u64, left: usize) -> Option<usize>
    requires { left ≤ 64 }
    ensures { result ≡ highest_below (bit word) left }
{
    if left == 0 {
        return None;
    }
    let last = left - 1;
    if (word >> last) % 2 == 1 {
        return Some(last);
    }
    let below = word % (1 << last);
    if below == 0 {
        return None;
    }
    Some(below.ilog2() as usize)
}

// Reduces the pair in hand by the slots, from row `rows` - 1 down, until it holds a row whose slot
// is not taken, and says which. The eight bytes that hold the next row are kept as one number, `word`, beside the pair and
// added to as it is: so the search for that row does not wait until the sum is in the memory and read again.
pub fn settle(cur: &mut [u8], work: &[u8], taken: &[bool], h: usize, rows: usize) -> Option<usize>
    requires rows_bound { rows ≤ 8 * h }
    requires h_in_bounds { room_of h ≤ length work.now }
    requires cur_len { length cur.old ≡ 2 * h }
    requires rows_in_bounds { rows ≤ length taken.now }
    requires le_h { 8 ≤ h }
    ensures { Settles h work.now taken.now rows cur.old result cur.new }
{
    let mut at = rows / 64 * 8;
    let mut left = rows % 64;
    let mut word = word_at(cur, at);
    loop {
        match highest_in(word, left) {
            None => {
                if at == 0 {
                    return None;
                }
                at -= 8;
                left = 64;
                word = word_at(cur, at);
            }
            Some(bit) => {
                let r = at * 8 + bit;
                if taken[r] {
                    add_slot(cur, work, h, r);
                    word ^= word_at(work, r * (2 * h) + at);
                    left = bit;
                } else {
                    return Some(r);
                }
            }
        }
    }
}

// Puts what is left of the pair in hand into the slot of its highest row, which is taken then, unless
// nothing is left.
pub fn insert(
    work: &mut [u8],
    cur: &mut [u8],
    taken: &mut [bool],
    h: usize,
    rows: usize,
) -> Option<usize>
    requires rows_bound { rows ≤ 8 * h }
    requires h_in_bounds { room_of h ≤ length work.old }
    requires cur_len { length cur.old ≡ 2 * h }
    requires rows_in_bounds { rows ≤ length taken.old }
    requires le_h { 8 ≤ h }
    ensures { Inserts h work.old taken.old rows cur.old result cur.new work.new taken.new }
{
    let found = settle(cur, work, taken, h, rows);
    if let Some(r) = found {
        store_slot(work, cur, h, r);
        taken[r] = true;
    }
    found
}

// Reduces the pair in hand by the slots, all rows below `rows`.
pub fn reduce(cur: &mut [u8], work: &[u8], taken: &[bool], h: usize, rows: usize)
    requires rows_bound { rows ≤ 8 * h }
    requires h_in_bounds { room_of h ≤ length work.now }
    requires cur_len { length cur.old ≡ 2 * h }
    requires rows_in_bounds { rows ≤ length taken.now }
    requires le_h { 8 ≤ h }
    ensures { cur.new ≡ red_bytes h work.now taken.now rows cur.old }
{
    let mut left = rows;
    while let Some(r) = settle(cur, work, taken, h, left) {
        left = r;
    }
}
