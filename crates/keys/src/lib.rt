// Keys in rank order, and the look-up of a key through the keys of its bucket.
#![tactic(auto)]

ghost use Rattle.std.specs.Prelude.{◌≡◌, ◌<◌, eqb, length};
ghost use Rattle.keys.specs.Chained.{Chained, Linked, last_below, place_of};

// How many buckets the keys are spread over: the largest prime below twice a list's limit. Which prime suits best depends on the
// mesh; decision 15 has what was measured.
pub const BUCKETS: usize = 1021;

// The place of a key among the first n.
pub fn find(keys: &[u64], first: &[u16], next: &[u16], n: usize, key: u64) -> Option<usize>
    requires { Chained keys.now first.now next.now n }
    ensures { result ≡ place_of (last_below (eqb key) keys.now n) }
{
    let bucket = (key % BUCKETS as u64) as usize;
    let mut link = first[bucket] as usize;
    while let Some(place) = link.checked_sub(1) {
        if keys[place] == key {
            return Some(place);
        }
        link = next[place] as usize;
    }
    None
}

// Puts a key behind the first n: its bucket leads to it, and it leads where the bucket led.
pub fn link(keys: &mut [u64], first: &mut [u16], next: &mut [u16], n: usize, key: u64)
    requires chained { Chained keys.old first.old next.old n }
    requires n_in_bounds { (n < length keys.old) × (n < length next.old) × (n < 65535) }
    ensures { Linked keys.old keys.new first.new next.new n key }
{
    let bucket = (key % BUCKETS as u64) as usize;
    keys[n] = key;
    next[n] = first[bucket];
    first[bucket] = n as u16 + 1;
}
