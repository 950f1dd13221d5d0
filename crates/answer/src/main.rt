// The answer program: a job on standard input, its answer record on standard output. One byte more than a job may have
// is read, so that a job that is too long is seen to be.
#![tactic(auto)]

// The numbers of the two streams.
const STDIN: i32 = 0;

const STDOUT: i32 = 1;

fn main() {
    let mut job = [0u8; 6691];
    let n = io::read_full(STDIN, &mut job);
    let mut out = [0u8; 2055];
    let mut work = [0u8; 65536];
    if n <= 6691 {
        let count = mvozelanke::mvz_answer(&job[..n], &mut out, &mut work);
        if count <= 2055 {
            io::write_all(STDOUT, &out[..count]);
        }
    }
}
