// Reads frames from standard input, each a four-byte length and a job file of that length, and writes a line for each:
// 'ok', or 'refused' with the refusal's number and place. It ends with the input, or with the line 'bad frame' where a
// frame is cut or longer than the buffer.
#![tactic(auto)]

// Reads one job file and writes its line.
fn judge(job: &[u8]) {
    match jobs::read_job(job) {
        Ok(_) => {
            io::write_all(1, b"ok\n");
        }
        Err(refusal) => {
            io::write_all(1, b"refused ");
            io::print_decimal(1, u16::from(refusal.reason) as u64);
            io::write_all(1, b" ");
            io::print_decimal(1, refusal.place as u64);
            io::write_all(1, b"\n");
        }
    }
}

// Fills the part with a job file and judges it, and answers whether the input had so many bytes.
fn fill_and_judge(part: &mut [u8]) -> bool {
    let got = io::read_full(0, part);
    if got < part.len() {
        return false;
    }
    judge(part);
    true
}

// Takes the job file of one frame, and answers whether it was there whole and no longer than the buffer.
fn take_job(size: usize) -> bool {
    let mut buffer = [0u8; 8192];
    if buffer.len() < size {
        return false;
    }
    fill_and_judge(&mut buffer[..size])
}

// Takes one frame, and answers whether another may follow: not at the end of the input, nor behind a bad frame.
fn take_frame() -> bool {
    let mut header = [0u8; 4];
    let got = io::read_full(0, &mut header);
    if got == 0 {
        return false;
    }
    if got == 4 {
        if take_job(records::u32_at(&header, 0)) {
            return true;
        }
    }
    io::write_all(1, b"bad frame\n");
    false
}

// A proved loop has to end, and nothing says that the input does. So it has more turns than any run takes.
fn main() {
    for _ in 0..u64::MAX {
        if !take_frame() {
            return;
        }
    }
}
