// Reads a label from standard input and writes its canonical form, or the line `REFUSED code place`.
#![tactic(auto)]

mod anew; // anew.rt: a label written anew

use anew::relabelled;
use classes::{LONGEST_LABEL, part};

fn print_refusal(code: u8, place: usize) {
    io::write_all(1, b"REFUSED ");
    io::print_decimal(1, u64::from(code));
    io::write_all(1, b" ");
    io::print_decimal(1, place as u64);
    io::write_all(1, b"\r\n");
}

// The room for the written label is as long as any that may be written.
fn print_relabelled(label: &[u8]) {
    let mut out = [0u8; LONGEST_LABEL];
    let told = relabelled(label, &mut out);
    if told.code != 0 {
        print_refusal(told.code, told.place);
        return;
    }
    io::write_all(1, part(&out, 0, told.length));
}

fn main() {
    let mut input = io::large_buffer();
    let n = io::read_full(0, &mut input);
    print_relabelled(&input[..n]);
}
