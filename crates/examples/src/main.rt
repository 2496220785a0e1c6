// Reads labels, one a line of standard input, and prints for each its code, place and table length, and then the rows of the table in words, or the
// reason why there is none.
//
// A line is a label in which `\n`, `\r`, `\t`, `\\` and `\xHH` stand for single bytes.
#![tactic(auto)]

mod escapes; // escapes.rt: a label on a line
mod print; // print.rt: numbers and bytes
mod wording; // wording.rt: rows in words
mod report; // report.rt: the answer to a label

// Each line by itself. The last one may lack its line feed.
fn each_line(text: &[u8]) {
    for line in text.split_inclusive(|b| *b == b'\n') {
        report::example(line.strip_suffix(b"\n").unwrap_or(line));
    }
}

fn main() {
    let mut input = io::large_buffer();
    let n = io::read_full(0, &mut input);
    each_line(&input[..n]);
}
