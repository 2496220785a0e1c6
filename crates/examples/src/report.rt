// The answer to one label: code, place, table length, and the rows or the reason.
use crate::escapes::unescape;
use crate::print::{print_byte, print_number};
use crate::wording::print_rows;
use answers::Answer;
use classes::part;
use statements::read;

// Room for the table of a label on a line.
const TABLE_ROOM: usize = 4096;

fn print_reason(code: u8) {
    match code {
        1 => io::write_all(1, b"label over 65,535 bytes"),
        2 => io::write_all(1, b"a byte that begins no element or is not allowed there"),
        3 => io::write_all(1, b"text, symbol or comment left open"),
        4 => io::write_all(1, b"a word of no form, or an empty symbol"),
        5 => io::write_all(1, b"past a limit"),
        6 => io::write_all(1, b"an element that cannot stand there"),
        7 => io::write_all(1, b"closing name not the opening one"),
        8 => io::write_all(1, b"OBJECT or GROUP at depth 80"),
        9 => io::write_all(1, b"END not set off"),
        10 => io::write_all(1, b"input ends early"),
        _ => io::write_all(1, b"room too short"),
    };
}

fn print_answer(code: u8, place: usize, len: usize) {
    print_byte(code);
    io::write_all(1, b" ");
    print_number(place);
    io::write_all(1, b" ");
    print_number(len);
    io::write_all(1, b"\t");
}

fn read_and_print(label: &[u8]) {
    let mut table = [0u8; TABLE_ROOM];
    let answer = read(label, &mut table);
    print_answer(answer.code(), answer.place(), answer.length());
    match answer {
        Ok(a) => print_rows(label, part(&table, 0, a.length)),
        Err(r) => print_reason(r.code()),
    }
}

// The example on a line.
pub fn example(line: &[u8]) {
    let mut label = io::large_buffer();
    let n = unescape(line, &mut label);
    read_and_print(part(&label, 0, n));
    io::write_all(1, b"\n");
}
