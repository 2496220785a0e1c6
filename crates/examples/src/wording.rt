// The rows of a table, in words.
use crate::print::{print_bytes, print_number, print_padded, print_signed, print_words};
use classes::part;
use rows::{Kind, Op, Row, row_at};
use words::{Moment, NO_ZONE, Real, ZONE_Z};

fn print_named(what: &[u8], name: &[u8]) {
    print_words(what);
    print_bytes(name);
}

fn print_open(kind: Kind, name: &[u8]) {
    match kind {
        Kind::Object => print_named(b"object ", name),
        Kind::Group => print_named(b"group ", name),
    }
}

fn print_close(kind: Kind) {
    match kind {
        Kind::Object => print_words(b"end of object"),
        Kind::Group => print_words(b"end of group"),
    }
}

fn print_integer(minus: bool, size: u64) {
    print_words(b"integer ");
    print_signed(minus, size);
}

fn print_real(x: Real) {
    print_words(b"real ");
    print_signed(x.minus, x.number);
    print_words(b" power ");
    print_signed(x.below, u64::from(x.power));
}

fn print_date(t: Moment) {
    print_padded(u64::from(t.year), 4);
    print_words(b"-");
    print_padded(u64::from(t.month), 2);
    print_words(b"-");
    print_padded(u64::from(t.day), 2);
}

fn print_mark(mark: u8) {
    match mark {
        NO_ZONE => print_words(b" no zone"),
        ZONE_Z => print_words(b" Z"),
        _ => print_words(b" signed zone"),
    }
}

fn print_time(t: Moment) {
    print_padded(u64::from(t.hour), 2);
    print_words(b":");
    print_padded(u64::from(t.minute), 2);
    print_words(b":");
    print_padded(u64::from(t.second), 2);
    print_words(b".");
    print_padded(u64::from(t.nanoseconds), 9);
    print_words(b" offset ");
    print_signed(t.west, u64::from(t.offset));
    print_mark(t.mark);
}

fn print_moment(t: Moment) {
    match t.parts {
        1 => {
            print_words(b"date ");
            print_date(t);
        }
        2 => {
            print_words(b"time ");
            print_time(t);
        }
        _ => {
            print_words(b"date-time ");
            print_date(t);
            print_words(b" ");
            print_time(t);
        }
    }
}

fn print_op(op: Op) {
    match op {
        Op::First => print_words(b"unit first "),
        Op::Times => print_words(b"unit times "),
        Op::Divided => print_words(b"unit divided "),
    }
}

fn print_unit(op: Op, name: &[u8], minus: bool, size: u64) {
    print_op(op);
    print_bytes(name);
    print_words(b" ");
    print_signed(minus, size);
}

fn print_last(place: usize) {
    print_words(b"last ");
    print_number(place);
}

fn print_row(label: &[u8], row: Row) {
    match row {
        Row::Attribute(a, b) => print_named(b"attribute ", part(label, a, b)),
        Row::Pointer(a, b) => print_named(b"pointer ", part(label, a, b)),
        Row::Open(kind, a, b) => print_open(kind, part(label, a, b)),
        Row::Close(kind) => print_close(kind),
        Row::Integer(minus, size) => print_integer(minus, size),
        Row::Float(x) => print_real(x),
        Row::Time(t) => print_moment(t),
        Row::Text(a, b) => print_named(b"text ", part(label, a, b)),
        Row::Symbol(a, b) => print_named(b"symbol ", part(label, a, b)),
        Row::Unit(op, a, b, minus, size) => print_unit(op, part(label, a, b), minus, size),
        Row::Sequence => print_words(b"sequence"),
        Row::SequenceEnd => print_words(b"end of sequence"),
        Row::Set => print_words(b"set"),
        Row::SetEnd => print_words(b"end of set"),
        Row::Last(place) => print_last(place),
    }
}

// Each row of the table, with a semicolon between two.
pub fn print_rows(label: &[u8], table: &[u8]) {
    let mut at = 0;
    while at < table.len() {
        let Some((row, next)) = row_at(table, at) else {
            return;
        };
        if at != 0 {
            print_words(b"; ");
        }
        print_row(label, row);
        at = next;
    }
}
