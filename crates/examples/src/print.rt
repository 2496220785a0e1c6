// Numbers, and bytes of a label, for people.
ghost use Rattle.std.specs.Prelude.{◌≤◌};

pub fn print_words(words: &[u8]) {
    io::write_all(1, words);
}

pub fn print_number(n: usize) {
    io::print_decimal(1, n as u64);
}

pub fn print_byte(b: u8) {
    io::print_decimal(1, u64::from(b));
}

// A number with its sign.
pub fn print_signed(minus: bool, size: u64) {
    if minus {
        print_words(b"-");
    }
    io::print_decimal(1, size);
}

// A number with zeros before it, up to so many digits.
pub fn print_padded(n: u64, digits: usize) {
    let mut text = [0u8; 20];
    let len = io::decimal(n, &mut text);
    for _ in len..digits {
        print_words(b"0");
    }
    print_words(&text[..len]);
}

fn hex_digit(n: u8) -> u8
    requires { n ≤ 15 }
{
    if n < 10 { n + b'0' } else { n - 10 + b'A' }
}

fn print_escape(b: u8) {
    print_words(&[b'\\', b'x', hex_digit(b / 16), hex_digit(b % 16)]);
}

// One byte of a label, with the escapes of the input.
fn print_one(b: u8) {
    match b {
        b'\n' => print_words(b"\\n"),
        b'\r' => print_words(b"\\r"),
        b'\t' => print_words(b"\\t"),
        b'"' => print_words(b"\\\""),
        b'\\' => print_escape(b),
        b' '..=b'~' => print_words(&[b]),
        _ => print_escape(b),
    }
}

pub fn print_bytes(s: &[u8]) {
    for b in s {
        print_one(*b);
    }
}
