// A label as it stands on a line, with its escapes.
ghost use Rattle.std.specs.Prelude.{◌≤◌, ◌<◌, length};

use classes::{byte_at, part};

// The value of a hexadecimal digit; 0 for any other byte.
fn digit(b: u8) -> u8
    ensures { result < 16 }
{
    match b {
        b'0'..=b'9' => b - b'0',
        b'A'..=b'F' => b - b'A' + 10,
        _ => 0,
    }
}

// The byte of the label that the line begins with, and the line behind it. A last backslash stands for itself.
fn unescaped(line: &[u8]) -> Option<(u8, &[u8])> {
    match line {
        [b'\\', b'n', rest @ ..] => Some((b'\n', rest)),
        [b'\\', b'r', rest @ ..] => Some((b'\r', rest)),
        [b'\\', b't', rest @ ..] => Some((b'\t', rest)),
        [b'\\', b'x', rest @ ..] => Some((
            digit(byte_at(rest, 0)) * 16 + digit(byte_at(rest, 1)),
            part(rest, 2, rest.len()),
        )),
        [b'\\', b, rest @ ..] => Some((*b, rest)),
        [b, rest @ ..] => Some((*b, rest)),
        [] => None,
    }
}

// The line's label into the room; how long it is. What does not fit is left out.
pub fn unescape(line: &[u8], room: &mut [u8]) -> usize
    ensures { result ≤ length room.new }
{
    let mut rest = line;
    for (n, place) in room.iter_mut().enumerate() {
        let Some((b, more)) = unescaped(rest) else {
            return n;
        };
        *place = b;
        rest = more;
    }
    room.len()
}
