// Parts of what is written: bytes, names case folded and texts reassembled, each at the start of the room that is lent. A part is counted whether or not it fits, and
// stands in the room as far as the room reaches: so one function both measures and writes.
#![tactic(auto)]

mod bytes; // bytes.rt: a byte, and bytes as they are or case folded
mod texts; // texts.rt: a text reassembled

pub use bytes::{put_byte, put_bytes, put_folded};
pub use texts::put_reassembled;
