// Numbers, dates and times in decimal, each at the start of the room that is lent. Each is counted whether or not it fits, and stands in the room as far as the
// room reaches.
#![tactic(auto)]

mod numbers; // numbers.rt: integers and reals
mod times; // times.rt: dates and times

pub use numbers::{put_decimal, put_real};
pub use times::put_moment;
