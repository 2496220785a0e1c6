// What is asked of a table: the text of a row, the name of a row, and an attribute by its name.
#![tactic(auto)]

mod places; // places.rt: the row at an offset, and where a block ends
mod texts; // texts.rt: the text of a row
mod names; // names.rt: the name of a row
mod lookup; // lookup.rt: an attribute by its name
mod outcome; // outcome.rt: the answers, and code, place and length of each

pub use lookup::find;
pub use names::{Stretch, name, name_span};
pub use outcome::{At, Given, NoText, NotFound};
pub use texts::text;
