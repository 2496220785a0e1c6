// Identifiers: the reserved words, and names.
ghost use Rattle.words.specs.Says.{Named};

use crate::{Fixed, Unfit, Value};
use classes::alike;

const LONGEST_NAME: usize = 60;

// An identifier: a reserved word or a name.
pub fn name(w: &[u8]) -> Result<Value, Unfit>
    ensures { Named w.now result }
{
    if alike(w, b"END") {
        return Ok(Value::End);
    }
    if alike(w, b"OBJECT") {
        return Ok(Value::The(Fixed::Object));
    }
    if alike(w, b"END_OBJECT") {
        return Ok(Value::The(Fixed::EndObject));
    }
    if alike(w, b"GROUP") {
        return Ok(Value::The(Fixed::Group));
    }
    if alike(w, b"END_GROUP") {
        return Ok(Value::The(Fixed::EndGroup));
    }
    if alike(w, b"BEGIN_OBJECT") {
        return Ok(Value::The(Fixed::BeginObject));
    }
    if w.len() <= LONGEST_NAME {
        return Ok(Value::Name);
    }
    Err(Unfit::PastLimit)
}
