// The value of a word: what its form stands for, or that it is past a limit or of no form.
#![tactic(auto)]

mod names; // names.rt: identifiers, reserved or not
mod numbers; // numbers.rt: digits, integers and based integers
mod reals; // reals.rt: reals
mod days; // days.rt: days of the calendar
mod times; // times.rt: times, with a day or without

ghost use Rattle.std.specs.Prelude.{◌≤◌, length, ◌≡◌, Some};
ghost use Rattle.rules.specs.Reading.{longest};
ghost use Rattle.rules.specs.Written.{is_name};
ghost use Rattle.forms.specs.Forms.{written};
ghost use Rattle.words.specs.Says.{Means};
ghost use Rattle.words.specs.Parts.{Valued};
ghost use Rattle.words.specs.Times.{WrittenInDigits};

pub use days::month_length;
use forms::{Form, shape};
use names::name;
pub use numbers::PAST_INTEGER;
use numbers::{bytes_of, in_radix, whole};
pub use reals::PAST_NUMBER;
use reals::decimal;
use times::{dated, stamped};

// The words and signs that are spelled in one way: the reserved words but END, and the signs.
#[derive(Clone, Copy, PartialEq, Eq)]
pub enum Fixed {
    Object,
    EndObject,
    Group,
    EndGroup,
    BeginObject,
    Equals,
    Comma,
    Star,
    Slash,
    Caret,
    Less,
    Greater,
    OpenParen,
    CloseParen,
    OpenBrace,
    CloseBrace,
    Power,
}

// A real: its number with its sign, and its power of ten with its sign.
#[derive(Clone, Copy)]
pub struct Real {
    pub minus: bool,
    pub number: u64,
    pub below: bool,
    pub power: u16,
}

// The marks of a time's zone: none, Z, or a signed one. Where there is no time the mark is that of none.
pub const NO_ZONE: u8 = 0;

pub const ZONE_Z: u8 = 1;

pub const SIGNED_ZONE: u8 = 2;

// A date, a time or both; an absent part is all 0. The offset is in minutes. The mark stands behind the parts because labels are read faster so
// than with it last.
#[derive(Clone, Copy)]
pub struct Moment {
    pub parts: u8,
    pub mark: u8,
    pub year: u16,
    pub month: u8,
    pub day: u8,
    pub hour: u8,
    pub minute: u8,
    pub second: u8,
    pub nanoseconds: u32,
    pub west: bool,
    pub offset: u16,
}

// What a word is.
#[derive(Clone, Copy)]
pub enum Value {
    Name,
    End,
    The(Fixed),
    Integer(bool, u64),
    Based(bool, u64),
    Float(Real),
    Time(Moment),
}

// Why a word has no value: it has no form, or it is past a limit.
#[derive(Clone, Copy, Debug, PartialEq, Eq)]
pub enum Unfit {
    NoForm,
    PastLimit,
}

// The value of a form, unless it is past a limit.
fn value_of(w: &[u8], form: Form) -> Result<Value, Unfit>
    requires w_len_bound { length w.now ≤ longest }
    requires written_in_digits { WrittenInDigits (written w.now (Some form)) }
    ensures { Valued w.now form result }
{
    match form {
        Form::Name => name(w),
        Form::Whole(negative, ds) => whole(negative, bytes_of(w, ds)),
        Form::Radix(radix, negative, ds) => in_radix(bytes_of(w, radix), negative, bytes_of(w, ds)),
        Form::Decimal(negative, ds, fs, below, x) => {
            decimal(
                negative,
                bytes_of(w, ds),
                bytes_of(w, fs),
                below,
                bytes_of(w, x),
            )
        }
        Form::Day(date) => dated(w, date),
        Form::Moment(stamp, clock, zone) => stamped(w, stamp, clock, zone),
    }
}

// The value of any bytes as a word.
pub fn word(w: &[u8]) -> Result<Value, Unfit>
    requires { length w.now ≤ longest }
    ensures { Means w.now result }
{
    let Some(form) = shape(w) else {
        return Err(Unfit::NoForm);
    };
    value_of(w, form)
}

// Whether any bytes are a name: an identifier that is not reserved, of at most 60 bytes.
pub fn is_name(w: &[u8]) -> bool
    requires { length w.now ≤ longest }
    ensures { result ≡ is_name w.now }
{
    matches!(word(w), Ok(Value::Name))
}
