// Bytes that are in no word and no blank: signs, and what opens a text or a symbol.
ghost use Rattle.std.specs.Prelude.{Some, Ok};
ghost use Rattle.classes.specs.Places.{HasByte};
ghost use Rattle.elements.specs.Places.{MarkOf};
ghost use Rattle.elements.specs.Next.{Stands};

use crate::{Element, Found};
use classes::byte_at;
use words::Fixed;

#[derive(Clone, Copy)]
pub enum Mark {
    One(Fixed),
    Asterisk,
    Stroke,
    Quote,
    Apostrophe,
}

// What a byte that is in no word and no blank begins.
pub fn mark_of(b: u8) -> Option<Mark>
    ensures { MarkOf b result }
{
    match b {
        b'=' => Some(Mark::One(Fixed::Equals)),
        b',' => Some(Mark::One(Fixed::Comma)),
        b'*' => Some(Mark::Asterisk),
        b'/' => Some(Mark::Stroke),
        b'^' => Some(Mark::One(Fixed::Caret)),
        b'<' => Some(Mark::One(Fixed::Less)),
        b'>' => Some(Mark::One(Fixed::Greater)),
        b'(' => Some(Mark::One(Fixed::OpenParen)),
        b')' => Some(Mark::One(Fixed::CloseParen)),
        b'{' => Some(Mark::One(Fixed::OpenBrace)),
        b'}' => Some(Mark::One(Fixed::CloseBrace)),
        b'"' => Some(Mark::Quote),
        b'\'' => Some(Mark::Apostrophe),
        _ => None,
    }
}

pub fn star_at(label: &[u8], at: usize) -> Found
    requires { HasByte label.now at 42 }
    ensures { Stands label.now at (Ok (Some result)) }
{
    if byte_at(label, at + 1) == b'*' {
        return Found(Element::The(Fixed::Power, at, at + 2), at + 2);
    }
    Found(Element::The(Fixed::Star, at, at + 1), at + 1)
}
