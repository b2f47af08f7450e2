// The class of a byte, by a table.
ghost use Rattle.std.specs.Prelude.{◌≡◌};
ghost use Rattle.lexer.specs.Classes.{class_of};

use self::Class::{Blank, Digit, Letter, Other, Sign, Underscore};

/// What a byte can be part of.
#[derive(Clone, Copy, Debug, PartialEq)]
pub enum Class {
    /// `A` to `Z` and `a` to `z`.
    Letter,
    /// `0` to `9`.
    Digit,
    /// `_`.
    Underscore,
    /// Tab, line feed, carriage return and space: 9, 10, 13 and 32.
    Blank,
    /// The bytes of the operators, and the quote.
    Sign,
    /// Any other byte.
    Other,
}

// Eight bytes a line.
#[rattlefmt::skip]
static CLASSES: [Class; 256] = [
    Other, Other, Other, Other, Other, Other, Other, Other,
    Other, Blank, Blank, Other, Other, Blank, Other, Other,
    Other, Other, Other, Other, Other, Other, Other, Other,
    Other, Other, Other, Other, Other, Other, Other, Other,
    Blank, Sign, Other, Other, Other, Sign, Sign, Sign,
    Sign, Sign, Sign, Sign, Sign, Sign, Sign, Sign,
    Digit, Digit, Digit, Digit, Digit, Digit, Digit, Digit,
    Digit, Digit, Other, Sign, Sign, Sign, Sign, Other,
    Other, Letter, Letter, Letter, Letter, Letter, Letter, Letter,
    Letter, Letter, Letter, Letter, Letter, Letter, Letter, Letter,
    Letter, Letter, Letter, Letter, Letter, Letter, Letter, Letter,
    Letter, Letter, Letter, Sign, Other, Sign, Other, Underscore,
    Other, Letter, Letter, Letter, Letter, Letter, Letter, Letter,
    Letter, Letter, Letter, Letter, Letter, Letter, Letter, Letter,
    Letter, Letter, Letter, Letter, Letter, Letter, Letter, Letter,
    Letter, Letter, Letter, Sign, Sign, Sign, Other, Other,
    Other, Other, Other, Other, Other, Other, Other, Other,
    Other, Other, Other, Other, Other, Other, Other, Other,
    Other, Other, Other, Other, Other, Other, Other, Other,
    Other, Other, Other, Other, Other, Other, Other, Other,
    Other, Other, Other, Other, Other, Other, Other, Other,
    Other, Other, Other, Other, Other, Other, Other, Other,
    Other, Other, Other, Other, Other, Other, Other, Other,
    Other, Other, Other, Other, Other, Other, Other, Other,
    Other, Other, Other, Other, Other, Other, Other, Other,
    Other, Other, Other, Other, Other, Other, Other, Other,
    Other, Other, Other, Other, Other, Other, Other, Other,
    Other, Other, Other, Other, Other, Other, Other, Other,
    Other, Other, Other, Other, Other, Other, Other, Other,
    Other, Other, Other, Other, Other, Other, Other, Other,
    Other, Other, Other, Other, Other, Other, Other, Other,
    Other, Other, Other, Other, Other, Other, Other, Other,
];

/// The class of a byte.
pub fn class_of(byte: u8) -> Class
    ensures { result ≡ class_of byte }
{
    CLASSES[usize::from(byte)]
}
