// Why a text is refused, and where.
ghost use Rattle.std.specs.Prelude.{◌≡◌, ℕ, Some};
ghost use Rattle.lexer.specs.Refusals.{number_of as number_of_reason, refused_text};

use std::fmt;

/// Why a recipe is refused, told by a number.
// A trait and no `From` to `u8`: `Display` of any refusal rests on the number that `number_of` states.
pub trait Numbered {
    // The number of each.
    ghost number_of: { Self → ℕ };

    /// The number by which a refusal is told.
    fn number(self) -> u8
        ensures { result ≡ number_of self };
}

/// Why a text has no tokens.
#[derive(Clone, Copy, Debug, PartialEq)]
pub enum Reason {
    /// It has more than 65,536 bytes.
    TextTooLong,
    /// A byte begins no token.
    NoToken,
    /// A number is over 2,147,483,647.
    NumberTooLarge,
}

impl Reason {
    /// The number by which a refusal is told.
    pub fn number(self) -> u8
        ensures { result ≡ number_of_reason self }
    {
        match self {
            Reason::TextTooLong => 2,
            Reason::NoToken => 3,
            Reason::NumberTooLarge => 4,
        }
    }
}

impl Numbered for Reason {
    ghost number_of = { number_of_reason };

    fn number(self) -> u8 {
        Reason::number(self)
    }
}

/// A refusal and the place in the text that it speaks of.
#[derive(Clone, Copy, Debug, PartialEq)]
pub struct Refusal<R = Reason> {
    pub reason: R,
    pub place: usize,
}

impl<R> Refusal<R> {
    /// The same refusal, its reason as one of a wider kind.
    pub fn widen<S: From<R>>(self) -> Refusal<S>
        ensures reason { S.from_gives self.reason result.reason }
        ensures place { result.place ≡ self.place }
    {
        Refusal {
            reason: S::from(self.reason),
            place: self.place,
        }
    }
}

impl<R: Numbered + Copy> fmt::Display for Refusal<R> {
    ghost output = { λ refusal. Some (refused_text (R.number_of refusal.reason) refusal.place) };

    fn fmt<W: fmt::Write>(&self, f: &mut fmt::Formatter<W>) -> fmt::Result {
        let number = self.reason.number();
        let place = self.place;
        write!(f, "refused {number} at {place}")
    }
}
