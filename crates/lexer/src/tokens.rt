// The tokens of a text, one after the other.
ghost use Rattle.std.specs.Prelude.{◌-◌, length};
ghost use Rattle.std.specs.Iterator.{at_most};
ghost use Rattle.lexer.specs.Stream.{StandsAt, Yields};

use crate::refusal::Refusal;
use crate::token::{Kind, Token};

/// The tokens of a text from a place on, each by a call of `next`. After a refusal there are no more.
#[derive(Clone, Copy, Debug)]
pub struct Tokens<'t> {
    text: &'t [u8],
    at: usize,
}

impl<'t> Tokens<'t> {
    /// The tokens of a text from its start on.
    pub fn new(text: &'t [u8]) -> Tokens<'t>
        ensures { StandsAt result text.now 0 }
    {
        Tokens { text, at: 0 }
    }
}

impl<'t> Iterator for Tokens<'t> {
    type Item = Result<Token, Refusal>;

    ghost next_gives = { Yields };

    ghost remaining = { λ tokens. at_most (length tokens.text.now - tokens.at) };

    fn next(&mut self) -> Option<Result<Token, Refusal>> {
        match crate::next(self.text, self.at) {
            Ok(token) if token.kind == Kind::End => None,
            Ok(token) => {
                self.at = token.place + token.len;
                Some(Ok(token))
            }
            Err(refusal) => {
                self.at = self.text.len();
                Some(Err(refusal))
            }
        }
    }
}
