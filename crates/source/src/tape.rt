// A tape: a lent text, read from its beginning.
ghost use Rattle.std.specs.Prelude.{◌≡◌, ℕ, ◌<◌, slice_index};

use crate::Source;

/// What is left of a text.
#[derive(Drop)]
pub struct Tape<'a> {
    rest: &'a [u8],
    ghost bytes: { (i : ℕ) → slice_index rest.now i < 256 },
}

impl<'a> Tape<'a> {
    ghost use Rattle.source.specs.Tape.{text_left};

    /// A tape of which nothing is taken.
    pub fn new(text: &'a [u8]) -> Tape<'a>
        ensures { text_left result ≡ text.now }
    {
        Tape { rest: text }
    }
}

impl Source for Tape<'_> {
    ghost use Rattle.source.specs.Tape.{text_left};

    ghost waiting = { text_left };

    ghost bytes = { λ t. t.bytes };

    fn look(&self) -> Option<u8> {
        self.rest.first().copied()
    }

    fn take(&mut self) -> Option<u8> {
        let (byte, rest) = self.rest.split_first()?;
        self.rest = rest;
        Some(*byte)
    }
}
