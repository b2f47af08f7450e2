// The token at the front of some bytes.
ghost use Rattle.std.specs.Prelude.{◌≡◌, ℕ, ◌<◌, true, length, codes, MatchOption, MatchResult, ◌≢◌, slice_index};
ghost use Rattle.lexer.specs.declared.token.Kind.{Kind as AnyKind};
ghost use Rattle.lexer.specs.Classes.{letter as is_letter, digit as is_digit, sign_byte};
ghost use Rattle.lexer.specs.Finds.{Finds};
ghost use Rattle.lexer.specs.Front.{IsFront};
ghost use Rattle.lexer.specs.Refusals.{number_of};
ghost use Rattle.lexer.specs.Spelling.{Begins};
ghost use Rattle.lexer.specs.Tokens.{Escape, Plain, Escaped, Gap, Lexeme, Bad};

use crate::class::{Class, class_of};
use crate::refusal::Reason;
use crate::run::{is_word_byte, run_len, value_of};
use crate::sign::sign;
use crate::token::Kind;
use crate::word::keyword;

/// The largest number that a recipe can hold.
const MAX_NUMBER: u32 = 2_147_483_647;

/// A token that some bytes begin with: its kind and how many bytes it takes.
#[derive(Clone, Copy)]
pub(crate) struct Front {
    pub(crate) kind: Kind,
    pub(crate) len: usize,
}

/// The keyword or the name that `s` begins with.
fn word(s: &[u8]) -> Front
    requires { is_letter (slice_index s.now 0) ≡ true }
    ensures { IsFront s.now result }
{
    let len = run_len(s, is_word_byte);
    let kind = keyword(&s[..len]).map_or(Kind::Name, Kind::Word);
    Front { kind, len }
}

/// The number that `s` begins with.
fn number(s: &[u8]) -> Result<Front, Reason>
    requires { is_digit (slice_index s.now 0) ≡ true }
    ensures { MatchResult result (IsFront s.now) (λ e. Bad s.now (number_of e)) }
{
    let len = run_len(s, |byte| byte.is_ascii_digit());
    value_of(&s[..len])
        .filter(|value| *value <= MAX_NUMBER)
        .map(|value| Front {
            kind: Kind::Number(value),
            len,
        })
        .ok_or(Reason::NumberTooLarge)
}

/// The byte that the letter after a backslash stands for.
fn escape(letter: u8) -> Option<u8>
    ensures { Finds result (Escape letter) }
{
    // Cases of `char`: the form that docs/DECISIONS.md lists.
    match letter as char {
        'r' => Some(b'\r'),
        'n' => Some(b'\n'),
        _ => None,
    }
}

/// The character constant that `s` begins with: the byte between two quotes.
fn plain(s: &[u8]) -> Option<Front>
    ensures { MatchOption result ((c : ℕ) → Plain s.now c → ⊥) (IsFront s.now) }
{
    match s {
        [b'\'', byte @ 32..=126, b'\'', ..] => Some(Front {
            kind: Kind::Character(*byte),
            len: 3,
        }),
        _ => None,
    }
}

/// The character constant that `s` begins with: a backslash and a letter between two quotes.
fn escaped(s: &[u8]) -> Option<Front>
    ensures { MatchOption result ((c : ℕ) → Escaped s.now c → ⊥) (IsFront s.now) }
{
    match s {
        [b'\'', b'\\', letter, b'\'', ..] => escape(*letter).map(|byte| Front {
            kind: Kind::Character(byte),
            len: 4,
        }),
        _ => None,
    }
}

/// The sign or the character constant that `s` begins with.
fn marked(s: &[u8]) -> Option<Front>
    requires { Begins (codes "//") s.now → ⊥ }
    ensures { MatchOption result ((k : AnyKind) (n : ℕ) → Lexeme s.now k n → sign_byte (slice_index s.now 0) ≢ true) (IsFront s.now) }
{
    sign(s)
        .map(|sign| Front {
            kind: Kind::Sign(sign),
            len: sign.len(),
        })
        .or_else(|| plain(s))
        .or_else(|| escaped(s))
}

/// The token that `s` begins with, where neither a blank nor a comment stands.
pub(crate) fn token_at_front(s: &[u8]) -> Result<Front, Reason>
    requires some { 0 < length s.now }
    requires here { (n : ℕ) → Gap s.now n → ⊥ }
    ensures { MatchResult result (IsFront s.now) (λ e. Bad s.now (number_of e)) }
{
    match class_of(s[0]) {
        Class::Letter => Ok(word(s)),
        Class::Digit => number(s),
        Class::Sign => marked(s).ok_or(Reason::NoToken),
        Class::Underscore | Class::Blank | Class::Other => Err(Reason::NoToken),
    }
}
