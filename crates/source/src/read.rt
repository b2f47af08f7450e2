// Reading from any source.
ghost use Rattle.std.specs.Prelude.{◌≡◌, ◌+◌, ◌-◌, ◌*◌, ◌^◌, ◌<◌, ◌↔◌, false, IsTrue, drop, option_and_then, if◌then◌else◌};
ghost use Rattle.std.specs.Bool.{then_some};
ghost use Rattle.std.specs.List.{prefix_len};
ghost use Rattle.std.specs.Option.{option_map_or, SomeIff};
ghost use Rattle.lexer.specs.Classes.{blank, digit as is_digit};
ghost use Rattle.lexer.specs.Runs.{decimal};
ghost use Rattle.source.specs.Examples.{Examples};
ghost use Rattle.source.specs.Reading.{after_blanks, minus_next, after_minus, digits_of, after_digits, number, Fits, IntRead, CharRead};
ghost use Rattle.source.specs.Waiting.{first};

use crate::Source;
use lexer::{Class, class_of};

/// Why nothing could be read.
#[derive(Clone, Copy, Debug, PartialEq)]
pub enum ReadFault {
    /// Nothing waits; for an int, after the blanks.
    NothingWaits,
    /// No digit follows, or the number is no word.
    NoNumber,
}

/// The least amount that a `u32` does not hold. It stands for every larger one too.
const TOO_LARGE: u64 = 1 << 32;

// Whether the next byte is a blank.
fn is_blank(next: Option<u8>) -> bool
    ensures { result ≡ option_map_or blank next false }
{
    next.is_some_and(|byte| class_of(byte) == Class::Blank)
}

// Whether the next byte is a minus.
fn is_minus(next: Option<u8>) -> bool
    ensures { IsTrue result ↔ (next ≡ Some 45) }
{
    next == Some(b'-')
}

// The value of the next byte as a digit.
fn digit(next: Option<u8>) -> Option<u32>
    ensures { result ≡ option_and_then (λ b. then_some (is_digit b) (b - 48)) next }
{
    next.and_then(|byte| char::from(byte).to_digit(10))
}

// Takes the next byte where it passes.
fn take_if<S: Source, F: Fn(Option<u8>) -> bool>(source: &mut S, passes: F) -> bool
    requires { F.IsAlwaysCallable passes }
    ensures answer { F.post passes (first (S.waiting source.old)) result }
    ensures rest { S.waiting source.new ≡ drop (if result then 1 else 0) (S.waiting source.old) }
{
    let pass = passes(source.look());
    if pass {
        let _ = source.take();
    }
    pass
}

// Takes the blanks in front.
fn skip_blanks<S: Source>(source: &mut S)
    ensures { S.waiting source.new ≡ after_blanks (S.waiting source.old) }
{
    while take_if(source, is_blank) {}
}

// Takes a minus, if one is next.
fn take_minus<S: Source>(source: &mut S) -> bool
    ensures answer { result ≡ minus_next (S.waiting source.old) }
    ensures rest { S.waiting source.new ≡ after_minus (S.waiting source.old) }
{
    take_if(source, is_minus)
}

// Takes the digits in front, and answers their amount, if there are any and a `u32` holds it.
fn take_digits<S: Source>(source: &mut S) -> Option<u32>
    ensures amount { SomeIff result ((0 < prefix_len is_digit (S.waiting source.old)) × (decimal (digits_of (S.waiting source.old)) < 2 ^ 32)) (decimal (digits_of (S.waiting source.old))) }
    ensures rest { S.waiting source.new ≡ after_digits (S.waiting source.old) }
{
    let mut amount = u64::from(digit(source.look())?);
    let _ = source.take();
    // Not by `take_if`, which tells no value. No `Option` goes from digit to digit: that took half as long again.
    while let Some(value) = digit(source.look()) {
        let _ = source.take();
        amount = (amount * 10 + u64::from(value)).min(TOO_LARGE);
    }
    u32::try_from(amount).ok()
}

// The word of a minus or none and an amount, where it is one.
fn word(minus: bool, amount: u32) -> Option<i32>
    ensures { SomeIff result (Fits minus amount) (number minus amount) }
{
    let value = i64::from(amount);
    i32::try_from(if minus { -value } else { value }).ok()
}

/// Reads an int: takes blanks, then a minus if one is next, then all digits; the next byte stays.
pub fn read_int<S: Source>(source: &mut S) -> Result<i32, ReadFault>
    ensures read { IntRead (S.waiting source.old) result (S.waiting source.new) }
    ensures examples { Examples }
{
    skip_blanks(source);
    source.look().ok_or(ReadFault::NothingWaits)?;
    let minus = take_minus(source);
    take_digits(source)
        .and_then(|amount| word(minus, amount))
        .ok_or(ReadFault::NoNumber)
}

/// Reads a char: takes one byte.
pub fn read_char<S: Source>(source: &mut S) -> Result<u8, ReadFault>
    ensures { CharRead (S.waiting source.old) result (S.waiting source.new) }
{
    source.take().ok_or(ReadFault::NothingWaits)
}
