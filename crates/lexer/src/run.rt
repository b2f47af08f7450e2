// Runs of bytes.
ghost use Rattle.std.specs.Prelude.{◌≡◌, ℕ, ◌^◌, ◌<◌, ◌≤◌, Bool, true, length, slice_index};
ghost use Rattle.std.specs.List.{prefix_len};
ghost use Rattle.std.specs.Option.{SomeIff};
ghost use Rattle.lexer.specs.Classes.{digit as is_digit};
ghost use Rattle.lexer.specs.Runs.{word_byte, decimal};

use crate::class::{Class, class_of};

/// Whether the byte can stand in a word.
pub(crate) fn is_word_byte(byte: u8) -> bool
    ensures { result ≡ word_byte byte }
{
    matches!(
        class_of(byte),
        Class::Letter | Class::Digit | Class::Underscore
    )
}

/// How many bytes at the front of `s` belong to the run.
pub(crate) fn run_len<F: Fn(u8) -> bool>(s: &[u8], belongs: F) -> usize
    requires { F.IsAlwaysCallable belongs }
    ensures len { (p : ℕ → Bool) → ((byte : ℕ) (r : Bool) → F.post belongs byte r → r ≡ p byte) → result ≡ prefix_len p s.now }
    ensures within { result ≤ length s.now }
{
    s.iter().take_while(|byte| belongs(**byte)).count()
}

/// The value of a run of digits, where a `u32` holds it.
// No `parse`: it takes text, and to see that digits are text takes as long as to read them.
pub(crate) fn value_of(digits: &[u8]) -> Option<u32>
    requires { (i : ℕ) → i < length digits.now → is_digit (slice_index digits.now i) ≡ true }
    ensures { SomeIff result (decimal digits.now < 2 ^ 32) (decimal digits.now) }
{
    let mut value: u32 = 0;
    for byte in digits {
        value = value.checked_mul(10)?.checked_add(u32::from(*byte - b'0'))?;
    }
    Some(value)
}
