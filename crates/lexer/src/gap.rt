// Blanks and comments.
ghost use Rattle.std.specs.Prelude.{ℕ, [], drop, codes, MatchOption};
ghost use Rattle.lexer.specs.Finds.{Finds};
ghost use Rattle.lexer.specs.Spelling.{Begins};
ghost use Rattle.lexer.specs.Tokens.{Gap, Cut};

use crate::class::{Class, class_of};
use crate::run::run_len;

/// How many bytes the comment takes that `s` begins with.
fn comment_len(s: &[u8]) -> Option<usize>
    ensures { MatchOption result (Begins (codes "//") s.now → ⊥) (Gap s.now) }
{
    match s {
        [b'/', b'/', rest @ ..] => {
            let line = run_len(rest, |byte| byte != b'\n');
            // The line feed that ends the comment is a part of it.
            Some(s.len().min(line + 3))
        }
        _ => None,
    }
}

/// How many bytes the blank or the comment takes that `s` begins with.
fn gap_len(s: &[u8]) -> Option<usize>
    ensures { Finds result (Gap s.now) }
{
    let [byte, ..] = s else {
        return None;
    };
    match class_of(*byte) {
        Class::Blank => Some(1),
        _ => comment_len(s),
    }
}

/// How many bytes the blank or the comment takes that stands at this place.
fn gap_at(text: &[u8], place: usize) -> Option<usize>
    ensures { Finds result (Gap (drop place text.now)) }
{
    // No `get`: a blank would cost half as much again.
    if place < text.len() {
        gap_len(&text[place..])
    } else {
        None
    }
}

/// The first place from `at` on where neither a blank nor a comment stands.
pub(crate) fn skip_gaps(text: &[u8], at: usize) -> usize
    ensures skipped { Cut text.now at result [] }
    ensures stops { (n : ℕ) → Gap (drop result text.now) n → ⊥ }
{
    // The text and a place stay apart, as callers of `next` give them: a struct for both is no plainer here.
    let mut place = at;
    while let Some(n) = gap_at(text, place) {
        place += n;
    }
    place
}
