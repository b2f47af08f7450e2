// The tokens of a MicroJava recipe.
//
// A text is cut into tokens from left to right, each the longest that can stand at its place. Tokens are parts of the
// text: nothing is copied, and no memory is needed.
#![tactic(auto)]

ghost use Rattle.lexer.specs.Examples.{Examples};
ghost use Rattle.lexer.specs.Scan.{Stepped, Scanned};

mod class;
mod front;
mod gap;
mod refusal;
mod run;
mod sign;
mod token;
mod tokens;
mod word;

pub use class::{Class, class_of};
use front::token_at_front;
use gap::skip_gaps;
pub use refusal::{Numbered, Reason, Refusal};
pub use token::{Keyword, Kind, Operator, Token};
pub use tokens::Tokens;

/// A recipe has at most so many bytes.
pub const MAX_TEXT: usize = 65_536;

/// The next token from the byte `at` on, after blanks and comments; at the text's end one of the kind `End`.
pub fn next(text: &[u8], at: usize) -> Result<Token, Refusal>
    ensures { Stepped text.now at result }
{
    let place = skip_gaps(text, at);
    if place >= text.len() {
        return Ok(Token {
            kind: Kind::End,
            place,
            len: 0,
        });
    }
    token_at_front(&text[place..])
        .map(|front| Token {
            kind: front.kind,
            place,
            len: front.len,
        })
        .map_err(|reason| Refusal { reason, place })
}

/// How many tokens a text has, or why and where it has none.
pub fn scan(text: &[u8]) -> Result<usize, Refusal>
    ensures scanned { Scanned text.now result }
    ensures examples { Examples }
{
    if text.len() > MAX_TEXT {
        return Err(Refusal {
            reason: Reason::TextTooLong,
            place: 0,
        });
    }
    let mut count = 0;
    // A loop with `?`: a `try_fold` would be no plainer.
    for token in Tokens::new(text) {
        token?;
        count += 1;
    }
    Ok(count)
}

#[cfg(test)]
mod tests {
    use super::*;
    use std::test::Fail;

    // A text, and the count of its tokens or the number and the place of its refusal.
    static TEXTS: [(&'static [u8], Result<usize, (u8, usize)>); 32] = [
        (b"", Ok(0)),
        (b" \t\r\n", Ok(0)),
        (b"program", Ok(1)),
        (b"programs", Ok(1)),
        (b"a_1", Ok(1)),
        (b"_a", Err((3, 0))),
        (b"a _", Err((3, 2))),
        (b"12ab", Ok(2)),
        (b"0002147483647", Ok(1)),
        (b"2147483648", Err((4, 0))),
        (b"1 99999999999999999999", Err((4, 2))),
        (b"'a'", Ok(1)),
        (b"'''", Ok(1)),
        (b"'\\'", Ok(1)),
        (b"'\\n'", Ok(1)),
        (b"'\\r'", Ok(1)),
        (b"'\\t'", Err((3, 0))),
        (b"'\\''", Err((3, 3))),
        (b"''", Err((3, 0))),
        (b"'ab'", Err((3, 0))),
        (b"'", Err((3, 0))),
        (b"'\t'", Err((3, 0))),
        (b"<==", Ok(2)),
        (b"a+++b", Ok(4)),
        (b"!", Err((3, 0))),
        (b"a & b", Err((3, 2))),
        (b"a | b", Err((3, 2))),
        (b"a // b @", Ok(1)),
        (b"a // b\n@", Err((3, 7))),
        (b"a //\xff\nb", Ok(2)),
        (b"/**/", Ok(4)),
        (b"99999999999 @", Err((4, 0))),
    ];

    #[test]
    fn texts(rt: HostRuntime) {
        for (text, expected) in TEXTS {
            let found = scan(text).map_err(|refusal| (refusal.reason.number(), refusal.place));
            assert_eq!(rt; found, expected);
        }
    }

    #[test]
    fn longest_text(rt: HostRuntime) -> Result<(), Fail> {
        let mut text = vec![in rt.alloc(); b' '; 65_536]?;
        assert_eq!(rt; scan(&text), Ok(0));
        text.push(b' ')?;
        assert_eq!(rt;
            scan(&text),
            Err(Refusal {
                reason: Reason::TextTooLong,
                place: 0,
            })
        );
        Ok(())
    }

    #[test]
    fn stream(rt: HostRuntime) {
        let mut tokens = Tokens::new(b" a _ b");
        assert_eq!(rt;
            tokens.next(),
            Some(Ok(Token {
                kind: Kind::Name,
                place: 1,
                len: 1,
            }))
        );
        assert_eq!(rt;
            tokens.next(),
            Some(Err(Refusal {
                reason: Reason::NoToken,
                place: 3,
            }))
        );
        assert_eq!(rt; tokens.next(), None);
    }

    #[test]
    fn refusals_print(rt: HostRuntime) -> Result<(), Fail> {
        let refusal = Refusal {
            reason: Reason::NoToken,
            place: 5,
        };
        let text = format!(in rt.alloc(); "{refusal}")?;
        assert!(rt; text.as_str() == "refused 3 at 5");
        Ok(())
    }

    #[test]
    fn parts(rt: HostRuntime) -> Result<(), Fail> {
        let recipe = b"read ( x1 );";
        let token = next(recipe, 6)?;
        assert_eq!(rt;
            token,
            Token {
                kind: Kind::Name,
                place: 7,
                len: 2,
            }
        );
        assert!(rt; token.text(recipe) == b"x1".as_slice());
        assert_eq!(rt; next(recipe, 12)?.kind, Kind::End);
        Ok(())
    }
}
