// Which bytes are signs.
ghost use Rattle.std.specs.Prelude.{MatchOption};
ghost use Rattle.lexer.specs.declared.token.Operator.{Operator as AnySign};
ghost use Rattle.lexer.specs.Spelling.{sign_text, Begins, Longest};

use crate::token::Operator;

/// The longest sign that `s` begins with: two bytes are tried before one.
pub(crate) fn sign(s: &[u8]) -> Option<Operator>
    ensures { MatchOption result ((g : AnySign) → Begins (sign_text g) s.now → ⊥) (Longest s.now) }
{
    match s {
        [b'+', b'+', ..] => Some(Operator::PlusPlus),
        [b'-', b'-', ..] => Some(Operator::MinusMinus),
        [b'=', b'=', ..] => Some(Operator::EqualEqual),
        [b'!', b'=', ..] => Some(Operator::NotEqual),
        [b'>', b'=', ..] => Some(Operator::GreaterEqual),
        [b'<', b'=', ..] => Some(Operator::LessEqual),
        [b'&', b'&', ..] => Some(Operator::AndAnd),
        [b'|', b'|', ..] => Some(Operator::OrOr),
        [b'+', ..] => Some(Operator::Plus),
        [b'-', ..] => Some(Operator::Minus),
        [b'*', ..] => Some(Operator::Star),
        [b'/', ..] => Some(Operator::Slash),
        [b'%', ..] => Some(Operator::Percent),
        [b'>', ..] => Some(Operator::Greater),
        [b'<', ..] => Some(Operator::Less),
        [b'(', ..] => Some(Operator::OpenParen),
        [b')', ..] => Some(Operator::CloseParen),
        [b'[', ..] => Some(Operator::OpenBracket),
        [b']', ..] => Some(Operator::CloseBracket),
        [b'{', ..] => Some(Operator::OpenBrace),
        [b'}', ..] => Some(Operator::CloseBrace),
        [b'=', ..] => Some(Operator::Assign),
        [b';', ..] => Some(Operator::Semicolon),
        [b',', ..] => Some(Operator::Comma),
        [b'.', ..] => Some(Operator::Dot),
        _ => None,
    }
}
