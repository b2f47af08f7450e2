// Which words are keywords.
ghost use Rattle.std.specs.Prelude.{◌≡◌};
ghost use Rattle.lexer.specs.Finds.{Finds};
ghost use Rattle.lexer.specs.Spelling.{keyword_text};

use crate::token::Keyword;

/// The keyword that is spelled so, if one is.
// An `Option` and no `TryFrom`: a word that is no keyword is a name, and no error; so the signs.
pub(crate) fn keyword(word: &[u8]) -> Option<Keyword>
    ensures { Finds result (λ k. word.now ≡ keyword_text k) }
{
    match word {
        b"program" => Some(Keyword::Program),
        b"class" => Some(Keyword::Class),
        b"if" => Some(Keyword::If),
        b"else" => Some(Keyword::Else),
        b"while" => Some(Keyword::While),
        b"read" => Some(Keyword::Read),
        b"print" => Some(Keyword::Print),
        b"return" => Some(Keyword::Return),
        b"break" => Some(Keyword::Break),
        b"void" => Some(Keyword::Void),
        b"final" => Some(Keyword::Final),
        b"new" => Some(Keyword::New),
        _ => None,
    }
}
