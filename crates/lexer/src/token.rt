// Tokens: what a recipe is cut into.
ghost use Rattle.std.specs.Prelude.{◌≡◌, length, take, drop};
ghost use Rattle.lexer.specs.Spelling.{sign_text};

/// The words that are no names.
#[derive(Clone, Copy, Debug, PartialEq)]
pub enum Keyword {
    Program,
    Class,
    If,
    Else,
    While,
    Read,
    Print,
    Return,
    Break,
    Void,
    Final,
    New,
}

/// The signs: operators, brackets and separators.
#[derive(Clone, Copy, Debug, PartialEq)]
pub enum Operator {
    Plus,
    Minus,
    Star,
    Slash,
    Percent,
    PlusPlus,
    MinusMinus,
    EqualEqual,
    NotEqual,
    Greater,
    GreaterEqual,
    Less,
    LessEqual,
    AndAnd,
    OrOr,
    OpenParen,
    CloseParen,
    OpenBracket,
    CloseBracket,
    OpenBrace,
    CloseBrace,
    Assign,
    Semicolon,
    Comma,
    Dot,
}

/// What a token is.
#[derive(Clone, Copy, Debug, PartialEq)]
pub enum Kind {
    /// No token: the text has ended.
    // Kept, since `next` tells the place of the end, which an `Option` of a token would lose; `Tokens` ends by `None`.
    End,
    Name,
    /// A number, by its value.
    Number(u32),
    /// A character constant, by its byte.
    Character(u8),
    Word(Keyword),
    Sign(Operator),
}

/// A token: its kind and the part of the recipe that it is, `len` bytes from `place` on.
#[derive(Clone, Copy, Debug, PartialEq)]
pub struct Token {
    pub kind: Kind,
    pub place: usize,
    pub len: usize,
}

impl Operator {
    /// How many bytes the sign has.
    pub(crate) fn len(self) -> usize
        ensures { result ≡ length (sign_text self) }
    {
        match self {
            Operator::PlusPlus
            | Operator::MinusMinus
            | Operator::EqualEqual
            | Operator::NotEqual
            | Operator::GreaterEqual
            | Operator::LessEqual
            | Operator::AndAnd
            | Operator::OrOr => 2,
            _ => 1,
        }
    }
}

impl Token {
    /// The part of the recipe that the token is.
    pub fn text<'t>(&self, recipe: &'t [u8]) -> &'t [u8]
        ensures { result.now ≡ take self.now.len (drop self.now.place recipe.now) }
    {
        let from = self.place.min(recipe.len());
        let rest = &recipe[from..];
        &rest[..self.len.min(rest.len())]
    }
}
