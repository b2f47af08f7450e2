// Why a recipe has no tree.
ghost use Rattle.std.specs.Prelude.{◌≡◌};
ghost use Rattle.syntax.specs.declared.refusal.Reason.TheVariants.{Lexical};
ghost use Rattle.syntax.specs.Refusals.{number_of as number_of_reason};

use lexer::Numbered;

/// Why a text has no tree.
#[derive(Clone, Copy, Debug, PartialEq)]
pub enum Reason {
    /// It is no list of tokens.
    Lexical(lexer::Reason),
    /// The grammar cannot go on.
    Grammar,
    /// A token stands deeper than 64.
    Depth,
    /// The tree has more nodes than the table has entries.
    TableFull,
}

impl Numbered for Reason {
    ghost number_of = { number_of_reason };

    fn number(self) -> u8 {
        match self {
            Reason::Lexical(lexical) => lexical.number(),
            Reason::Grammar => 5,
            Reason::Depth => 6,
            Reason::TableFull => 7,
        }
    }
}

impl From<lexer::Reason> for Reason {
    ghost from_gives = { λ reason wider. wider ≡ Lexical reason };

    fn from(reason: lexer::Reason) -> Reason {
        Reason::Lexical(reason)
    }
}
