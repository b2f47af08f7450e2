// The grammar: its terminals, its parts, its rules, and the rule that the next token asks for.
ghost use Rattle.std.specs.Prelude.{◌≡◌};
ghost use Rattle.syntax.specs.Choices.{choices, otherwise, predicted};
ghost use Rattle.syntax.specs.Grammar.{right, tail};
ghost use Rattle.syntax.specs.Terminals.{terminal_of};

use self::Role::{Literal, Noted, Own};
use crate::node::{BinaryOp, NodeKind};
use arith::Relation;
use lexer::{Keyword, Kind, Operator};

/// What the grammar can ask for: a token, its value aside.
#[derive(Clone, Copy, Debug, PartialEq)]
pub enum Terminal {
    Name,
    Number,
    Character,
    Word(Keyword),
    Sign(Operator),
}

impl Terminal {
    /// The terminal that a token of this kind is; none at the end of the text.
    pub(crate) fn of(kind: Kind) -> Option<Terminal>
        ensures { result ≡ terminal_of kind }
    {
        match kind {
            Kind::End => None,
            Kind::Name => Some(Terminal::Name),
            Kind::Number(_) => Some(Terminal::Number),
            Kind::Character(_) => Some(Terminal::Character),
            Kind::Word(word) => Some(Terminal::Word(word)),
            Kind::Sign(sign) => Some(Terminal::Sign(sign)),
        }
    }
}

/// The parts of a recipe that the grammar speaks of.
#[derive(Clone, Copy, Debug, PartialEq)]
pub enum Part {
    Program,
    Declarations,
    ConstDecl,
    Literal,
    VarDecl,
    Names,
    ClassDecl,
    VarDecls,
    Type,
    Brackets,
    Methods,
    MethodDecl,
    ReturnType,
    Parameters,
    MoreParameters,
    Parameter,
    Block,
    Statements,
    Statement,
    Action,
    Else,
    ReturnValue,
    PrintEnd,
    Arguments,
    MoreArguments,
    Condition,
    OrTerms,
    CondTerm,
    AndFacts,
    CondFact,
    Relation,
    Expr,
    Sums,
    Term,
    Products,
    Factor,
    Call,
    Length,
    Designator,
    Selectors,
}

/// How deep an item stands, seen from its rule.
#[derive(Clone, Copy, Debug, PartialEq)]
pub enum Level {
    /// As deep as the rule.
    Same,
    /// One deeper: between brackets, or the body or the else part of an `if`.
    Inner,
    /// One deeper: the body of a `while`.
    Loop,
}

/// What a token does besides standing in its place.
#[derive(Clone, Copy, Debug, PartialEq)]
pub enum Role {
    Plain,
    /// A node of this kind stands at it.
    Own(NodeKind),
    /// The node of a number or a character stands at it, with its value.
    Literal,
    /// The node of a `break` stands at it.
    Break,
    /// The node that is begun keeps the number as its width, or the place of the name.
    Noted,
}

/// One item of a rule.
#[derive(Clone, Copy, Debug, PartialEq)]
pub enum Item {
    /// All that was laid for this part so far becomes the parts of the node that is begun.
    Make,
    /// This terminal.
    Token(Level, Terminal, Role),
    /// Any other terminal comes next, or the end.
    Unless(Terminal),
    /// A part of the recipe.
    Part(Level, Part),
}

/// The rules. Each has a left side (a part), items, and in chains and lists a part that goes on behind them.
// Data and no closures: the proofs compute over the whole grammar.
#[derive(Clone, Copy, Debug, PartialEq)]
pub enum Rule {
    Program,
    Constants,
    Variables,
    Classes,
    NoDeclaration,
    ConstDecl,
    NumberLiteral,
    CharacterLiteral,
    VarDecl,
    MoreNames,
    NoName,
    ClassDecl,
    MoreVarDecls,
    NoVarDecl,
    Type,
    ArrayBrackets,
    NoBrackets,
    MoreMethods,
    NoMethod,
    MethodDecl,
    Function,
    Void,
    FirstParameter,
    NoParameter,
    NextParameter,
    LastParameter,
    Parameter,
    Block,
    MoreStatements,
    NoStatement,
    Action,
    If,
    While,
    Break,
    Return,
    Read,
    Print,
    Nested,
    Empty,
    Assign,
    CallStatement,
    Increment,
    Decrement,
    Else,
    NoElse,
    Value,
    NoValue,
    Width,
    NoWidth,
    FirstArgument,
    NoArgument,
    NextArgument,
    LastArgument,
    Condition,
    Or,
    NoOr,
    CondTerm,
    And,
    NoAnd,
    CondFact,
    Equal,
    NotEqual,
    Greater,
    GreaterEqual,
    Less,
    LessEqual,
    Negative,
    Positive,
    Add,
    Subtract,
    NoSum,
    Term,
    Multiply,
    Divide,
    Remainder,
    NoProduct,
    Variable,
    Number,
    Character,
    New,
    Bracketed,
    Call,
    NoCall,
    Length,
    NoLength,
    Designator,
    Field,
    Element,
    NoSelector,
}

// A keyword in a rule, and what it does there.
macro_rules! word {
    ($word:ident) => {
        word!($word, Role::Plain)
    };
    ($word:ident, $role:expr) => {
        Item::Token(Level::Same, Terminal::Word(Keyword::$word), $role)
    };
}

// A sign in a rule, and what it does there.
macro_rules! sign {
    ($sign:ident) => {
        sign!($sign, Role::Plain)
    };
    ($sign:ident, $role:expr) => {
        Item::Token(Level::Same, Terminal::Sign(Operator::$sign), $role)
    };
}

// Any other terminal in a rule, and what it does there.
macro_rules! token {
    ($terminal:ident) => {
        token!($terminal, Role::Plain)
    };
    ($terminal:ident, $role:expr) => {
        Item::Token(Level::Same, Terminal::$terminal, $role)
    };
}

// A part in a rule, as deep as the rule.
macro_rules! part {
    ($part:ident) => {
        Item::Part(Level::Same, Part::$part)
    };
}

// A part in a rule, one deeper.
macro_rules! inner {
    ($part:ident) => {
        Item::Part(Level::Inner, Part::$part)
    };
}

impl Rule {
    /// The items of the rule.
    // A table of all rules, one after the other as a grammar is read.
    #[rattlefmt::skip]
    pub(crate) fn items(self) -> &'static [Item]
        ensures { result.now ≡ right self }
    {
        match self {
            Rule::Program => &[
                word!(Program), token!(Name), part!(Declarations), sign!(OpenBrace), inner!(Methods),
                sign!(CloseBrace),
            ],
            Rule::Constants => &[part!(ConstDecl)],
            Rule::Variables => &[part!(VarDecl)],
            Rule::Classes => &[part!(ClassDecl)],
            Rule::NoDeclaration => &[],
            Rule::ConstDecl => &[
                word!(Final), part!(Type), token!(Name), sign!(Assign), part!(Literal), sign!(Semicolon),
            ],
            Rule::NumberLiteral => &[token!(Number)],
            Rule::CharacterLiteral => &[token!(Character)],
            Rule::VarDecl => &[part!(Type), token!(Name), part!(Names), sign!(Semicolon)],
            Rule::MoreNames => &[sign!(Comma), token!(Name)],
            Rule::NoName => &[],
            Rule::ClassDecl => &[word!(Class), token!(Name), sign!(OpenBrace), inner!(VarDecls), sign!(CloseBrace)],
            Rule::MoreVarDecls => &[part!(VarDecl)],
            Rule::NoVarDecl => &[],
            Rule::Type => &[token!(Name), part!(Brackets)],
            Rule::ArrayBrackets => &[sign!(OpenBracket), sign!(CloseBracket)],
            Rule::NoBrackets => &[],
            Rule::MoreMethods => &[part!(MethodDecl)],
            Rule::NoMethod => &[],
            Rule::MethodDecl => &[
                part!(ReturnType), token!(Name, Own(NodeKind::Method)), sign!(OpenParen), inner!(Parameters),
                sign!(CloseParen), part!(VarDecls), part!(Block), Item::Make,
            ],
            Rule::Function => &[part!(Type)],
            Rule::Void => &[word!(Void)],
            Rule::FirstParameter => &[part!(Parameter)],
            Rule::NoParameter => &[],
            Rule::NextParameter => &[sign!(Comma), part!(Parameter)],
            Rule::LastParameter => &[],
            Rule::Parameter => &[part!(Type), token!(Name, Own(NodeKind::Parameter)), Item::Make],
            Rule::Block => &[sign!(OpenBrace, Own(NodeKind::Block)), inner!(Statements), sign!(CloseBrace), Item::Make],
            Rule::MoreStatements => &[part!(Statement)],
            Rule::NoStatement => &[],
            Rule::Action => &[part!(Designator)],
            Rule::If => &[
                word!(If, Own(NodeKind::If)), sign!(OpenParen), inner!(Condition), sign!(CloseParen),
                inner!(Statement), part!(Else), Item::Make,
            ],
            Rule::While => &[
                word!(While, Own(NodeKind::While)), sign!(OpenParen), inner!(Condition), sign!(CloseParen),
                Item::Part(Level::Loop, Part::Statement), Item::Make,
            ],
            Rule::Break => &[word!(Break, Role::Break), sign!(Semicolon), Item::Make],
            Rule::Return => &[word!(Return, Own(NodeKind::Return)), part!(ReturnValue), sign!(Semicolon), Item::Make],
            Rule::Read => &[
                word!(Read, Own(NodeKind::Read)), sign!(OpenParen), inner!(Designator), sign!(CloseParen),
                sign!(Semicolon), Item::Make,
            ],
            Rule::Print => &[word!(Print, Own(NodeKind::Print { width: None })), sign!(OpenParen), inner!(Expr)],
            Rule::Nested => &[part!(Block)],
            Rule::Empty => &[sign!(Semicolon, Own(NodeKind::Empty)), Item::Make],
            Rule::Assign => &[sign!(Assign, Own(NodeKind::Assign)), part!(Expr), sign!(Semicolon), Item::Make],
            Rule::CallStatement => &[
                sign!(OpenParen, Own(NodeKind::CallStatement)), inner!(Arguments), sign!(CloseParen),
                sign!(Semicolon), Item::Make,
            ],
            Rule::Increment => &[sign!(PlusPlus, Own(NodeKind::Increment)), sign!(Semicolon), Item::Make],
            Rule::Decrement => &[sign!(MinusMinus, Own(NodeKind::Decrement)), sign!(Semicolon), Item::Make],
            Rule::Else => &[word!(Else), inner!(Statement)],
            Rule::NoElse => &[Item::Unless(Terminal::Word(Keyword::Else))],
            Rule::Value => &[part!(Expr)],
            Rule::NoValue => &[],
            Rule::Width => &[
                Item::Token(Level::Inner, Terminal::Sign(Operator::Comma), Role::Plain),
                Item::Token(Level::Inner, Terminal::Number, Noted), sign!(CloseParen), sign!(Semicolon), Item::Make,
            ],
            Rule::NoWidth => &[sign!(CloseParen), sign!(Semicolon), Item::Make],
            Rule::FirstArgument => &[part!(Expr)],
            Rule::NoArgument => &[],
            Rule::NextArgument => &[sign!(Comma), part!(Expr)],
            Rule::LastArgument => &[],
            Rule::Condition => &[part!(CondTerm)],
            Rule::Or => &[sign!(OrOr, Own(NodeKind::Or)), part!(CondTerm), Item::Make],
            Rule::NoOr => &[],
            Rule::CondTerm => &[part!(CondFact)],
            Rule::And => &[sign!(AndAnd, Own(NodeKind::And)), part!(CondFact), Item::Make],
            Rule::NoAnd => &[],
            Rule::CondFact => &[part!(Expr)],
            Rule::Equal => &[sign!(EqualEqual, Own(NodeKind::Relation(Relation::Equal))), part!(Expr), Item::Make],
            Rule::NotEqual => &[sign!(NotEqual, Own(NodeKind::Relation(Relation::NotEqual))), part!(Expr), Item::Make],
            Rule::Greater => &[sign!(Greater, Own(NodeKind::Relation(Relation::Greater))), part!(Expr), Item::Make],
            Rule::GreaterEqual => &[
                sign!(GreaterEqual, Own(NodeKind::Relation(Relation::GreaterEqual))), part!(Expr), Item::Make,
            ],
            Rule::Less => &[sign!(Less, Own(NodeKind::Relation(Relation::Less))), part!(Expr), Item::Make],
            Rule::LessEqual => &[
                sign!(LessEqual, Own(NodeKind::Relation(Relation::LessEqual))), part!(Expr), Item::Make,
            ],
            Rule::Negative => &[sign!(Minus, Own(NodeKind::Negate)), part!(Term), Item::Make],
            Rule::Positive => &[part!(Term)],
            Rule::Add => &[sign!(Plus, Own(NodeKind::Binary(BinaryOp::Add))), part!(Term), Item::Make],
            Rule::Subtract => &[sign!(Minus, Own(NodeKind::Binary(BinaryOp::Subtract))), part!(Term), Item::Make],
            Rule::NoSum => &[],
            Rule::Term => &[part!(Factor)],
            Rule::Multiply => &[sign!(Star, Own(NodeKind::Binary(BinaryOp::Multiply))), part!(Factor), Item::Make],
            Rule::Divide => &[sign!(Slash, Own(NodeKind::Binary(BinaryOp::Divide))), part!(Factor), Item::Make],
            Rule::Remainder => &[sign!(Percent, Own(NodeKind::Binary(BinaryOp::Remainder))), part!(Factor), Item::Make],
            Rule::NoProduct => &[],
            Rule::Variable => &[part!(Designator)],
            Rule::Number => &[token!(Number, Literal), Item::Make],
            Rule::Character => &[token!(Character, Literal), Item::Make],
            // The place in `New` and `Field` is 0 until the name is noted: kinds without values would be a second such enum.
            Rule::New => &[word!(New, Own(NodeKind::New { type_place: 0 })), token!(Name, Noted)],
            Rule::Bracketed => &[sign!(OpenParen), inner!(Expr), sign!(CloseParen)],
            Rule::Call => &[sign!(OpenParen, Own(NodeKind::Call)), inner!(Arguments), sign!(CloseParen), Item::Make],
            Rule::NoCall => &[],
            Rule::Length => &[sign!(OpenBracket), inner!(Expr), sign!(CloseBracket), Item::Make],
            Rule::NoLength => &[Item::Make],
            Rule::Designator => &[token!(Name, Own(NodeKind::Name)), Item::Make],
            Rule::Field => &[sign!(Dot, Own(NodeKind::Field { name_place: 0 })), token!(Name, Noted), Item::Make],
            Rule::Element => &[
                sign!(OpenBracket, Own(NodeKind::Element)), inner!(Expr), sign!(CloseBracket), Item::Make,
            ],
            Rule::NoSelector => &[],
        }
    }

    /// The part that goes on behind the items, in one with them.
    pub(crate) fn tail(self) -> Option<Part>
        ensures { result ≡ tail self }
    {
        match self {
            Rule::Constants | Rule::Variables | Rule::Classes => Some(Part::Declarations),
            Rule::MoreNames => Some(Part::Names),
            Rule::MoreVarDecls => Some(Part::VarDecls),
            Rule::MoreMethods => Some(Part::Methods),
            Rule::FirstParameter | Rule::NextParameter => Some(Part::MoreParameters),
            Rule::MoreStatements => Some(Part::Statements),
            Rule::Action => Some(Part::Action),
            Rule::Print => Some(Part::PrintEnd),
            Rule::FirstArgument | Rule::NextArgument => Some(Part::MoreArguments),
            Rule::Condition | Rule::Or => Some(Part::OrTerms),
            Rule::CondTerm | Rule::And => Some(Part::AndFacts),
            Rule::CondFact => Some(Part::Relation),
            Rule::Negative | Rule::Positive | Rule::Add | Rule::Subtract => Some(Part::Sums),
            Rule::Term | Rule::Multiply | Rule::Divide | Rule::Remainder => Some(Part::Products),
            Rule::Variable => Some(Part::Call),
            Rule::New => Some(Part::Length),
            Rule::Designator | Rule::Field | Rule::Element => Some(Part::Selectors),
            _ => None,
        }
    }
}

/// A rule that a terminal asks for.
#[derive(Clone, Copy, Debug, PartialEq)]
pub struct Choice {
    pub ahead: Terminal,
    pub rule: Rule,
}

// A terminal and the rule that it asks for.
macro_rules! asks {
    (word $word:ident => $rule:ident) => {
        Choice { ahead: Terminal::Word(Keyword::$word), rule: Rule::$rule }
    };
    (sign $sign:ident => $rule:ident) => {
        Choice { ahead: Terminal::Sign(Operator::$sign), rule: Rule::$rule }
    };
    ($terminal:ident => $rule:ident) => {
        Choice { ahead: Terminal::$terminal, rule: Rule::$rule }
    };
}

impl Part {
    /// The rules that the next token asks for.
    // A table of all parts.
    #[rattlefmt::skip]
    fn choices(self) -> &'static [Choice]
        ensures { result.now ≡ choices self }
    {
        match self {
            Part::Declarations => &[
                asks!(word Class => Classes), asks!(word Final => Constants), asks!(sign OpenBrace => NoDeclaration),
            ],
            Part::Literal => &[asks!(Character => CharacterLiteral)],
            Part::Names => &[asks!(sign Comma => MoreNames)],
            Part::VarDecls => &[asks!(Name => MoreVarDecls)],
            Part::Brackets => &[asks!(sign OpenBracket => ArrayBrackets)],
            Part::Methods => &[asks!(sign CloseBrace => NoMethod)],
            Part::ReturnType => &[asks!(word Void => Void)],
            Part::Parameters => &[asks!(sign CloseParen => NoParameter)],
            Part::MoreParameters => &[asks!(sign Comma => NextParameter)],
            Part::Statements => &[asks!(sign CloseBrace => NoStatement)],
            Part::Statement => &[
                asks!(word If => If), asks!(word While => While), asks!(word Read => Read),
                asks!(word Print => Print), asks!(word Return => Return), asks!(word Break => Break),
                asks!(sign OpenBrace => Nested), asks!(sign Semicolon => Empty),
            ],
            Part::Action => &[
                asks!(sign PlusPlus => Increment), asks!(sign MinusMinus => Decrement),
                asks!(sign OpenParen => CallStatement),
            ],
            Part::Else => &[asks!(word Else => Else)],
            Part::ReturnValue => &[asks!(sign Semicolon => NoValue)],
            Part::PrintEnd => &[asks!(sign Comma => Width)],
            Part::Arguments => &[asks!(sign CloseParen => NoArgument)],
            Part::MoreArguments => &[asks!(sign Comma => NextArgument)],
            Part::OrTerms => &[asks!(sign OrOr => Or)],
            Part::AndFacts => &[asks!(sign AndAnd => And)],
            Part::Relation => &[
                asks!(sign NotEqual => NotEqual), asks!(sign Greater => Greater),
                asks!(sign GreaterEqual => GreaterEqual), asks!(sign Less => Less),
                asks!(sign LessEqual => LessEqual),
            ],
            Part::Expr => &[asks!(sign Minus => Negative)],
            Part::Sums => &[asks!(sign Plus => Add), asks!(sign Minus => Subtract)],
            Part::Products => &[
                asks!(sign Star => Multiply), asks!(sign Slash => Divide), asks!(sign Percent => Remainder),
            ],
            Part::Factor => &[
                asks!(Number => Number), asks!(Character => Character), asks!(word New => New),
                asks!(sign OpenParen => Bracketed),
            ],
            Part::Call => &[asks!(sign OpenParen => Call)],
            Part::Length => &[asks!(sign OpenBracket => Length)],
            Part::Selectors => &[asks!(sign OpenBracket => Element), asks!(sign Dot => Field)],
            _ => &[],
        }
    }

    /// The rule where the next token asks for no other.
    fn otherwise(self) -> Rule
        ensures { result ≡ otherwise self }
    {
        match self {
            Part::Program => Rule::Program,
            Part::Declarations => Rule::Variables,
            Part::ConstDecl => Rule::ConstDecl,
            Part::Literal => Rule::NumberLiteral,
            Part::VarDecl => Rule::VarDecl,
            Part::Names => Rule::NoName,
            Part::ClassDecl => Rule::ClassDecl,
            Part::VarDecls => Rule::NoVarDecl,
            Part::Type => Rule::Type,
            Part::Brackets => Rule::NoBrackets,
            Part::Methods => Rule::MoreMethods,
            Part::MethodDecl => Rule::MethodDecl,
            Part::ReturnType => Rule::Function,
            Part::Parameters => Rule::FirstParameter,
            Part::MoreParameters => Rule::LastParameter,
            Part::Parameter => Rule::Parameter,
            Part::Block => Rule::Block,
            Part::Statements => Rule::MoreStatements,
            Part::Statement => Rule::Action,
            Part::Action => Rule::Assign,
            Part::Else => Rule::NoElse,
            Part::ReturnValue => Rule::Value,
            Part::PrintEnd => Rule::NoWidth,
            Part::Arguments => Rule::FirstArgument,
            Part::MoreArguments => Rule::LastArgument,
            Part::Condition => Rule::Condition,
            Part::OrTerms => Rule::NoOr,
            Part::CondTerm => Rule::CondTerm,
            Part::AndFacts => Rule::NoAnd,
            Part::CondFact => Rule::CondFact,
            Part::Relation => Rule::Equal,
            Part::Expr => Rule::Positive,
            Part::Sums => Rule::NoSum,
            Part::Term => Rule::Term,
            Part::Products => Rule::NoProduct,
            Part::Factor => Rule::Variable,
            Part::Call => Rule::NoCall,
            Part::Length => Rule::NoLength,
            Part::Designator => Rule::Designator,
            Part::Selectors => Rule::NoSelector,
        }
    }

    /// The rule by which the part goes on where this terminal comes next, if it can go on at all.
    pub(crate) fn predict(self, ahead: Option<Terminal>) -> Rule
        ensures { result ≡ predicted self ahead }
    {
        self.choices()
            .iter()
            .find(|choice| Some(choice.ahead) == ahead)
            .map_or(self.otherwise(), |choice| choice.rule)
    }
}
