// The parser: it goes through the rules as the tokens ask, and makes the nodes on the way.
ghost use Rattle.std.specs.Prelude.{◌≡◌, ◌≤◌, [], List, length, None};
ghost use Rattle.slicevec.specs.Held.{held, room, KeepsMemory};
ghost use Rattle.lexer.specs.Scan.{Accepted};
ghost use Rattle.syntax.specs.Derivations.{nested, literal, noting, marked};
ghost use Rattle.syntax.specs.Examples.{Examples};
ghost use Rattle.syntax.specs.Parsing.{Parsed};
ghost use Rattle.syntax.specs.States.{Coming, Taken, Bars, Running, Stepped, Ran, Went, Room, ShownBy, Found};
ghost use Rattle.syntax.specs.Terminals.{ahead};

use crate::grammar::{Item, Level, Part, Role, Rule, Terminal};
use crate::node::{Node, NodeKind, Own};
use crate::refusal::Reason;
use crate::table::lay;
use lexer::{Kind, Refusal, Token, Tokens, scan};
use slicevec::SliceVec;

/// Brackets and bodies stand inside one another up to this depth.
pub const MAX_DEPTH: usize = 64;

/// Where an item stands: how deep, and whether in a `while`.
#[derive(Clone, Copy, Debug, PartialEq)]
pub struct Nest {
    pub depth: usize,
    pub in_loop: bool,
}

impl Nest {
    // The nest of an item that stands on this level.
    fn on(self, level: Level) -> Nest
        requires { self.depth ≤ 65 }
        ensures { result ≡ nested level self }
    {
        match level {
            Level::Same => self,
            Level::Inner => Nest {
                depth: self.depth + 1,
                ..self
            },
            Level::Loop => Nest {
                depth: self.depth + 1,
                in_loop: true,
            },
        }
    }
}

impl NodeKind {
    // The node of a number or a character, with its value.
    fn literal(kind: Kind) -> Option<NodeKind>
        ensures { result ≡ literal kind }
    {
        match kind {
            Kind::Number(value) => Some(NodeKind::Number(value)),
            Kind::Character(byte) => Some(NodeKind::Character(byte)),
            _ => None,
        }
    }

    // The node with what it keeps of a noted token.
    fn noting(self, token: Token) -> NodeKind
        ensures { result ≡ noting self token }
    {
        match self {
            NodeKind::Field { .. } => NodeKind::Field {
                name_place: token.place,
            },
            NodeKind::New { .. } => NodeKind::New {
                type_place: token.place,
            },
            NodeKind::Print { .. } => NodeKind::Print {
                width: match token.kind {
                    Kind::Number(value) => Some(value),
                    _ => None,
                },
            },
            _ => self,
        }
    }
}

impl Role {
    // The node that is begun, after a token in this role.
    fn mark(self, token: Token, nest: Nest, own: Option<Own>) -> Option<Own>
        ensures { result ≡ marked self token nest own }
    {
        let begun = |kind| Own {
            kind,
            place: token.place,
        };
        match self {
            Role::Plain => own,
            Role::Own(kind) => Some(begun(kind)),
            Role::Literal => NodeKind::literal(token.kind).map(begun),
            Role::Break => Some(begun(NodeKind::Break {
                in_loop: nest.in_loop,
            })),
            Role::Noted => own.map(|own| Own {
                kind: own.kind.noting(token),
                ..own
            }),
        }
    }
}

/// A parser on its way through a text.
#[derive(Drop)]
pub struct Parser<'t> {
    text: &'t [u8],
    /// The tokens behind the next one.
    tokens: Tokens<'t>,
    /// The next token, if one is still to come.
    ahead: Option<Token>,
    /// How many tokens are still to come.
    // Kept beside `ahead`: the loops over the rest of the tokens are to end by it.
    left: usize,
    /// How many nodes were made.
    made: usize,
}

impl<'t> Parser<'t> {
    // A parser at the first token of a text that the lexer accepts as `left` tokens.
    fn new(text: &'t [u8], left: usize) -> Parser<'t>
        ensures coming { (ts : List Token) → Accepted text.now ts → left ≡ length ts → Coming result ts }
        ensures text { result.text.now ≡ text.now }
        ensures made { result.made ≡ 0 }
    {
        let mut tokens = Tokens::new(text);
        // The lexer refuses none of them.
        let ahead = tokens.next().and_then(Result::ok);
        Parser {
            text,
            tokens,
            ahead,
            left,
            made: 0,
        }
    }

    // Takes the next token, which must be this terminal, at this depth.
    fn take(&mut self, terminal: Terminal, depth: usize) -> Result<Token, Refusal<Reason>>
        ensures taken { Taken self.old self.new terminal depth result }
        ensures text { self.new.text.now ≡ self.old.text.now }
        ensures made { self.new.made ≡ self.old.made }
    {
        let Some(token) = self.ahead else {
            return Err(Refusal {
                reason: Reason::Grammar,
                place: self.text.len(),
            });
        };
        if Terminal::of(token.kind) != Some(terminal) {
            return Err(Refusal {
                reason: Reason::Grammar,
                place: token.place,
            });
        }
        if depth > MAX_DEPTH {
            return Err(Refusal {
                reason: Reason::Depth,
                place: token.place,
            });
        }
        self.ahead = self.tokens.next().transpose().map_err(Refusal::widen)?;
        // One is left at least, as there was one ahead.
        self.left = self.left.saturating_sub(1);
        Ok(token)
    }

    // Does one item of a rule: what the node is that is begun then.
    #[cycle(parts)]
    fn step(
        &mut self,
        table: &mut SliceVec<'_, Node>,
        item: Item,
        nest: Nest,
        start: usize,
        own: Option<Own>,
    ) -> Result<Option<Own>, Refusal<Reason>>
        requires room { Room item nest.depth }
        requires running { Running self.old table.old start own }
        ensures stepped { Stepped self.old self.new table.old table.new item nest start own result }
        ensures shown { ShownBy item nest.depth result }
        ensures text { self.new.text.now ≡ self.old.text.now }
        ensures kept { KeepsMemory table.old table.new }
    {
        match item {
            Item::Make => {
                if let Some(own) = own {
                    lay(table, self.made, own, start);
                    self.made += 1;
                }
                Ok(None)
            }
            Item::Token(level, terminal, role) => {
                let nest = nest.on(level);
                let token = self.take(terminal, nest.depth)?;
                Ok(role.mark(token, nest, own))
            }
            Item::Unless(terminal) => {
                self.bar(terminal)?;
                Ok(own)
            }
            Item::Part(level, part) => {
                self.go(table, part, nest.on(level))?;
                Ok(own)
            }
        }
    }

    // Does the items of a rule: what the node is that is begun then.
    #[cycle(parts)]
    fn run(
        &mut self,
        table: &mut SliceVec<'_, Node>,
        rule: Rule,
        nest: Nest,
        start: usize,
        own: Option<Own>,
    ) -> Result<Option<Own>, Refusal<Reason>>
        requires depth { nest.depth ≤ 65 }
        requires running { Running self.old table.old start own }
        ensures ran { Ran self.old self.new table.old table.new rule nest start own result }
        ensures text { self.new.text.now ≡ self.old.text.now }
        ensures kept { KeepsMemory table.old table.new }
    {
        let mut begun = own;
        for item in rule.items() {
            begun = self.step(table, *item, nest, start, begun)?;
        }
        Ok(begun)
    }

    // Goes through a part from its first token on: by the rule that the next token asks for, and on with the rule's tail.
    #[cycle(parts)]
    fn go(
        &mut self,
        table: &mut SliceVec<'_, Node>,
        part: Part,
        nest: Nest,
    ) -> Result<(), Refusal<Reason>>
        requires depth { nest.depth ≤ 65 }
        requires running { Running self.old table.old self.old.made None }
        ensures went { Went self.old self.new table.old table.new part nest result }
        ensures text { self.new.text.now ≡ self.old.text.now }
        ensures kept { KeepsMemory table.old table.new }
    {
        let start = self.made;
        let mut own = None;
        let mut next = Some(part);
        while let Some(part) = next {
            let rule = part.predict(self.terminal());
            own = self.run(table, rule, nest, start, own)?;
            next = rule.tail();
        }
        Ok(())
    }

    // The terminal that the next token is; none at the end.
    fn terminal(&self) -> Option<Terminal>
        ensures { (ts : List Token) → Coming self.now ts → result ≡ ahead ts }
    {
        Terminal::of(self.ahead?.kind)
    }

    // Refuses where the next token is this terminal. A rule with such an item is chosen only where it is not, so no text is refused
    // here: the items are those of the grammar.
    fn bar(&self, terminal: Terminal) -> Result<(), Refusal<Reason>>
        ensures { (ts : List Token) → Coming self.now ts → Bars self.now.text.now terminal ts result }
    {
        match self.ahead {
            Some(token) if Terminal::of(token.kind) == Some(terminal) => Err(Refusal {
                reason: Reason::Grammar,
                place: token.place,
            }),
            _ => Ok(()),
        }
    }
}

// Lays the tree of a recipe into an empty table: how many nodes it has, or why there is none, and where.
fn program(text: &[u8], table: &mut SliceVec<'_, Node>) -> Result<usize, Refusal<Reason>>
    requires empty { held table.old ≡ [] }
    ensures found { Found text.now (room table.old) result (held table.new) }
    ensures kept { KeepsMemory table.old table.new }
{
    let left = scan(text).map_err(Refusal::widen)?;
    let mut parser = Parser::new(text, left);
    let outermost = Nest {
        depth: 0,
        in_loop: false,
    };
    parser.go(table, Part::Program, outermost)?;
    if let Some(token) = parser.ahead {
        return Err(Refusal {
            reason: Reason::Grammar,
            place: token.place,
        });
    }
    // Where there was no room, nodes were made that the table does not hold.
    if table.len() < parser.made {
        return Err(Refusal {
            reason: Reason::TableFull,
            place: 0,
        });
    }
    Ok(parser.made)
}

/// Lays the tree of a recipe into `table`, which is emptied before: how many nodes it has, or why there is none, and where.
/// After a refusal the table holds nothing.
#[tactic(auto, using(crate::proofs::Worked::worked))]
pub fn parse(text: &[u8], table: &mut SliceVec<'_, Node>) -> Result<usize, Refusal<Reason>>
    ensures parsed { Parsed text.now (room table.old) result (held table.new) }
    ensures examples { Examples }
    ensures kept { KeepsMemory table.old table.new }
{
    table.truncate(0);
    let result = program(text, table);
    if result.is_err() {
        table.truncate(0);
    }
    result
}
