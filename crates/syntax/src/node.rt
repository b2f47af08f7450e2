// The nodes of a tree, as they stand in the node table.
use arith::Relation;

/// An arithmetic operator between two expressions.
#[derive(Clone, Copy, Debug, PartialEq)]
pub enum BinaryOp {
    Add,
    Subtract,
    Multiply,
    Divide,
    Remainder,
}

/// What a node is.
#[derive(Clone, Copy, Debug, PartialEq)]
pub enum NodeKind {
    /// A statement that is only a semicolon.
    Empty,
    /// Its parameters, then its body.
    Method,
    Parameter,
    /// The first identifier of a designator.
    Name,
    /// A field of what stands before it, by the place of the field's identifier.
    Field { name_place: usize },
    /// An element of an array: what stands before it, then the index.
    Element,
    /// A call in an expression: its designator, then its arguments.
    Call,
    /// A call as a statement: its designator, then its arguments.
    CallStatement,
    /// A number, by its value.
    Number(u32),
    /// A character constant, by its byte.
    Character(u8),
    /// A new object or array, by the place of its type's identifier; an array's length is its only part.
    New { type_place: usize },
    Negate,
    Binary(BinaryOp),
    Relation(Relation),
    And,
    Or,
    /// The designator stored into, then the value.
    Assign,
    Increment,
    Decrement,
    /// The condition, the body and, if there is one, the else part.
    If,
    /// The condition, then the body.
    While,
    /// Whether it stands in a `while`.
    Break { in_loop: bool },
    /// The value, if there is one.
    Return,
    Read,
    /// What is printed; the width, if one is given.
    Print { width: Option<u32> },
    /// Its statements.
    Block,
}

/// How a node is used by the node whose part it is.
#[derive(Clone, Copy, Debug, PartialEq)]
pub enum Use {
    /// As a value, or as a statement.
    Value,
    /// As the designator that is stored into.
    Stored,
    /// As the designator that is called.
    Called,
}

/// What the checker finds about a node.
#[derive(Clone, Copy, Debug, PartialEq)]
pub enum Note {
    /// Nothing yet: so the parser leaves every node.
    Unjudged,
}

/// An entry of the node table. A node's parts stand before it, each behind the whole of the one to its left.
// Indices and no boxes: the table lies in lent memory.
#[derive(Clone, Copy, Debug, PartialEq)]
pub struct Node {
    pub kind: NodeKind,
    /// The place of its own token in the text.
    pub place: usize,
    /// The index of the first node of its tree; its tree's nodes are those from there up to itself.
    pub start: usize,
    /// Its first part.
    pub first: Option<usize>,
    /// The part to its right of the node that it is a part of.
    pub next: Option<usize>,
    pub used: Use,
    pub note: Note,
}

/// An entry of lent memory before anything is laid into it.
pub const UNUSED: Node = Node {
    kind: NodeKind::Empty,
    place: 0,
    start: 0,
    first: None,
    next: None,
    used: Use::Value,
    note: Note::Unjudged,
};

/// A node that is begun: its own token was taken, and its parts are still coming.
#[derive(Clone, Copy, Debug, PartialEq)]
pub struct Own {
    pub kind: NodeKind,
    pub place: usize,
}
