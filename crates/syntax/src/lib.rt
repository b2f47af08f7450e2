// The tree of a MicroJava recipe.
//
// A text that is a recipe has one tree. Its nodes are laid into a table in lent memory, the parts of each before it, and
// each node has the place of its own token. No heap is needed, and brackets, blocks and bodies stand in one another up to a
// fixed depth.
#![tactic(auto)]

mod grammar;
mod node;
mod parser;
mod refusal;
mod table;

pub use node::{BinaryOp, Node, NodeKind, Note, UNUSED, Use};
pub use parser::{MAX_DEPTH, parse};
pub use refusal::Reason;

#[cfg(test)]
mod tests;
