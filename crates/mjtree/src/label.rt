// The words for the kinds of nodes.
ghost use Rattle.std.specs.Prelude.{◌≡◌};
ghost use Rattle.mjtree.specs.Listing.{operator as operator_of, relation as relation_of, label as label_of};

use arith::Relation;
use syntax::{BinaryOp, NodeKind};

/// The sign of an arithmetic operator.
fn operator(op: BinaryOp) -> &'static str
    ensures { result.now ≡ operator_of op }
{
    match op {
        BinaryOp::Add => "+",
        BinaryOp::Subtract => "-",
        BinaryOp::Multiply => "*",
        BinaryOp::Divide => "/",
        BinaryOp::Remainder => "%",
    }
}

/// The sign of a relation.
fn relation(relation: Relation) -> &'static str
    ensures { result.now ≡ relation_of relation }
{
    match relation {
        Relation::Equal => "==",
        Relation::NotEqual => "!=",
        Relation::Less => "<",
        Relation::LessEqual => "<=",
        Relation::Greater => ">",
        Relation::GreaterEqual => ">=",
    }
}

/// The word for a kind of node: its own word or sign, where it stands at one.
pub(crate) fn label(kind: NodeKind) -> &'static str
    ensures { result.now ≡ label_of kind }
{
    match kind {
        NodeKind::Empty => "empty",
        NodeKind::Method => "method",
        NodeKind::Parameter => "parameter",
        NodeKind::Name => "name",
        NodeKind::Field { .. } => "field",
        NodeKind::Element => "element",
        NodeKind::Call | NodeKind::CallStatement => "call",
        NodeKind::Number(_) => "number",
        NodeKind::Character(_) => "character",
        NodeKind::New { .. } => "new",
        NodeKind::Negate => "neg",
        NodeKind::Binary(op) => operator(op),
        NodeKind::Relation(sign) => relation(sign),
        NodeKind::And => "&&",
        NodeKind::Or => "||",
        NodeKind::Assign => "=",
        NodeKind::Increment => "++",
        NodeKind::Decrement => "--",
        NodeKind::If => "if",
        NodeKind::While => "while",
        NodeKind::Break { .. } => "break",
        NodeKind::Return => "return",
        NodeKind::Read => "read",
        NodeKind::Print { .. } => "print",
        NodeKind::Block => "block",
    }
}
