// The list of a tree's nodes as text.
ghost use Rattle.std.specs.Prelude.{◌≡◌, IfOk};
ghost use Rattle.std.specs.String.{string_bytes};
ghost use Rattle.syntax.specs.Table.{loose};
ghost use Rattle.syntax.specs.Trees.{Forest};
ghost use Rattle.mjtree.specs.Examples.{Examples};
ghost use Rattle.mjtree.specs.Links.{Told};
ghost use Rattle.mjtree.specs.Listing.{Row, line as line_of, lines as lines_of, Listed};

use crate::label::label;
use slicevec::SliceVec;
use std::alloc::{AllocError, Global};
use std::fmt::Write;
use syntax::{Node, UNUSED, parse};

// So many entries are lent to the parser: more than a recipe has nodes.
const ENTRIES: usize = 65_542;

/// The line of one node: its index, place and kind, and the indices of its parts.
fn line(heap: Global, nodes: &[Node], index: usize) -> Result<String, AllocError>
    requires told { (r : Row) × Told nodes.now index r }
    ensures { IfOk result (λ s. (r : Row) → Told nodes.now index r → string_bytes s ≡ line_of r) }
{
    let node = nodes[index];
    let mut line = format!(in heap; "{index} {} {}", node.place, label(node.kind))?;
    let mut next = node.first;
    while let Some(part) = next {
        write!(line, " {part}")?;
        next = nodes[part].next;
    }
    line.push('\n')?;
    Ok(line)
}

/// The lines of all nodes of the trees in the table.
fn lines(heap: Global, nodes: &[Node]) -> Result<String, AllocError>
    requires trees { (f : Forest) × (nodes.now ≡ loose 0 f) }
    ensures { IfOk result (λ s. (f : Forest) → nodes.now ≡ loose 0 f → string_bytes s ≡ lines_of f) }
{
    let mut lines = String::new(heap);
    for index in 0..nodes.len() {
        lines.push_str(&line(heap, nodes, index)?)?;
    }
    Ok(lines)
}

/// All that is printed of a recipe: its tree's nodes, or why it has none.
#[tactic(auto, using(crate::proofs::Worked::worked))]
pub(crate) fn listing(heap: Global, recipe: &[u8]) -> Result<Vec<u8>, AllocError>
    ensures listed { IfOk result (λ v. Listed recipe.now v.items) }
    ensures examples { Examples }
{
    let mut entries = vec![in heap; UNUSED; ENTRIES]?;
    let mut table = SliceVec::new(&mut entries);
    let count = match parse(recipe, &mut table) {
        Ok(count) => count,
        Err(refusal) => return Ok(format!(in heap; "{refusal}\n")?.into_bytes()),
    };
    let mut out = lines(heap, table.as_slice())?;
    writeln!(out, "nodes {count}")?;
    Ok(out.into_bytes())
}
