// The node table: nodes are laid into it children first.
ghost use Rattle.std.specs.Prelude.{◌≡◌, ℕ, ◌≤◌, List, [], ◌∷◌, ◌++◌, length};
ghost use Rattle.slicevec.specs.Held.{held, KeepsMemory};
ghost use Rattle.syntax.specs.Table.{first_use, first_root, parts, loose, entries};
ghost use Rattle.syntax.specs.Laying.{Linked, Laid};

use crate::node::{Node, NodeKind, Note, Own, Use};
use slicevec::SliceVec;

impl NodeKind {
    // How a node of this kind uses its first part.
    fn first_use(self) -> Use
        ensures { result ≡ first_use self }
    {
        match self {
            NodeKind::Assign | NodeKind::Increment | NodeKind::Decrement | NodeKind::Read => {
                Use::Stored
            }
            NodeKind::Call | NodeKind::CallStatement => Use::Called,
            _ => Use::Value,
        }
    }
}

// Makes the trees from `start` on the parts of one node that uses its first part so, and answers the first.
fn link(table: &mut SliceVec<'_, Node>, start: usize, used: Use) -> Option<usize>
    ensures linked { Linked (held table.old) (held table.new) start used result }
    ensures kept { KeepsMemory table.old table.new }
{
    let mut next = None;
    let mut end = table.len();
    // From one tree to the next on its left by the nodes' own starts: no range or iterator goes that way.
    'trees: while start < end {
        let root = end - 1;
        let Some(mut node) = table.get(root) else {
            break;
        };
        node.next = next;
        if node.start <= start {
            node.used = used;
        }
        table.set(root, node);
        next = Some(root);
        end = node.start.min(root);
    }
    next
}

/// Lays a node whose parts are the trees from `start` on, if the table holds the `made` nodes made before and has room for one
/// more.
pub(crate) fn lay(table: &mut SliceVec<'_, Node>, made: usize, own: Own, start: usize)
    ensures laid { Laid table.old table.new made own start }
    ensures kept { KeepsMemory table.old table.new }
{
    if table.len() != made {
        return;
    }
    let first = link(table, start, own.kind.first_use());
    // Where there is no room, the count of the nodes made tells so in the end.
    let _ = table.push(Node {
        kind: own.kind,
        place: own.place,
        start,
        first,
        next: None,
        used: Use::Value,
        note: Note::Unjudged,
    });
}
