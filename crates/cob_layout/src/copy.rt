//! Copies of trees.

ghost use Rattle.std.specs.Prelude.{◌≡◌, IfOk};
ghost use Rattle.cob_copybook_tree.specs.Nodes.{forest, node, resolved_entry, tree_of};
ghost use Rattle.cob_copybook_tree.specs.declared.node.Node.TheViews.{out-Node};
ghost use Rattle.cob_copybook.specs.Bytes.{TakesByte, TakeBytes};

use cob_copybook::{Item, Kind, Name, Node, Value};
use std::alloc::{AllocError, Global};

/// What an entry describes, once more. It takes no memory, and so cannot fail. An item takes a byte, since its picture does.
fn same_kind(kind: &Kind) -> Kind
    ensures same { result ≡ kind.now }
    ensures byte { TakesByte kind.now }
{
    match kind {
        Kind::Group => Kind::Group,
        Kind::Item(item) => {
            // For `byte`: a picture has a byte at least.
            let _ = item.picture.size();
            Kind::Item(Item {
                picture: item.picture.clone(),
                usage: item.usage,
                sign: item.sign,
                justified: item.justified,
                blank: item.blank,
            })
        }
    }
}

/// An entry once more, with these children beneath it.
fn same_entry(entry: &Node, children: Vec<Node>) -> Node
    ensures same { node result ≡ record {
      top = resolved_entry (out-Node entry.now);
      beneath = forest children.items;
    } }
    ensures byte { TakesByte (out-Node entry.now).kind }
{
    Node {
        number: entry.number,
        line: entry.line,
        level: entry.level,
        name: entry.name.as_ref().map(Name::clone),
        kind: same_kind(&entry.kind),
        occurs: entry.occurs,
        redefines: entry.redefines.as_ref().map(Name::clone),
        value: entry.value.as_ref().map(Value::clone),
        children,
    }
}

/// An entry once more, with those beneath it.
///
/// # Errors
///
/// Where no memory is left.
pub(crate) fn copied(alloc: Global, entry: &Node) -> Result<Node, AllocError>
    ensures same { IfOk result (λ copy. node copy ≡ node entry.now) }
    ensures bytes { IfOk result (λ copy. TakeBytes (tree_of copy)) }
{
    let mut children: Vec<Node> = Vec::new(alloc);
    for child in entry.children.iter() {
        let copy = copied(alloc, child)?;
        children.push(copy)?;
    }
    Ok(same_entry(entry, children))
}
