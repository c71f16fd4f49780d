ghost use Rattle.std.specs.Prelude.{◌≡◌, ◌+◌, ◌≤◌, [], ◌∷◌, None, unwrap_or, option_map, IfOk, OnOk};
ghost use Rattle.cob_copybook_entry.specs.declared.kinds.Usage.TheVariants.{Display};
ghost use Rattle.cob_copybook_entry.specs.Described.{plain_entry, plain_occurs};
ghost use Rattle.cob_copybook_tree.specs.Forests.{entries_in};
ghost use Rattle.cob_copybook_tree.specs.Branches.{forest_of};
ghost use Rattle.cob_copybook_tree.specs.Nodes.{node, forest};
ghost use Rattle.cob_copybook_tree.specs.Resolving.{count_at, inherited, is_number, is_numeric, keeps_sign, kind_by_picture, resolved, resolved_by, times_of};

use crate::branch::Branch;
use crate::node::{Item, Kind, Node, ResolvedOccurs};
use cob_copybook_entry::{Entry, Name, Occurs, Sign, Usage, Value};
use cob_picture::{Category, Picture};
use std::alloc::{AllocError, Global};

/// What an entry has by its own clauses or by those of the groups that it stands in.
#[derive(Clone, Copy)]
struct Inherited {
    usage: Option<Usage>,
    sign: Option<Sign>,
}

impl Inherited {
    /// What an entry beneath has: by its own clauses, else from here.
    fn beneath(self, entry: &Entry) -> Inherited
        ensures usage { result.usage ≡ inherited self.usage entry.now.usage }
        ensures sign { result.sign ≡ inherited self.sign entry.now.sign }
    {
        Inherited {
            usage: entry.usage.or(self.usage),
            sign: entry.sign.or(self.sign),
        }
    }
}

/// Whether a picture is numeric.
pub(crate) fn is_numeric(picture: &Picture) -> bool
    ensures { result ≡ is_numeric picture.now.category }
{
    matches!(picture.category(), Category::Numeric)
}

/// Whether SIGN acts on an item: it is a signed DISPLAY number.
pub fn keeps_sign(usage: Usage, picture: &Picture) -> bool
    ensures { result ≡ keeps_sign usage picture.now }
{
    usage.is_display() && is_numeric(picture) && picture.signed()
}

/// Whether an item is a number that isn't edited.
pub fn is_number(item: &Item) -> bool
    ensures { result ≡ is_number item.now }
{
    is_numeric(&item.picture) && !item.blank
}

/// What an entry describes.
fn kind_of(entry: &Entry, own: Inherited) -> Kind
    ensures { result ≡ kind_by_picture entry.now.picture
        (unwrap_or own.usage Display) own.sign entry.now.justified entry.now.blank }
{
    match &entry.picture {
        None => Kind::Group,
        Some(picture) => {
            let usage = own.usage.unwrap_or(Usage::Display);
            let sign = if keeps_sign(usage, picture) {
                own.sign
            } else {
                None
            };
            Kind::Item(Item {
                picture: picture.clone(),
                usage,
                sign,
                justified: entry.justified,
                blank: entry.blank,
            })
        }
    }
}

/// How often an entry occurs, where its count has this number. A table that varies but has no count occurs as often as it may at most.
fn times_of(entry: &Entry, count: Option<usize>) -> ResolvedOccurs
    ensures { result ≡ times_of (option_map plain_occurs entry.now.occurs) count }
{
    match &entry.occurs {
        None => ResolvedOccurs::Once,
        Some(Occurs::Fixed(times)) => ResolvedOccurs::Fixed(*times),
        Some(Occurs::Varying { least, most, .. }) => match count {
            Some(count) => ResolvedOccurs::Varying {
                least: *least,
                most: *most,
                count,
            },
            None => ResolvedOccurs::Fixed(*most),
        },
    }
}

/// The number of the count of the entry with this number; none where none is told.
fn count_at(counts: &[Option<usize>], number: usize) -> Option<usize>
    ensures { result ≡ count_at counts.now number }
{
    match counts.get(number) {
        Some(count) => *count,
        None => None,
    }
}

/// A node of these parts.
fn node_of(
    entry: &Entry,
    number: usize,
    count: Option<usize>,
    own: Inherited,
    children: Vec<Node>,
) -> Node
    ensures { node result ≡ record {
      top = resolved_by number count own.usage own.sign (plain_entry entry.now);
      beneath = forest children.items;
    } }
{
    Node {
        number,
        line: entry.line,
        level: entry.level,
        name: entry.name.as_ref().map(Name::clone),
        kind: kind_of(entry, own),
        occurs: times_of(entry, count),
        redefines: entry.redefines.as_ref().map(Name::clone),
        value: entry.value.as_ref().map(Value::clone),
        children,
    }
}

/// The node of a branch, with those beneath it. The first has the number `next`, which becomes the number behind them all.
///
/// # Errors
///
/// Memory for a list was refused.
fn numbered(
    alloc: Global,
    branch: &Branch,
    counts: &[Option<usize>],
    above: Inherited,
    next: &mut usize,
) -> Result<Node, AllocError>
    requires few { next.old + entries_in (forest_of (branch.now ∷ [])) ≤ 65535 }
    ensures value { IfOk result (λ n. forest (n ∷ []) ≡ resolved
        counts.now next.old above.usage above.sign (forest_of (branch.now ∷ []))) }
    ensures next { OnOk result (next.new ≡ next.old + entries_in (forest_of (branch.now ∷ []))) }
{
    let number = *next;
    let count = count_at(counts, number);
    let own = above.beneath(&branch.entry);
    *next += 1;
    let mut children: Vec<Node> = Vec::new(alloc);
    for child in branch.children.iter() {
        let node = numbered(alloc, child, counts, own, next)?;
        children.push(node)?;
    }
    Ok(node_of(&branch.entry, number, count, own, children))
}

/// The tree with what its entries inherit. `counts` has, for each table that varies, the number of its count's entry, at the table's
/// own number, and none for the other entries.
///
/// # Errors
///
/// Memory for a list was refused.
pub fn resolve(alloc: Global, root: &Branch, counts: &[Option<usize>]) -> Result<Node, AllocError>
    requires few { entries_in (forest_of (root.now ∷ [])) ≤ 65535 }
    ensures { IfOk result
        (λ n. forest (n ∷ []) ≡ resolved counts.now 0 None None (forest_of (root.now ∷ []))) }
{
    let above = Inherited {
        usage: None,
        sign: None,
    };
    let mut next = 0;
    numbered(alloc, root, counts, above, &mut next)
}
