//! The entries of a record, with what a statement needs to name them.

ghost use Rattle.std.specs.Prelude.{◌≡◌, ◌+◌, ◌≤◌, [], ◌∷◌, length, OnOk};
ghost use Rattle.cob_copybook_tree.specs.Nodes.{node, resolved_entry, tree_of};
ghost use Rattle.cob_copybook_tree.specs.declared.node.Node.TheViews.{out-Node};
ghost use Rattle.cob_layout.specs.Sound.{AreNested, own_dimension};
ghost use Rattle.cob_layout_places.specs.Places.{is_table};
ghost use Rattle.cob_limits.specs.Limits.{most_dimensions};
ghost use Rattle.cob_report_partners.specs.Entries.{ListsBehind, ListsTree, count_by, draft_entry, entry_inside, holds_count, inside, last_entry_number, latest_behind, node_bearer, outside, record_entries, redefined_at, seen_setting, seen_source, size_of, with_size};

use crate::bounds::TableSize;
use arrayvec::ArrayVec;
use cob_copybook_names::{Bearer, name_of, names_beneath};
use cob_copybook_tree::{Node, ResolvedOccurs};
use cob_layout::{Layout, is_table, records_are_sound};
use cob_layout_places::{Table, tables};
use cob_limits::MAX_SUBSCRIPTS;
use cob_move_data::Side;
use std::alloc::{AllocError, Global};

/// How many elements tables have, one inside the other, the outermost first.
pub type TableSizes = ArrayVec<TableSize, MAX_SUBSCRIPTS>;

/// An entry of one of the two records.
#[derive(Drop)]
pub struct DraftEntry<'a> {
    pub side: Side,
    pub entry: &'a Node,
    /// The number of the last entry beneath it, or its own where there is none.
    pub last: usize,
    /// The tables that hold it or that it is.
    pub tables: TableSizes,
    /// Whether it stands in no redefinition.
    pub own: bool,
    /// The number of the entry that it redefines, or that the outermost redefinition redefines in which it stands.
    pub redefined: Option<usize>,
    /// Whether it is the count of a table of its record, or holds one.
    pub counts: bool,
}

/// An entry with its names.
pub type DraftBearer<'a> = Bearer<'a, DraftEntry<'a>>;

/// The record whose entries are listed, with its tables that vary.
#[derive(Clone, Copy)]
struct PartnerSource<'t> {
    side: Side,
    varying: &'t [Table],
}

/// Where an entry stands.
#[derive(Drop)]
struct Setting {
    tables: TableSizes,
    own: bool,
    redefined: Option<usize>,
    /// The number of the last entry before it in its row that redefines nothing.
    latest: Option<usize>,
}

/// The same tables once more.
pub(crate) fn copied(tables: &[TableSize]) -> TableSizes
    requires { length tables.now ≤ most_dimensions }
    ensures { result.items ≡ tables.now }
{
    let mut own = ArrayVec::new();
    for table in tables {
        own.push(*table);
    }
    own
}

/// The number of the entry of a table's count, if the table varies.
fn count_of(occurs: ResolvedOccurs) -> Option<usize>
    ensures { result ≡ count_by occurs }
{
    match occurs {
        ResolvedOccurs::Varying { count, .. } => Some(count),
        _ => None,
    }
}

/// How many elements a table has.
fn size_of(entry: &Node) -> TableSize
    ensures { result ≡ size_of (resolved_entry (out-Node entry.now)) }
{
    TableSize {
        most: entry.occurs.most(),
        count: count_of(entry.occurs),
    }
}

/// The tables that hold an entry, and itself if it is one.
fn tables_with(entry: &Node, holding: &[TableSize]) -> TableSizes
    requires nested { length holding.now + own_dimension (out-Node entry.now).occurs
        ≤ most_dimensions }
    ensures { result.items ≡ with_size (is_table (out-Node entry.now).occurs)
        (size_of (resolved_entry (out-Node entry.now))) holding.now }
{
    let mut tables = copied(holding);
    if is_table(entry.occurs) {
        tables.push(size_of(entry));
    }
    tables
}

/// Which entry an entry redefines, or the outermost redefinition in which it stands.
fn redefined_at(outer: &Setting, entry: &Node) -> Option<usize>
    ensures { result ≡ redefined_at outer.now.redefined (out-Node entry.now).redefines
        outer.now.latest }
{
    match (outer.redefined, &entry.redefines) {
        (Some(redefined), _) => Some(redefined),
        (None, Some(_)) => outer.latest,
        (None, None) => None,
    }
}

/// The last entry of a row that redefines nothing, behind this one.
fn latest_behind(latest: Option<usize>, entry: &Node) -> Option<usize>
    ensures { result ≡ latest_behind latest (resolved_entry (out-Node entry.now)) }
{
    match entry.redefines {
        Some(_) => latest,
        None => Some(entry.number),
    }
}

/// Where the entries beneath an entry stand.
fn inside(outer: &Setting, entry: &Node) -> Setting
    requires nested { length outer.now.tables.items + own_dimension (out-Node entry.now).occurs
        ≤ most_dimensions }
    ensures { seen_setting result ≡ inside (seen_setting outer.now)
        (resolved_entry (out-Node entry.now)) }
{
    Setting {
        tables: tables_with(entry, outer.tables.as_slice()),
        own: outer.own && entry.redefines.is_none(),
        redefined: redefined_at(outer, entry),
        latest: None,
    }
}

/// Whether the entry with this number is the count of one of these tables, or one beneath it, up to the last one.
fn holds_count(varying: &[Table], number: usize, last: usize) -> bool
    ensures { result ≡ holds_count varying.now number last }
{
    varying
        .iter()
        .any(|table| number <= table.count && table.count <= last)
}

/// The number of the last entry beneath an entry, or its own where there is none.
fn last_number(entry: &Node) -> usize
    ensures { result ≡ last_entry_number (node entry.now).top.number (node entry.now).beneath }
{
    let mut last = entry.number;
    for child in entry.children.iter() {
        last = last_number(child);
    }
    last
}

/// An entry that stands there.
fn entry_inside<'a>(source: PartnerSource<'_>, outer: &Setting, entry: &'a Node) -> DraftEntry<'a>
    requires nested { length outer.now.tables.items + own_dimension (out-Node entry.now).occurs
        ≤ most_dimensions }
    ensures { draft_entry result ≡ entry_inside (seen_source source.entry) (seen_setting outer.now)
        (node entry.now) }
{
    let inner = inside(outer, entry);
    let last = last_number(entry);
    DraftEntry {
        side: source.side,
        entry,
        last,
        tables: inner.tables,
        own: inner.own,
        redefined: inner.redefined,
        counts: holds_count(source.varying, entry.number, last),
    }
}

/// Puts an entry behind those that are listed.
fn list_entry<'a>(
    alloc: Global,
    source: PartnerSource<'_>,
    above: &[&'a [u8]],
    outer: &Setting,
    entry: &'a Node,
    listed: &mut Vec<DraftBearer<'a>>,
) -> Result<(), AllocError>
    requires nested { length outer.now.tables.items + own_dimension (out-Node entry.now).occurs
        ≤ most_dimensions }
    ensures { OnOk result (ListsBehind listed.old.items listed.new.items
        (node_bearer source.entry above.now outer.now entry.now ∷ [])) }
{
    let mut names = Vec::new(alloc);
    names.extend_from_slice(above)?;
    listed.push(Bearer {
        name: name_of(&entry.name),
        above: names,
        entry: entry_inside(source, outer, entry),
    })?;
    Ok(())
}

/// Puts an entry, and then those beneath it, behind those that are listed. The names `above` are those of the groups that it stands in.
fn list_tree<'a>(
    alloc: Global,
    source: PartnerSource<'_>,
    above: &[&'a [u8]],
    outer: &Setting,
    entry: &'a Node,
    listed: &mut Vec<DraftBearer<'a>>,
) -> Result<(), AllocError>
    requires nested { AreNested (length outer.now.tables.items) (tree_of entry.now) }
    ensures { OnOk result (ListsTree source.entry above.now outer.now entry.now listed.old.items
        listed.new.items) }
{
    list_entry(alloc, source, above, outer, entry, listed)?;
    if entry.children.is_empty() {
        return Ok(());
    }
    let beneath = names_beneath(alloc, &entry.name, above)?;
    let mut inner = inside(outer, entry);
    for child in entry.children.iter() {
        list_tree(alloc, source, beneath.as_slice(), &inner, child, listed)?;
        inner.latest = latest_behind(inner.latest, child);
    }
    Ok(())
}

/// Where a record stands.
fn outside() -> Setting
    ensures { seen_setting result ≡ outside }
{
    Setting {
        tables: ArrayVec::new(),
        own: true,
        redefined: None,
        latest: None,
    }
}

/// The entries of a record, a parent before its children.
///
/// # Errors
///
/// Where no memory is left.
pub fn entries_of<'a>(
    alloc: Global,
    side: Side,
    layout: &'a Layout,
    listed: &mut Vec<DraftBearer<'a>>,
) -> Result<(), AllocError>
    ensures { OnOk result (ListsBehind listed.old.items listed.new.items
        (record_entries side layout.now)) }
{
    // For what `list_tree` asks: a record description is sound.
    records_are_sound();
    let varying = tables(alloc, layout.root())?;
    let source = PartnerSource {
        side,
        varying: varying.as_slice(),
    };
    list_tree(alloc, source, &[], &outside(), layout.root(), listed)
}
