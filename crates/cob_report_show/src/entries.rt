//! The entries of a record.

ghost use Rattle.std.specs.Prelude.{◌≡◌, ◌<◌, ◌≤◌, ◌+◌, ◌-◌, ◌*◌, ◌++◌, ◌∷◌, ℕ, length, nat_le, slice_index_or, decimal, IfErr, is_err, true, Err};
ghost use Rattle.cob_copybook_conditions.specs.Names.{plain_condition_names};
ghost use Rattle.cob_copybook_tree.specs.Nodes.{forest, node, tree_of};
ghost use Rattle.cob_layout.specs.Ways.{spot_at};
ghost use Rattle.cob_layout_places.specs.Cover.{AreNumbered};
ghost use Rattle.cob_limits.specs.Limits.{longest_name};
ghost use Rattle.cob_records.specs.Device.{counted, Took};
ghost use Rattle.cob_records.specs.Frame.{is_write_error, is_write_fault, taken_of};
ghost use Rattle.cob_report_show.specs.Entries.{ListsEntries, entry_line, greatest_spot, item_word, kind_word, level_text, lines_among, lines_of, longest_line, name_by_number, name_or_filler, occurs_text, redefines_text, spot_text};
ghost use Rattle.cob_report_show.specs.Sent.{SendsText};

use crate::conditions::put_names;
use crate::text::{ListingLine, push_number, push_text, put};
use arrayvec::ArrayVec;
use cob_copybook_conditions::ConditionName;
use cob_layout::{Item, Kind, Layout, Name, Node, ResolvedOccurs, Spot, records_are_sound};
use cob_picture::Category;
use cob_records::{RecordFault, Sink};

/// What an item is, in the words of its line.
fn item_word(item: &Item) -> &'static str
    ensures text { result.now ≡ item_word item.now }
    ensures short { length result.now ≤ 19 }
{
    match item.picture.category() {
        Category::Alphabetic => "alphabetic",
        Category::Alphanumeric => "alphanumeric",
        Category::AlphanumericEdited => "alphanumeric-edited",
        Category::NumericEdited => "numeric-edited",
        Category::Numeric if item.blank => "numeric-edited",
        Category::Numeric => item.storage_kind().word(),
    }
}

/// What an entry is, in the words of its line.
fn kind_word(kind: &Kind) -> &'static str
    ensures text { result.now ≡ kind_word kind.now }
    ensures short { length result.now ≤ 19 }
{
    match kind {
        Kind::Group => "group",
        Kind::Item(item) => item_word(item),
    }
}

/// The name of an entry, which is FILLER where it has none.
fn name_text(name: &Option<Name>) -> &[u8]
    ensures text { result.now ≡ name_or_filler name.now }
    ensures short { length result.now ≤ longest_name }
{
    match name {
        Some(name) => name.as_bytes(),
        None => b"FILLER",
    }
}

/// How many of these entries side by side, which are in the order of their numbers, have no greater number than this one.
fn count_up_to(entries: &[Node], number: usize) -> usize
    requires numbered { (first : ℕ) × AreNumbered first (forest entries.now) }
    ensures within { result ≤ length entries.now }
    ensures last { (n : Node) → 0 < result
        → (node (slice_index_or entries.now (result - 1) n)).top.number ≤ number }
    ensures next { (n : Node) → result < length entries.now
        → number < (node (slice_index_or entries.now result n)).top.number }
{
    entries.partition_point(
        |entry: &Node| -> bool
            ensures { result ≡ nat_le (node entry.now).top.number number }
        { entry.number <= number },
    )
}

/// The name of the entry with this number, which is this one or stands beneath it.
fn name_beneath(entry: &Node, number: usize) -> &[u8]
    requires numbered { AreNumbered (node entry.now).top.number (tree_of entry.now) }
    ensures text { result.now ≡ name_by_number number (tree_of entry.now) }
    ensures short { length result.now ≤ longest_name }
{
    if entry.number == number {
        return name_text(&entry.name);
    }
    let count = count_up_to(&entry.children, number);
    if count == 0 {
        return b"";
    }
    name_beneath(&entry.children[count - 1], number)
}

/// The name of the entry of a record with this number.
fn name_of(layout: &Layout, number: usize) -> &[u8]
    ensures text { result.now ≡ name_by_number number layout.now }
    ensures short { length result.now ≤ longest_name }
{
    records_are_sound();
    name_beneath(layout.root(), number)
}

/// Where the first element of an entry stands where each table has its greatest number of elements.
fn greatest_spot(layout: &Layout, number: usize) -> Spot
    ensures { result ≡ greatest_spot layout.now number }
{
    match layout.greatest_spots().get(number) {
        Some(spot) => *spot,
        None => Spot {
            offset: 0,
            length: 0,
            times: 0,
        },
    }
}

/// Adds a space and a number.
fn push_behind_space(line: &mut ListingLine, number: u32)
    requires { length line.old.items + 11 ≤ 256 }
    ensures text { line.new.items ≡ line.old.items ++ 32 ∷ decimal number }
    ensures long { length line.new.items ≤ length line.old.items + 11 }
{
    line.push(b' ');
    push_number(line, number);
}

/// Adds a level in two digits.
fn push_level(line: &mut ListingLine, level: u8)
    requires { length line.old.items + 11 ≤ 256 }
    ensures text { line.new.items ≡ line.old.items ++ level_text level }
    ensures long { length line.new.items ≤ length line.old.items + 11 }
{
    if level < 10 {
        line.push(b'0');
    }
    push_number(line, u32::from(level));
}

/// Adds where an element stands, and how long it is.
fn push_spot(line: &mut ListingLine, spot: Spot)
    requires { length line.old.items + 22 ≤ 256 }
    ensures text { line.new.items ≡ line.old.items ++ spot_text spot }
    ensures long { length line.new.items ≤ length line.old.items + 22 }
{
    push_behind_space(line, spot.offset);
    push_behind_space(line, spot.length);
}

/// Adds which entry an entry redefines, where it redefines one.
fn push_redefined(line: &mut ListingLine, redefines: &Option<Name>)
    requires { length line.old.items + 41 ≤ 256 }
    ensures text { line.new.items ≡ line.old.items ++ redefines_text redefines.now }
    ensures long { length line.new.items ≤ length line.old.items + 41 }
{
    if let Some(name) = redefines {
        push_text(line, b" redefines ");
        push_text(line, name.as_bytes());
    }
}

/// Adds how often an entry occurs, where it is a table: so many times, or from a least to a greatest number by the item that counts.
fn push_occurs(line: &mut ListingLine, layout: &Layout, occurs: ResolvedOccurs)
    requires { length line.old.items + 63 ≤ 256 }
    ensures text { line.new.items ≡ line.old.items ++ occurs_text layout.now occurs }
    ensures long { length line.new.items ≤ length line.old.items + 63 }
{
    match occurs {
        ResolvedOccurs::Once => {}
        ResolvedOccurs::Fixed(times) => {
            push_text(line, b" occurs");
            push_behind_space(line, times);
        }
        ResolvedOccurs::Varying { least, most, count } => {
            push_text(line, b" occurs");
            push_behind_space(line, least);
            push_behind_space(line, most);
            push_text(line, b" on ");
            push_text(line, name_of(layout, count));
        }
    }
}

/// The line of an entry.
fn line_of(layout: &Layout, entry: &Node) -> ListingLine
    ensures text { result.items ≡ entry_line layout.now (node entry.now).top }
    ensures some { 0 < length result.items }
    ensures long { length result.items ≤ longest_line }
{
    let mut line = ArrayVec::new();
    push_level(&mut line, entry.level);
    line.push(b' ');
    push_text(&mut line, name_text(&entry.name));
    push_spot(&mut line, greatest_spot(layout, entry.number));
    line.push(b' ');
    push_text(&mut line, kind_word(&entry.kind).as_bytes());
    push_redefined(&mut line, &entry.redefines);
    push_occurs(&mut line, layout, entry.occurs);
    line.push(b'\n');
    line
}

/// Writes the lines of an entry: its own, and behind it those of its condition-names.
fn put_entry<W: Sink>(
    sink: &mut W,
    sent: &mut u64,
    layout: &Layout,
    names: &[ConditionName],
    entry: &Node,
) -> Result<(), RecordFault>
    ensures lines { Took (W.taken sink.old) (W.taken sink.new)
        (SendsText (lines_of layout.now (plain_condition_names names.now) (node entry.now).top) sent.old sent.new result) }
    ensures kind { IfErr result (λ fault. is_write_fault fault ≡ true) }
    ensures cause { W.failures sink.new ≡ counted (is_err result) (W.failures sink.old) }
    ensures errors { W.errors sink.new ≡ counted (is_write_error result) (W.errors sink.old) }
{
    put(sink, sent, line_of(layout, entry).as_slice())?;
    put_names(sink, sent, names, entry.number)
}

/// Writes the lines of an entry and of those beneath it.
fn put_entries<W: Sink>(
    sink: &mut W,
    sent: &mut u64,
    layout: &Layout,
    names: &[ConditionName],
    entry: &Node,
) -> Result<(), RecordFault>
    ensures lines { Took (W.taken sink.old) (W.taken sink.new)
        (SendsText (lines_among layout.now (plain_condition_names names.now) (tree_of entry.now)) sent.old sent.new result) }
    ensures kind { IfErr result (λ fault. is_write_fault fault ≡ true) }
    ensures cause { W.failures sink.new ≡ counted (is_err result) (W.failures sink.old) }
    ensures errors { W.errors sink.new ≡ counted (is_write_error result) (W.errors sink.old) }
{
    put_entry(sink, sent, layout, names, entry)?;
    for child in entry.children.iter() {
        put_entries(sink, sent, layout, names, child)?;
    }
    Ok(())
}

/// The fault of a write, after so many bytes.
fn fault_after(fault: RecordFault, sent: u64) -> RecordFault
    ensures taken { is_write_fault fault ≡ true → taken_of result ≡ sent }
    ensures kind { is_write_fault result ≡ is_write_fault fault }
    ensures error { is_write_error (Err result)
        ≡ is_write_error (Err fault) }
{
    match fault {
        RecordFault::WriteFailed { .. } => RecordFault::WriteFailed {
            taken: sent as usize,
        },
        RecordFault::TookNothing { .. } => RecordFault::TookNothing {
            taken: sent as usize,
        },
        other => other,
    }
}

/// Writes a line for each entry of a record, in their order: its level in two digits, its name or FILLER, the offset and the length
/// of its first element where each table has its greatest number of elements, what it is, what it redefines, and how often it
/// occurs. Behind it stands a line for each of its condition-names, of those that are told: `88`, its name, and its values. What was written may wait in the
/// sink: the caller flushes it.
///
/// # Errors
///
/// The fault of the sink, with the number of bytes that it took in this call.
pub fn layout_text<W: Sink>(
    layout: &Layout,
    names: &[ConditionName],
    sink: &mut W,
) -> Result<(), RecordFault>
    // The sink took just the lines of the entries and of their condition-names, or where it failed a beginning of them, of which the fault has the length.
    ensures lists { Took (W.taken sink.old) (W.taken sink.new)
        (ListsEntries layout.now (plain_condition_names names.now) result) }
    ensures kind { IfErr result (λ fault. is_write_fault fault ≡ true) }
    ensures cause { W.failures sink.new ≡ counted (is_err result) (W.failures sink.old) }
    ensures errors { W.errors sink.new ≡ counted (is_write_error result) (W.errors sink.old) }
{
    let mut sent = 0;
    match put_entries(sink, &mut sent, layout, names, layout.root()) {
        Ok(()) => Ok(()),
        Err(fault) => Err(fault_after(fault, sent)),
    }
}
