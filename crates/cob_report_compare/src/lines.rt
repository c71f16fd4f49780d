//! The lines that are printed of two files that are compared.

ghost use Rattle.std.specs.Prelude.{◌≡◌, ◌≤◌, ◌<◌, ◌+◌, ◌-◌, ◌++◌, ◌∷◌, ◌^◌, Some, length, map, decimal, flat_map, is_err, true, codes, IfErr, OnOk};
ghost use Rattle.cob_copybook_tree.specs.Items.{IsNumberItem};
ghost use Rattle.cob_copybook_tree.specs.Lengths.{item_size};
ghost use Rattle.cob_limits.specs.Limits.{longest_name, longest_record, most_dimensions};
ghost use Rattle.cob_records.specs.Device.{counted, Took};
ghost use Rattle.cob_records.specs.Frame.{is_write_fault};
ghost use Rattle.cob_records.specs.Hex.{byte_text};
ghost use Rattle.cob_report_show.specs.Elements.{named_item};
ghost use Rattle.cob_report_show.specs.Runs.{most_shown};
ghost use Rattle.cob_report_show.specs.Values.{AreQuoted, AreUnknown, IsNumberShown, IsNumberValue, IsValueShown};
ghost use Rattle.cob_report_compare.specs.Differences.{plain_difference};
ghost use Rattle.cob_report_compare.specs.Lines.{AreDifferenceLines, AreComparedElementLines, AreComparedRecordLines, AreBytesShown, AreValuesShown, IfTold, IsDifferenceLine, IsAloneLine, IsHeaded, alone_end, byte_line, counts_line, header_end, lengths_text, more_line, place_text, unlike_lines};
ghost use Rattle.cob_report_compare.specs.Headings.{IsPlainHeading, heading_text};
ghost use Rattle.cob_report_compare.specs.Merged.{lefts_counted, rights_counted};
ghost use Rattle.cob_report_compare.specs.Printable.{ArePrintable, IsPrintable, IsTellable};

use crate::bytes::{ByteDifference, FirstBytes};
use crate::counted::PairCounts;
use crate::differences::{Difference, FirstDifferences};
use crate::files::FileSide;
use crate::headings::{Heading, put_heading};
use crate::records::Comparison;
use arrayvec::ArrayVec;
use cob_layout::{Item, field, is_number_item};
use cob_records::{Form, RecordFault, Sink, put_record};
use cob_report_show::{
    ListedItem, ListingLine, digits_of, number_text, push_subscripts, push_text, shown_byte,
};
use itoa::Buffer;

/// Prints a text.
pub(crate) fn put_text<W: Sink>(sink: &mut W, text: &[u8]) -> Result<(), RecordFault>
    requires some { 0 < length text.now }
    requires most { length text.now ≤ longest_record }
    ensures text { OnOk result (Took (W.taken sink.old) (W.taken sink.new) (λ part. part ≡ text.now)) }
    ensures kind { IfErr result (λ fault. is_write_fault fault ≡ true) }
    ensures cause { W.failures sink.new ≡ counted (is_err result) (W.failures sink.old) }
{
    put_record(sink, Form::Fixed, text)
}

/// Prints bytes as characters.
fn put_shown<W: Sink>(sink: &mut W, bytes: &[u8]) -> Result<(), RecordFault>
    ensures text { OnOk result (Took (W.taken sink.old) (W.taken sink.new)
        (AreBytesShown bytes.now)) }
    ensures kind { IfErr result (λ fault. is_write_fault fault ≡ true) }
    ensures cause { W.failures sink.new ≡ counted (is_err result) (W.failures sink.old) }
{
    for byte in bytes {
        put_text(sink, shown_byte(*byte).as_slice())?;
    }
    Ok(())
}

/// Prints bytes as hexadecimal digits.
fn put_digits<W: Sink>(sink: &mut W, bytes: &[u8]) -> Result<(), RecordFault>
    ensures text { OnOk result (Took (W.taken sink.old) (W.taken sink.new)
        (λ part. part ≡ flat_map byte_text bytes.now)) }
    ensures kind { IfErr result (λ fault. is_write_fault fault ≡ true) }
    ensures cause { W.failures sink.new ≡ counted (is_err result) (W.failures sink.old) }
{
    for byte in bytes {
        put_text(sink, digits_of(*byte).as_slice())?;
    }
    Ok(())
}

/// Prints bytes as characters in quotation marks.
fn put_characters<W: Sink>(sink: &mut W, bytes: &[u8]) -> Result<(), RecordFault>
    ensures text { OnOk result (Took (W.taken sink.old) (W.taken sink.new)
        (AreQuoted bytes.now)) }
    ensures kind { IfErr result (λ fault. is_write_fault fault ≡ true) }
    ensures cause { W.failures sink.new ≡ counted (is_err result) (W.failures sink.old) }
{
    put_text(sink, b"\"")?;
    put_shown(sink, bytes)?;
    put_text(sink, b"\"")
}

/// Prints bytes that represent no number: a question mark and their hexadecimal digits.
fn put_unknown<W: Sink>(sink: &mut W, bytes: &[u8]) -> Result<(), RecordFault>
    ensures text { OnOk result (Took (W.taken sink.old) (W.taken sink.new)
        (AreUnknown bytes.now)) }
    ensures kind { IfErr result (λ fault. is_write_fault fault ≡ true) }
    ensures cause { W.failures sink.new ≡ counted (is_err result) (W.failures sink.old) }
{
    put_text(sink, b"?")?;
    put_digits(sink, bytes)
}

/// Prints the value of a number item.
fn put_number<W: Sink>(sink: &mut W, item: &Item, bytes: &[u8]) -> Result<(), RecordFault>
    requires number { IsNumberItem item.now }
    requires long { length bytes.now ≡ item_size item.now }
    ensures text { OnOk result (Took (W.taken sink.old) (W.taken sink.new) (IsNumberValue item.now bytes.now)) }
    ensures kind { IfErr result (λ fault. is_write_fault fault ≡ true) }
    ensures cause { W.failures sink.new ≡ counted (is_err result) (W.failures sink.old) }
{
    match number_text(item, bytes) {
        Some(text) => put_text(sink, text.as_slice()),
        None => put_unknown(sink, bytes),
    }
}

/// Prints the value of an item.
pub(crate) fn put_value<W: Sink>(sink: &mut W, item: &Item, bytes: &[u8]) -> Result<(), RecordFault>
    requires long { length bytes.now ≡ item_size item.now }
    ensures text { OnOk result (Took (W.taken sink.old) (W.taken sink.new) (IsValueShown item.now bytes.now)) }
    ensures kind { IfErr result (λ fault. is_write_fault fault ≡ true) }
    ensures cause { W.failures sink.new ≡ counted (is_err result) (W.failures sink.old) }
{
    if is_number_item(item) {
        put_number(sink, item, bytes)
    } else {
        put_characters(sink, bytes)
    }
}

/// What stands of an element before its values: its name with its subscripts, and its offset on the left.
fn place_of(name: &[u8], subscripts: &[u32], offset: u32) -> ListingLine
    requires name { length name.now ≤ longest_name }
    requires many { length subscripts.now ≤ most_dimensions }
    ensures text { result.items ≡ place_text name.now subscripts.now offset }
    ensures some { 0 < length result.items }
{
    let mut line = ArrayVec::new();
    let mut buffer = Buffer::new();
    push_text(&mut line, name);
    push_subscripts(&mut line, subscripts);
    line.push(b' ');
    push_text(&mut line, buffer.format(offset).as_bytes());
    push_text(&mut line, b": ");
    line
}

/// Prints both values of an element of an item, with a bar between them, and ends their line.
fn put_values<W: Sink>(
    sink: &mut W,
    item: &Item,
    left: &[u8],
    right: &[u8],
) -> Result<(), RecordFault>
    requires left { length left.now ≡ item_size item.now }
    requires right { length right.now ≡ item_size item.now }
    ensures text { OnOk result (Took (W.taken sink.old) (W.taken sink.new)
        (AreValuesShown item.now left.now right.now)) }
    ensures kind { IfErr result (λ fault. is_write_fault fault ≡ true) }
    ensures cause { W.failures sink.new ≡ counted (is_err result) (W.failures sink.old) }
{
    put_value(sink, item, left)?;
    put_text(sink, b" | ")?;
    put_value(sink, item, right)?;
    put_text(sink, b"\n")
}

/// Prints the line of an element of this item that differs.
fn put_element<W: Sink>(
    sink: &mut W,
    left: &[u8],
    right: &[u8],
    item: &ListedItem,
    difference: &Difference,
) -> Result<(), RecordFault>
    requires item { (plain_difference difference.now).item ≡ Some (named_item item.now) }
    requires some { IsPrintable left.now right.now (plain_difference difference.now) }
    ensures text { OnOk result (Took (W.taken sink.old) (W.taken sink.new)
        (IsDifferenceLine left.now right.now (plain_difference difference.now))) }
    ensures kind { IfErr result (λ fault. is_write_fault fault ≡ true) }
    ensures cause { W.failures sink.new ≡ counted (is_err result) (W.failures sink.old) }
{
    let place = place_of(
        item.name.as_bytes(),
        difference.subscripts.as_slice(),
        difference.left.offset,
    );
    put_text(sink, b"  ")?;
    put_text(sink, place.as_slice())?;
    put_values(
        sink,
        &item.item,
        field(left, difference.left),
        field(right, difference.right),
    )
}

/// Prints the line of an element that differs.
fn put_difference<W: Sink>(
    sink: &mut W,
    left: &[u8],
    right: &[u8],
    difference: &Difference,
) -> Result<(), RecordFault>
    requires { IsPrintable left.now right.now (plain_difference difference.now) }
    ensures text { OnOk result (Took (W.taken sink.old) (W.taken sink.new)
        (IsDifferenceLine left.now right.now (plain_difference difference.now))) }
    ensures kind { IfErr result (λ fault. is_write_fault fault ≡ true) }
    ensures cause { W.failures sink.new ≡ counted (is_err result) (W.failures sink.old) }
{
    match difference.item {
        Some(item) => put_element(sink, left, right, item, difference),
        None => unreachable!(),
    }
}

/// Prints the lines of elements that differ.
fn put_differences<W: Sink>(
    sink: &mut W,
    left: &[u8],
    right: &[u8],
    differences: &[Difference],
) -> Result<(), RecordFault>
    requires { ArePrintable left.now right.now (map plain_difference differences.now) }
    ensures text { OnOk result (Took (W.taken sink.old) (W.taken sink.new)
        (AreDifferenceLines left.now right.now (map plain_difference differences.now))) }
    ensures kind { IfErr result (λ fault. is_write_fault fault ≡ true) }
    ensures cause { W.failures sink.new ≡ counted (is_err result) (W.failures sink.old) }
{
    for difference in differences {
        put_difference(sink, left, right, difference)?;
    }
    Ok(())
}

/// Adds the lengths of two records to a line, where they have not one length.
fn push_lengths(line: &mut ListingLine, left: usize, right: usize)
    requires room { length line.old.items + 60 ≤ 256 }
    ensures text { line.new.items ≡ line.old.items ++ lengths_text left right }
    ensures long { length line.new.items ≤ length line.old.items + 60 }
{
    if left == right {
        return;
    }
    let mut buffer = Buffer::new();
    push_text(line, b": length ");
    push_text(line, buffer.format(left as u64).as_bytes());
    push_text(line, b" | ");
    push_text(line, buffer.format(right as u64).as_bytes());
}

/// Ends the line before the differences of two records of these lengths.
fn put_header_end<W: Sink>(sink: &mut W, left: usize, right: usize) -> Result<(), RecordFault>
    ensures text { OnOk result (Took (W.taken sink.old) (W.taken sink.new)
        (λ part. part ≡ header_end left right)) }
    ensures kind { IfErr result (λ fault. is_write_fault fault ≡ true) }
    ensures cause { W.failures sink.new ≡ counted (is_err result) (W.failures sink.old) }
{
    let mut line = ListingLine::new();
    push_lengths(&mut line, left, right);
    line.push(b'\n');
    put_text(sink, line.as_slice())
}

/// Prints how many differences of two records are not told, where there are such.
fn put_more<W: Sink>(sink: &mut W, more: u64) -> Result<(), RecordFault>
    ensures text { OnOk result (Took (W.taken sink.old) (W.taken sink.new)
        (λ part. part ≡ more_line more)) }
    ensures kind { IfErr result (λ fault. is_write_fault fault ≡ true) }
    ensures cause { W.failures sink.new ≡ counted (is_err result) (W.failures sink.old) }
{
    if more == 0 {
        return Ok(());
    }
    let mut buffer = Buffer::new();
    let mut line = ListingLine::new();
    push_text(&mut line, b"  and ");
    push_text(&mut line, buffer.format(more).as_bytes());
    push_text(&mut line, b" more\n");
    put_text(sink, line.as_slice())
}

/// The line of a byte that differs.
fn line_of_byte(byte: ByteDifference) -> ListingLine
    ensures text { result.items ≡ byte_line byte }
    ensures some { 0 < length result.items }
{
    let mut buffer = Buffer::new();
    let mut line = ListingLine::new();
    push_text(&mut line, b"  byte ");
    push_text(&mut line, buffer.format(byte.offset as u64).as_bytes());
    push_text(&mut line, b": ");
    push_text(&mut line, digits_of(byte.left).as_slice());
    push_text(&mut line, b" | ");
    push_text(&mut line, digits_of(byte.right).as_slice());
    line.push(b'\n');
    line
}

/// Prints the lines of bytes that differ.
fn put_bytes<W: Sink>(sink: &mut W, bytes: &[ByteDifference]) -> Result<(), RecordFault>
    ensures text { OnOk result (Took (W.taken sink.old) (W.taken sink.new)
        (λ part. part ≡ flat_map byte_line bytes.now)) }
    ensures kind { IfErr result (λ fault. is_write_fault fault ≡ true) }
    ensures cause { W.failures sink.new ≡ counted (is_err result) (W.failures sink.old) }
{
    for byte in bytes {
        put_text(sink, line_of_byte(*byte).as_slice())?;
    }
    Ok(())
}

/// Prints the lines behind the heading of two records that are not equal by value.
fn put_elements<W: Sink>(
    sink: &mut W,
    left: &[u8],
    right: &[u8],
    told: &FirstDifferences,
) -> Result<(), RecordFault>
    requires { ArePrintable left.now right.now (map plain_difference told.now.first.items) }
    ensures text { OnOk result (Took (W.taken sink.old) (W.taken sink.new)
        (AreComparedElementLines left.now right.now told.now)) }
    ensures kind { IfErr result (λ fault. is_write_fault fault ≡ true) }
    ensures cause { W.failures sink.new ≡ counted (is_err result) (W.failures sink.old) }
{
    let differences = told.first.as_slice();
    put_header_end(sink, left.len(), right.len())?;
    put_differences(sink, left, right, differences)?;
    put_more(sink, told.count.saturating_sub(differences.len() as u64))
}

/// Prints the lines behind the heading of two records that have not the same bytes.
fn put_unlike<W: Sink>(
    sink: &mut W,
    left: &[u8],
    right: &[u8],
    told: &FirstBytes,
) -> Result<(), RecordFault>
    ensures text { OnOk result (Took (W.taken sink.old) (W.taken sink.new)
        (λ part. part ≡ unlike_lines left.now right.now told.now)) }
    ensures kind { IfErr result (λ fault. is_write_fault fault ≡ true) }
    ensures cause { W.failures sink.new ≡ counted (is_err result) (W.failures sink.old) }
{
    let bytes = told.first.as_slice();
    put_header_end(sink, left.len(), right.len())?;
    put_bytes(sink, bytes)?;
    put_more(sink, told.count.saturating_sub(bytes.len()) as u64)
}

/// Prints the lines of two records that are not equal by value.
fn put_differing<W: Sink>(
    sink: &mut W,
    heading: &Heading,
    left: &[u8],
    right: &[u8],
    told: &FirstDifferences,
) -> Result<(), RecordFault>
    requires heading { IsPlainHeading heading.now }
    requires told { ArePrintable left.now right.now (map plain_difference told.now.first.items) }
    ensures text { OnOk result (Took (W.taken sink.old) (W.taken sink.new)
        (IsHeaded (heading_text heading.now) (AreComparedElementLines left.now right.now told.now))) }
    ensures kind { IfErr result (λ fault. is_write_fault fault ≡ true) }
    ensures cause { W.failures sink.new ≡ counted (is_err result) (W.failures sink.old) }
{
    put_heading(sink, heading)?;
    put_elements(sink, left, right, told)
}

/// Prints the lines of two records that have not the same bytes.
fn put_unequal<W: Sink>(
    sink: &mut W,
    heading: &Heading,
    left: &[u8],
    right: &[u8],
    told: &FirstBytes,
) -> Result<(), RecordFault>
    requires heading { IsPlainHeading heading.now }
    ensures text { OnOk result (Took (W.taken sink.old) (W.taken sink.new)
        (IsHeaded (heading_text heading.now) (λ rest. rest ≡ unlike_lines left.now right.now told.now))) }
    ensures kind { IfErr result (λ fault. is_write_fault fault ≡ true) }
    ensures cause { W.failures sink.new ≡ counted (is_err result) (W.failures sink.old) }
{
    put_heading(sink, heading)?;
    put_unlike(sink, left, right, told)
}

/// Prints the lines of two records that were compared: none where they are equal.
fn put_comparison<W: Sink>(
    sink: &mut W,
    heading: &Heading,
    left: &[u8],
    right: &[u8],
    comparison: &Comparison,
) -> Result<(), RecordFault>
    requires heading { IsPlainHeading heading.now }
    requires tells { IsTellable left.now right.now comparison.now }
    ensures text { OnOk result (Took (W.taken sink.old) (W.taken sink.new)
        (AreComparedRecordLines (heading_text heading.now) left.now right.now comparison.now)) }
    ensures kind { IfErr result (λ fault. is_write_fault fault ≡ true) }
    ensures cause { W.failures sink.new ≡ counted (is_err result) (W.failures sink.old) }
{
    match comparison {
        Comparison::Same => Ok(()),
        Comparison::Equal => Ok(()),
        Comparison::Differ(told) => put_differing(sink, heading, left, right, told),
        Comparison::Unlike(told) => put_unequal(sink, heading, left, right, told),
    }
}

/// Prints the end of the line of a record that stands alone.
fn put_alone_end<W: Sink>(sink: &mut W, side: FileSide) -> Result<(), RecordFault>
    ensures text { OnOk result (Took (W.taken sink.old) (W.taken sink.new)
        (λ part. part ≡ alone_end side)) }
    ensures kind { IfErr result (λ fault. is_write_fault fault ≡ true) }
    ensures cause { W.failures sink.new ≡ counted (is_err result) (W.failures sink.old) }
{
    match side {
        FileSide::Left => put_text(sink, b": left alone\n"),
        FileSide::Right => put_text(sink, b": right alone\n"),
    }
}

/// Prints the line of a record that stands alone.
fn put_alone<W: Sink>(sink: &mut W, heading: &Heading, side: FileSide) -> Result<(), RecordFault>
    requires heading { IsPlainHeading heading.now }
    ensures text { OnOk result (Took (W.taken sink.old) (W.taken sink.new)
        (IsAloneLine side (heading_text heading.now))) }
    ensures kind { IfErr result (λ fault. is_write_fault fault ≡ true) }
    ensures cause { W.failures sink.new ≡ counted (is_err result) (W.failures sink.old) }
{
    put_heading(sink, heading)?;
    put_alone_end(sink, side)
}

/// Prints the lines of two records that were compared, where fewer were told before than at most.
pub(crate) fn tell_comparison<W: Sink>(
    sink: &mut W,
    most: u64,
    told: u64,
    heading: &Heading,
    left: &[u8],
    right: &[u8],
    comparison: &Comparison,
) -> Result<(), RecordFault>
    requires heading { IsPlainHeading heading.now }
    requires tells { IsTellable left.now right.now comparison.now }
    ensures text { OnOk result (Took (W.taken sink.old) (W.taken sink.new)
        (IfTold most told (AreComparedRecordLines (heading_text heading.now) left.now right.now comparison.now))) }
    ensures kind { IfErr result (λ fault. is_write_fault fault ≡ true) }
    ensures cause { W.failures sink.new ≡ counted (is_err result) (W.failures sink.old) }
{
    if told < most {
        put_comparison(sink, heading, left, right, comparison)
    } else {
        Ok(())
    }
}

/// Prints the line of a record that stands alone, where fewer were told before than at most.
pub(crate) fn tell_alone<W: Sink>(
    sink: &mut W,
    most: u64,
    told: u64,
    heading: &Heading,
    side: FileSide,
) -> Result<(), RecordFault>
    requires heading { IsPlainHeading heading.now }
    ensures text { OnOk result (Took (W.taken sink.old) (W.taken sink.new)
        (IfTold most told (IsAloneLine side (heading_text heading.now)))) }
    ensures kind { IfErr result (λ fault. is_write_fault fault ≡ true) }
    ensures cause { W.failures sink.new ≡ counted (is_err result) (W.failures sink.old) }
{
    if told < most {
        put_alone(sink, heading, side)
    } else {
        Ok(())
    }
}

/// Adds words and a number.
fn push_count(line: &mut ListingLine, words: &[u8], number: u64)
    requires room { length line.old.items + length words.now + 20 ≤ 256 }
    ensures text { line.new.items ≡ line.old.items ++ (words.now ++ decimal number) }
    ensures long { length line.new.items ≤ length line.old.items + length words.now + 20 }
{
    let mut buffer = Buffer::new();
    push_text(line, words);
    push_text(line, buffer.format(number).as_bytes());
}

/// Prints the line with the counts.
pub(crate) fn put_counts<W: Sink>(sink: &mut W, counts: PairCounts) -> Result<(), RecordFault>
    requires left { lefts_counted counts ≤ most_shown }
    requires right { rights_counted counts ≤ most_shown }
    ensures text { OnOk result (Took (W.taken sink.old) (W.taken sink.new)
        (λ part. part ≡ counts_line counts)) }
    ensures kind { IfErr result (λ fault. is_write_fault fault ≡ true) }
    ensures cause { W.failures sink.new ≡ counted (is_err result) (W.failures sink.old) }
{
    let pairs = counts.same + counts.equal + counts.differ;
    let mut line = ListingLine::new();
    push_count(&mut line, b"left ", pairs + counts.left_alone);
    push_count(&mut line, b" right ", pairs + counts.right_alone);
    push_count(&mut line, b": equal ", counts.same + counts.equal);
    push_count(&mut line, b", of which ", counts.equal);
    push_count(&mut line, b" not byte for byte; differ ", counts.differ);
    push_count(&mut line, b"; left alone ", counts.left_alone);
    push_count(&mut line, b"; right alone ", counts.right_alone);
    line.push(b'\n');
    put_text(sink, line.as_slice())
}
