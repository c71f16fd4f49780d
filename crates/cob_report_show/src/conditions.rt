//! The condition-names of an entry.

ghost use Rattle.std.specs.Prelude.{◌≡◌, ◌≤◌, ◌<◌, ◌+◌, ◌++◌, length, flat_map, map, IfErr, is_err, true};
ghost use Rattle.cob_copybook_conditions.specs.Names.{plain_condition_name, plain_condition_names, plain_span};
ghost use Rattle.cob_copybook_entry.specs.Described.{plain_value};
ghost use Rattle.cob_limits.specs.Limits.{longest_name};
ghost use Rattle.cob_records.specs.Device.{counted, Took};
ghost use Rattle.cob_records.specs.Frame.{is_write_error, is_write_fault};
ghost use Rattle.cob_report_show.specs.Conditions.{name_front, name_line, name_line_of, name_lines, span_text};
ghost use Rattle.cob_report_show.specs.Constants.{constant_text};
ghost use Rattle.cob_report_show.specs.Sent.{SendsText};

use crate::constants::{ConstantText, push_constant, push_part};
use crate::text::{ListingLine, push_text, put};
use arrayvec::ArrayVec;
use cob_copybook_conditions::{ConditionName, Span};
use cob_copybook_entry::Value;
use cob_layout::Name;
use cob_records::{RecordFault, Sink};

/// A word of a line, and a constant behind it.
fn constant_behind(word: &[u8], value: &Value) -> ConstantText
    requires some { 0 < length word.now }
    requires short { length word.now ≤ 6 }
    ensures text { result.items ≡ word.now ++ constant_text (plain_value value.now) }
    ensures some { 0 < length result.items }
{
    let mut text = ArrayVec::new();
    push_part(&mut text, word);
    push_constant(&mut text, value);
    text
}

/// Writes a value behind a space, or two with THRU between them.
fn put_span<W: Sink>(sink: &mut W, sent: &mut u64, span: &Span) -> Result<(), RecordFault>
    ensures lines { Took (W.taken sink.old) (W.taken sink.new)
        (SendsText (span_text (plain_span span.now)) sent.old sent.new result) }
    ensures kind { IfErr result (λ fault. is_write_fault fault ≡ true) }
    ensures cause { W.failures sink.new ≡ counted (is_err result) (W.failures sink.old) }
    ensures errors { W.errors sink.new ≡ counted (is_write_error result) (W.errors sink.old) }
{
    match span {
        Span::One(value) => put(sink, sent, constant_behind(b" ", value).as_slice()),
        Span::FromTo(first, last) => {
            put(sink, sent, constant_behind(b" ", first).as_slice())?;
            put(sink, sent, constant_behind(b" THRU ", last).as_slice())
        }
    }
}

/// Writes the values of a condition-name.
fn put_spans<W: Sink>(sink: &mut W, sent: &mut u64, spans: &[Span]) -> Result<(), RecordFault>
    ensures lines { Took (W.taken sink.old) (W.taken sink.new)
        (SendsText (flat_map span_text (map plain_span spans.now)) sent.old sent.new result) }
    ensures kind { IfErr result (λ fault. is_write_fault fault ≡ true) }
    ensures cause { W.failures sink.new ≡ counted (is_err result) (W.failures sink.old) }
    ensures errors { W.errors sink.new ≡ counted (is_write_error result) (W.errors sink.old) }
{
    for span in spans {
        put_span(sink, sent, span)?;
    }
    Ok(())
}

/// What stands in front of the values of a condition-name.
fn front_of(name: &Name) -> ListingLine
    ensures text { result.items ≡ name_front name.now }
    ensures some { 0 < length result.items }
    ensures long { length result.items ≤ 256 }
{
    let mut line = ArrayVec::new();
    push_text(&mut line, b"  88 ");
    push_text(&mut line, name.as_bytes());
    line.push(b' ');
    line
}

/// Writes the line of a condition-name.
fn put_name<W: Sink>(sink: &mut W, sent: &mut u64, name: &ConditionName) -> Result<(), RecordFault>
    ensures lines { Took (W.taken sink.old) (W.taken sink.new)
        (SendsText (name_line (plain_condition_name name.now)) sent.old sent.new result) }
    ensures kind { IfErr result (λ fault. is_write_fault fault ≡ true) }
    ensures cause { W.failures sink.new ≡ counted (is_err result) (W.failures sink.old) }
    ensures errors { W.errors sink.new ≡ counted (is_write_error result) (W.errors sink.old) }
{
    put(sink, sent, front_of(&name.name).as_slice())?;
    put_spans(sink, sent, name.values.as_slice())?;
    put(sink, sent, b"\n")
}

/// Writes the line of a condition-name where it stands behind the entry with this number.
fn put_name_of<W: Sink>(
    sink: &mut W,
    sent: &mut u64,
    number: usize,
    name: &ConditionName,
) -> Result<(), RecordFault>
    ensures lines { Took (W.taken sink.old) (W.taken sink.new)
        (SendsText (name_line_of number (plain_condition_name name.now)) sent.old sent.new result) }
    ensures kind { IfErr result (λ fault. is_write_fault fault ≡ true) }
    ensures cause { W.failures sink.new ≡ counted (is_err result) (W.failures sink.old) }
    ensures errors { W.errors sink.new ≡ counted (is_write_error result) (W.errors sink.old) }
{
    if name.entry == number {
        return put_name(sink, sent, name);
    }
    Ok(())
}

/// Writes the lines of the condition-names that stand behind the entry with this number. It looks at each once.
pub(crate) fn put_names<W: Sink>(
    sink: &mut W,
    sent: &mut u64,
    names: &[ConditionName],
    number: usize,
) -> Result<(), RecordFault>
    ensures lines { Took (W.taken sink.old) (W.taken sink.new)
        (SendsText (name_lines (plain_condition_names names.now) number) sent.old sent.new result) }
    ensures kind { IfErr result (λ fault. is_write_fault fault ≡ true) }
    ensures cause { W.failures sink.new ≡ counted (is_err result) (W.failures sink.old) }
    ensures errors { W.errors sink.new ≡ counted (is_write_error result) (W.errors sink.old) }
{
    for name in names {
        put_name_of(sink, sent, number, name)?;
    }
    Ok(())
}
