//! The condition-names of entries, in rows below those of their entries.

ghost use Rattle.std.specs.Prelude.{map};
ghost use Rattle.std.specs.Fmt.{WritesOnOk};
ghost use Rattle.std.specs.List.{flat_map};
ghost use Rattle.cob_copybook_conditions.specs.Names.{plain_condition_name, plain_condition_names, plain_span};
ghost use Rattle.cob_report_show.specs.Conditions.{span_text};
ghost use Rattle.cob_report_boxes.specs.Conditions.{name_row, name_row_of, name_rows, name_text};
ghost use Rattle.cob_report_boxes.specs.Shown.{shown};

use crate::constants::EscapedConstant;
use crate::texts::write_shown;
use cob_copybook_conditions::{ConditionName, Span};
use std::fmt;

/// Writes a value behind a space, or two with THRU between them.
fn write_span<W: fmt::Write>(f: &mut fmt::Formatter<W>, span: &Span) -> fmt::Result
    ensures { WritesOnOk W.write_str_gives f.old result (shown (span_text (plain_span span.now))) f.new }
{
    match span {
        Span::One(value) => write!(f, " {}", EscapedConstant { value }),
        Span::FromTo(first, last) => write!(
            f,
            " {} THRU {}",
            EscapedConstant { value: first },
            EscapedConstant { value: last }
        ),
    }
}

/// Writes the values of a condition-name.
fn write_spans<W: fmt::Write>(f: &mut fmt::Formatter<W>, spans: &[Span]) -> fmt::Result
    ensures { WritesOnOk W.write_str_gives f.old result
        (shown (flat_map span_text (map plain_span spans.now))) f.new }
{
    for span in spans {
        write_span(f, span)?;
    }
    Ok(())
}

/// Writes a condition-name as a copybook says it: its level, its name and its values.
fn write_name<W: fmt::Write>(f: &mut fmt::Formatter<W>, name: &ConditionName) -> fmt::Result
    ensures { WritesOnOk W.write_str_gives f.old result
        (shown (name_text (plain_condition_name name.now))) f.new }
{
    f.write_str("88 ")?;
    write_shown(f, name.name.as_bytes())?;
    write_spans(f, name.values.as_slice())
}

/// Writes the row of a condition-name. What does not find room in the row is told where the pointer rests on it.
fn write_row<W: fmt::Write>(f: &mut fmt::Formatter<W>, name: &ConditionName) -> fmt::Result
    ensures { WritesOnOk W.write_str_gives f.old result
        (name_row (plain_condition_name name.now)) f.new }
{
    f.write_str("<div class=\"n\" title=\"")?;
    write_name(f, name)?;
    f.write_str("\">")?;
    write_name(f, name)?;
    f.write_str("</div>\n")
}

/// Writes the row of a condition-name where it stands behind the entry with this number.
fn write_row_of<W: fmt::Write>(
    f: &mut fmt::Formatter<W>,
    number: usize,
    name: &ConditionName,
) -> fmt::Result
    ensures { WritesOnOk W.write_str_gives f.old result
        (name_row_of number (plain_condition_name name.now)) f.new }
{
    if name.entry == number {
        return write_row(f, name);
    }
    Ok(())
}

/// The condition-names that stand behind the entry with a number, of those of a copybook. They print as rows, one below another.
#[derive(Clone, Copy)]
pub struct ConditionRows<'a> {
    pub names: &'a [ConditionName],
    pub number: usize,
}

impl fmt::Display for ConditionRows<'_> {
    ghost use Rattle.std.specs.Prelude.{Some};
    ghost use Rattle.cob_copybook_conditions.specs.Names.{plain_condition_names};
    ghost use Rattle.cob_report_boxes.specs.Conditions.{name_rows};

    ghost output = { λ rows. Some (name_rows (plain_condition_names rows.names.now) rows.number) };

    fn fmt<W: fmt::Write>(&self, f: &mut fmt::Formatter<W>) -> fmt::Result {
        write_rows(f, self.names, self.number)
    }
}

/// Writes the rows of the condition-names that stand behind the entry with this number. It looks at each once.
fn write_rows<W: fmt::Write>(
    f: &mut fmt::Formatter<W>,
    names: &[ConditionName],
    number: usize,
) -> fmt::Result
    ensures { WritesOnOk W.write_str_gives f.old result
        (name_rows (plain_condition_names names.now) number) f.new }
{
    for name in names {
        write_row_of(f, number, name)?;
    }
    Ok(())
}
