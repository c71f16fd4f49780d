//! The bytes of input records.

ghost use Rattle.std.specs.Prelude.{◌<◌, ◌≤◌, length};

use crate::draw::Draw;
use crate::entries::{Entry, Shape, Times};
use crate::rows::ItemRow;
use cob_records::Form;
use std::alloc::{AllocError, Global};

/// A half byte of a value: `d` is a digit, `n` one from 1 on, `s` a sign, `t` half a sign in a byte of its own, `x` any, and `c` the count.
fn half_byte(draw: &mut Draw, symbol: u8, count: u8) -> u8
    ensures { result < 16 }
{
    match symbol {
        b'd' => draw.below(10) as u8,
        b'n' => 1 + draw.below(9) as u8,
        b's' => 12 + draw.below(2) as u8,
        b't' => 4 + 2 * draw.below(2) as u8,
        b'x' => draw.below(16) as u8,
        b'0'..=b'9' => symbol - b'0',
        b'A'..=b'F' => symbol - b'A' + 10,
        _ => count % 16,
    }
}

/// Writes the bytes of a value.
fn push_value(
    draw: &mut Draw,
    row: ItemRow<'_>,
    count: u8,
    content: &mut Vec<u8>,
) -> Result<(), AllocError> {
    let halves = row.halves.as_bytes();
    for byte in 0..halves.len() / 2 {
        let high = half_byte(draw, halves[2 * byte], count);
        let low = half_byte(draw, halves[2 * byte + 1], count);
        content.push(16 * high + low)?;
    }
    Ok(())
}

/// Draws the count of this number.
fn draw_count(draw: &mut Draw, counts: &mut [u8], number: u64) -> u8 {
    let count = 1 + draw.below(3) as u8;
    if let Some(own) = counts.get_mut(number as usize) {
        *own = count;
    }
    count
}

/// Writes what an element of an entry itself holds; a count is drawn.
fn push_own(
    draw: &mut Draw,
    entry: &Entry<'_>,
    counts: &mut [u8],
    content: &mut Vec<u8>,
) -> Result<(), AllocError> {
    match entry.shape {
        Shape::Item(row) => push_value(draw, row, 0, content),
        Shape::Count(row) => {
            let count = draw_count(draw, counts, entry.number);
            push_value(draw, row, count, content)
        }
        Shape::Redefinition(_, _) | Shape::Group => Ok(()),
    }
}

/// How many elements an entry has under the counts that were drawn.
fn elements(entry: &Entry<'_>, counts: &[u8]) -> u64 {
    match entry.times {
        Times::Once => 1,
        Times::Fixed(most) => most,
        Times::Varies(table) => match counts.get(table.count as usize) {
            Some(count) => u64::from(*count),
            None => 0,
        },
    }
}

/// How many of the entries behind one stand beneath it.
fn beneath(entry: &Entry<'_>, behind: &[Entry<'_>]) -> usize
    ensures { result ≤ length behind.now }
{
    for place in 0..behind.len() {
        if behind[place].depth <= entry.depth {
            return place;
        }
    }
    behind.len()
}

/// Writes the elements of entries; the counts are drawn where their items stand.
fn push_elements(
    draw: &mut Draw,
    entries: &[Entry<'_>],
    counts: &mut [u8],
    content: &mut Vec<u8>,
) -> Result<(), AllocError> {
    let Some((entry, behind)) = entries.split_first() else {
        return Ok(());
    };
    let (beneath, others) = behind.split_at(beneath(entry, behind));
    for _ in 0..elements(entry, counts) {
        push_own(draw, entry, counts, content)?;
        push_elements(draw, beneath, counts, content)?;
    }
    push_elements(draw, others, counts, content)
}

/// How many elements a table has at most.
fn most_elements(times: Times) -> u64 {
    match times {
        Times::Once => 1,
        Times::Fixed(most) => most,
        Times::Varies(table) => table.most,
    }
}

/// How many bytes all elements of an entry have by themselves, where each table has its greatest number.
fn greatest_size(entry: &Entry<'_>) -> u64 {
    let mut size = match entry.shape {
        Shape::Item(row) | Shape::Count(row) => row.halves.len() as u64 / 2,
        Shape::Redefinition(_, _) | Shape::Group => 0,
    };
    for times in entry.tables.iter() {
        size = size.saturating_mul(most_elements(*times));
    }
    size
}

/// How many bytes entries have where each table has its greatest number of elements.
fn greatest_length(entries: &[Entry<'_>]) -> u64 {
    let mut length: u64 = 0;
    for entry in entries {
        length = length.saturating_add(greatest_size(entry));
    }
    length
}

/// Writes the bytes of one record without its frame.
fn push_content(
    alloc: Global,
    draw: &mut Draw,
    entries: &[Entry<'_>],
    last: u64,
    content: &mut Vec<u8>,
) -> Result<(), AllocError> {
    let mut counts = vec![in alloc; 0u8; (last as usize).saturating_add(1)]?;
    push_elements(draw, entries, &mut counts, content)
}

/// Writes a record in its form: of a fixed length, with spaces up to it, or behind its descriptor.
fn push_framed(
    form: Form,
    content: &[u8],
    greatest: u64,
    data: &mut Vec<u8>,
) -> Result<(), AllocError> {
    if matches!(form, Form::Variable) {
        let length = (content.len() % 32_768) as u16 + 4;
        data.extend_from_slice(&length.to_be_bytes())?;
        data.extend_from_slice(&[0, 0])?;
        data.extend_from_slice(content)
    } else {
        data.extend_from_slice(content)?;
        for _ in content.len() as u64..greatest {
            data.push(0x40)?;
        }
        Ok(())
    }
}

/// Writes one record in its form.
pub(crate) fn push_record(
    alloc: Global,
    draw: &mut Draw,
    entries: &[Entry<'_>],
    last: u64,
    form: Form,
    data: &mut Vec<u8>,
) -> Result<(), AllocError> {
    let mut content = Vec::new(alloc);
    push_content(alloc, draw, entries, last, &mut content)?;
    push_framed(form, content.as_slice(), greatest_length(entries), data)
}
