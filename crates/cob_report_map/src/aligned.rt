//! Where the boxes of both records stand: partners at one height, wherever the order of both records allows it.

use cob_report_boxes::EntryRow;
use cob_report_html::{SpacedBox, top_behind};
use std::alloc::{AllocError, Global};

/// Of each entry of the output record, by its number, the entry of the input record that is moved to it, if one is.
pub(crate) type Partners = Vec<Option<usize>>;

/// How many partners the longest row of them has that begins with an entry of the output record and ascends in both records, and which entry is next in it.
#[derive(Clone, Copy)]
struct RowOfPartners {
    length: usize,
    next: Option<usize>,
}

/// The partner of this entry of the output record.
fn partner_of(partners: &[Option<usize>], number: usize) -> Option<usize> {
    match partners.get(number) {
        Some(partner) => *partner,
        None => None,
    }
}

/// The longest row of partners that begins with an entry of the output record, whose partner this is; the rows of the entries behind it are known.
fn row_from(
    partners: &[Option<usize>],
    rows: &[RowOfPartners],
    number: usize,
    partner: usize,
) -> RowOfPartners {
    let mut longest = RowOfPartners {
        length: 1,
        next: None,
    };
    for (at, row) in rows.iter().enumerate() {
        let Some(later) = partner_of(partners, at) else {
            continue;
        };
        if at > number && later > partner && row.length >= longest.length {
            longest = RowOfPartners {
                length: row.length.saturating_add(1),
                next: Some(at),
            };
        }
    }
    longest
}

/// Of each entry of the output record the longest row of partners that begins with it.
fn rows_of_partners(
    alloc: Global,
    partners: &[Option<usize>],
) -> Result<Vec<RowOfPartners>, AllocError> {
    let mut rows = Vec::new(alloc);
    for _ in partners {
        rows.push(RowOfPartners {
            length: 0,
            next: None,
        })?;
    }
    for behind in 0..partners.len() {
        let number = partners.len() - 1 - behind;
        if let Some(partner) = partner_of(partners, number) {
            let row = row_from(partners, &rows, number, partner);
            if let Some(place) = rows.get_mut(number) {
                *place = row;
            }
        }
    }
    Ok(rows)
}

/// The entry with which the longest of these rows begins.
fn longest_row(rows: &[RowOfPartners]) -> Option<usize> {
    let mut longest = 0;
    let mut first = None;
    for (at, row) in rows.iter().enumerate() {
        if row.length > longest {
            longest = row.length;
            first = Some(at);
        }
    }
    first
}

/// Boxes of a record as they are placed one below another.
#[derive(Drop)]
struct Column<'a> {
    rows: &'a [EntryRow],
    boxes: Vec<SpacedBox>,
    end: u32,
}

impl Column<'_> {
    /// Places the next box, with so much white above it.
    fn place(&mut self, gap: u32) -> Result<(), AllocError> {
        if let Some(row) = self.rows.get(self.boxes.len()) {
            let height = row.height;
            let top = top_behind(self.end.saturating_add(gap), height);
            self.end = top.saturating_add(height);
            self.boxes.push(SpacedBox { gap, height })?;
        }
        Ok(())
    }

    /// Places the boxes in front of the one of the entry with this number.
    fn place_up_to(&mut self, number: usize) -> Result<(), AllocError> {
        for _ in self.boxes.len()..number {
            self.place(0)?;
        }
        Ok(())
    }

    /// Where the box of the entry with this number begins, if no more white comes above it.
    fn top_of(&self, number: usize) -> u32 {
        let mut end = self.end;
        for (at, row) in self.rows.iter().enumerate() {
            if at >= self.boxes.len() && at <= number {
                let top = top_behind(end, row.height);
                if at == number {
                    return top;
                }
                end = top.saturating_add(row.height);
            }
        }
        end
    }

    /// The entry above whose box white comes, so that the box of this entry comes lower: the outermost group that begins with it, but no group that is
    /// placed already, and not the record.
    fn lead_of(&self, number: usize) -> usize {
        let mut lead = number;
        let mut begins = true;
        for _ in self.boxes.len()..number {
            begins = begins && self.is_group_before(lead);
            if begins {
                lead = lead.saturating_sub(1);
            }
        }
        lead
    }

    /// Whether a group that is not placed, and is not the record, stands right before this entry.
    fn is_group_before(&self, number: usize) -> bool {
        if number < 2 || number <= self.boxes.len() {
            return false;
        }
        match self.rows.get(number - 1) {
            Some(row) => row.is_group,
            None => false,
        }
    }
}

/// Places the boxes of two partners at one height, and all that stand in front of them.
fn place_partners(
    input: &mut Column<'_>,
    output: &mut Column<'_>,
    from: usize,
    to: usize,
) -> Result<(), AllocError> {
    let (first, second) = (input.lead_of(from), output.lead_of(to));
    input.place_up_to(first)?;
    output.place_up_to(second)?;
    let (left, right) = (input.top_of(from), output.top_of(to));
    if left < right {
        input.place(right - left)?;
    } else if right < left {
        output.place(left - right)?;
    }
    input.place_up_to(from.saturating_add(1))?;
    output.place_up_to(to.saturating_add(1))
}

/// The boxes of both records, with what stays white above each.
#[derive(Drop)]
pub(crate) struct AlignedBoxes {
    pub(crate) input: Vec<SpacedBox>,
    pub(crate) output: Vec<SpacedBox>,
}

/// The boxes of both records, whose first ones begin there, so that partners stand at one height: those of the longest row that ascends in both records.
///
/// # Errors
///
/// Where no memory is left.
pub(crate) fn aligned(
    alloc: Global,
    first: u32,
    input: &[EntryRow],
    output: &[EntryRow],
    partners: &[Option<usize>],
) -> Result<AlignedBoxes, AllocError> {
    let rows = rows_of_partners(alloc, partners)?;
    let mut left = Column {
        rows: input,
        boxes: Vec::new(alloc),
        end: first,
    };
    let mut right = Column {
        rows: output,
        boxes: Vec::new(alloc),
        end: first,
    };
    let mut next = longest_row(&rows);
    for _ in partners {
        if let Some(to) = next {
            if let Some(from) = partner_of(partners, to) {
                place_partners(&mut left, &mut right, from, to)?;
            }
            next = match rows.get(to) {
                Some(row) => row.next,
                None => None,
            };
        }
    }
    left.place_up_to(input.len())?;
    right.place_up_to(output.len())?;
    Ok(AlignedBoxes {
        input: left.boxes,
        output: right.boxes,
    })
}
