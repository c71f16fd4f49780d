//! Tables of items that can be drawn.

/// An item that can be drawn.
#[derive(Clone, Copy)]
pub(crate) struct ItemRow<'a> {
    /// The clauses of the sender.
    pub(crate) clauses: &'a str,
    /// The half bytes of its value: a hexadecimal digit as it is, or a small letter for one that is drawn.
    pub(crate) halves: &'a str,
    /// The clauses of its receivers, with bars between them.
    pub(crate) receivers: &'a str,
}

/// The texts of the tables of items, and of items that are counts: a line for each item.
#[derive(Clone, Copy)]
pub(crate) struct Tables<'a> {
    pub(crate) items: &'a str,
    pub(crate) counts: &'a str,
}

/// The item of a line: three fields, parted by tabs.
pub(crate) fn row_of(line: &str) -> ItemRow<'_> {
    let (clauses, behind) = line.split_once('\t').unwrap_or((line, ""));
    let (halves, receivers) = behind.split_once('\t').unwrap_or((behind, ""));
    ItemRow {
        clauses,
        halves,
        receivers,
    }
}
