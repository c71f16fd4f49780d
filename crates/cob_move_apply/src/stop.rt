use cob_move_data::Side;

/// Why the moves stop at a record.
#[derive(Clone, Copy, PartialEq, Eq)]
pub enum StopCause {
    /// The sender's bytes represent no value, and the receiver asks for one.
    NoValue,
    /// A count that is needed gives no number within its table's bounds, or ends past the bytes.
    Count,
    /// A subscript is past its table's count.
    Subscript,
}

/// Where and why the moves stop at a record: the record, and the offset of the bytes in it.
#[derive(Clone, Copy, PartialEq, Eq)]
pub struct Stop {
    pub side: Side,
    pub offset: u32,
    pub cause: StopCause,
}
