/// What a record description describes: it names the record of a text that doesn't begin with level 01.
#[derive(Clone, Copy, PartialEq, Eq)]
pub enum Role {
    /// The input record, IN-RECORD.
    In,
    /// The output record, OUT-RECORD.
    Out,
}
