//! Who reads a record that came.

/// Who reads a record that came: advice names its options.
#[derive(Clone, Copy, PartialEq, Eq)]
pub enum Reader {
    /// A conversion, whose input it is of.
    Conversion,
    /// A list of the records of one file, or of its pieces.
    List,
}

impl Reader {
    /// The option that says how the records stand in their file.
    pub(crate) fn form_option(self) -> &'static str {
        match self {
            Reader::Conversion => "--in-form",
            Reader::List => "--form",
        }
    }
}
