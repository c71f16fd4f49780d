/// Why a name with its qualifiers names no entry alone.
#[derive(Clone, Copy, PartialEq, Eq)]
pub enum NameFault {
    /// No entry has the name with these qualifiers.
    Unknown,
    /// Several entries have it.
    Ambiguous,
}
