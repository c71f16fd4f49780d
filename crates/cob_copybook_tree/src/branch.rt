use cob_copybook_entry::Entry;

/// An entry with those beneath it, as they are written.
#[derive(Drop)]
pub struct Branch {
    pub entry: Entry,
    pub children: Vec<Branch>,
}
