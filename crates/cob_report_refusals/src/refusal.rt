use crate::spots::Spot;
use cob_copybook_entry::BookFault;
use cob_move_statements::MoveFault;

/// Why a text is refused: a rule that it breaks.
#[derive(Clone, Copy)]
pub struct Refusal {
    /// The rule, and the line that is told: that of the entry's first word.
    pub fault: BookFault,
    /// How many of the text's words stand before the entry that breaks it, where one does by itself, and is found.
    pub from: Option<usize>,
}

/// Why a paragraph is refused: a rule that it breaks.
#[derive(Clone, Copy)]
pub struct MoveRefusal {
    /// The rule, and the line that is told.
    pub fault: MoveFault,
    /// Where the first word of the statement stands that breaks it, where one does by itself.
    pub at: Option<Spot>,
}
