//! The words that tell what is against a move.

use crate::judge::Objection;
use cob_move_receive::Refusal;
use std::fmt;

impl fmt::Display for Objection {
    fn fmt<W: fmt::Write>(&self, f: &mut fmt::Formatter<W>) -> fmt::Result {
        match self {
            Objection::Tables => write!(f, "They stand in tables that are not as many"),
            Objection::Unnamed => {
                write!(f, "The count of the sender's table has no name of its own")
            }
            Objection::Unmoved => write!(f, "The count of its table is not moved"),
            Objection::Apart => write!(f, "The counts of their tables do not match"),
            Objection::Counts => write!(f, "The table that it counts is not filled"),
            Objection::Refused(Refusal::NotAllowed) => write!(f, "There is no such move"),
            Objection::Refused(Refusal::Literal) => write!(f, "The literal is not as asked"),
            Objection::Refused(Refusal::TooLong) => {
                write!(f, "The sender has more than 31 characters")
            }
            Objection::Loses(losses) => write!(f, "It may lose {losses}"),
            Objection::Description(_) => write!(f, "It moves bytes, and may lose the description"),
        }
    }
}
