//! What was found of the groups of two records.

ghost use Rattle.std.specs.Prelude.{◌≡◌};

use crate::listed_groups::ListedGroups;
use crate::sending::SendingRecord;
use cob_layout_places::Node;

/// The pairs below the groups of two records. Those of two groups are found once, and what is below a group is listed once.
#[derive(Drop)]
pub struct Correspondences<'a> {
    /// The input record.
    pub input: &'a Node,
    /// The output record.
    pub output: &'a Node,
    pub(crate) from_input: SendingRecord<'a>,
    pub(crate) from_output: SendingRecord<'a>,
    pub(crate) receivers: ListedGroups<'a>,

    ghost input_sends: { from_input.groups.top ≡ input },
    ghost input_to_output: { from_input.receiving ≡ output },
    ghost output_sends: { from_output.groups.top ≡ output },
    ghost output_to_output: { from_output.receiving ≡ output },
    ghost output_receives: { receivers.top ≡ output },
}
