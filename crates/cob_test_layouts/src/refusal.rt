//! Why a row's question isn't answered as it is asked.

use cob_layout_places::CountFault;
use cob_test_rows::RowFault;
use std::alloc::AllocError;

/// Why a row's question isn't answered as it is asked.
pub(crate) enum Refusal {
    /// The row has no answer.
    Row(RowFault),
    /// A count that it asks for isn't valid, which is then the answer.
    Count(CountFault),
}

impl From<RowFault> for Refusal {
    fn from(fault: RowFault) -> Refusal {
        Refusal::Row(fault)
    }
}

impl From<AllocError> for Refusal {
    fn from(_e: AllocError) -> Refusal {
        Refusal::Row(RowFault::Memory)
    }
}

impl From<CountFault> for Refusal {
    fn from(fault: CountFault) -> Refusal {
        Refusal::Count(fault)
    }
}
