//! Why a row's question isn't answered as it is asked.

use cob_copybook_entry::BookFault;
use cob_test_rows::RowFault;
use std::alloc::AllocError;

/// Why a row's question isn't answered as it is asked.
pub(crate) enum Refusal {
    /// The row has no answer.
    Row(RowFault),
    /// Its text breaks a rule, which is then the answer.
    Text(BookFault),
}

impl From<RowFault> for Refusal {
    fn from(fault: RowFault) -> Refusal {
        Refusal::Row(fault)
    }
}

impl From<AllocError> for Refusal {
    fn from(_e: AllocError) -> Refusal {
        Refusal::Row(RowFault::Memory)
    }
}

impl From<BookFault> for Refusal {
    fn from(fault: BookFault) -> Refusal {
        Refusal::Text(fault)
    }
}
