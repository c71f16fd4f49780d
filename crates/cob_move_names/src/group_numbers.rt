//! Two groups by their numbers.

/// The numbers of a sending group and of a receiving one.
#[derive(Clone, Copy, PartialEq, Eq, Hash)]
pub(crate) struct GroupNumbers {
    pub from: usize,
    pub to: usize,
}
