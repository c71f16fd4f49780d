//! The copybooks of a conversion, with their condition-names.

ghost use Rattle.std.specs.Prelude.{IfErr, IfOk};
ghost use Rattle.cob_copybook_conditions.specs.Names.{AreConditionNamesOf, plain_condition_names};
ghost use Rattle.cob_program_map.specs.Ends.{MayNotMap};

use crate::ends::Unmapped;
use cob_copybook_conditions::{ConditionName, condition_names};
use cob_program_faults::CommandFault;
use std::alloc::Global;

/// The text of a copybook, and its condition-names.
#[derive(Clone, Copy)]
pub(crate) struct NamedBook<'a> {
    pub(crate) text: &'a [u8],
    pub(crate) names: &'a [ConditionName],
}

/// Both copybooks of a conversion.
#[derive(Clone, Copy)]
pub(crate) struct NamedBooks<'a> {
    pub(crate) input: NamedBook<'a>,
    pub(crate) output: NamedBook<'a>,
}

/// The condition-names of a copybook that was read before.
///
/// # Errors
///
/// Want of memory.
pub(crate) fn names_of_book(alloc: Global, text: &[u8]) -> Result<Vec<ConditionName>, Unmapped>
    ensures found { IfOk result (λ v. AreConditionNamesOf text.now (plain_condition_names v.items)) }
    ensures may { IfErr result MayNotMap }
{
    match condition_names(alloc, text) {
        Ok(names) => Ok(names),
        // The text was read before, so that only memory can lack.
        Err(_) => Err(Unmapped::Fault(CommandFault::Memory)),
    }
}
