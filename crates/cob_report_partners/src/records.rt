//! The entries of both records.

ghost use Rattle.std.specs.Prelude.{◌≡◌, ◌<◌, length, map, slice_get, IfOk, IfSome};
ghost use Rattle.cob_copybook_names.specs.Listed.{texts};
ghost use Rattle.cob_move_data.specs.declared.operands.Side.TheVariants.{In, Out};
ghost use Rattle.cob_report_partners.specs.Entries.{listed_bearer, record_entries};
ghost use Rattle.cob_report_partners.specs.Groups.{AreGroups, listed_shared, noted_above, shared_above};

use crate::entries::{DraftBearer, entries_of};
use crate::groups::{GroupNames, names_there};
use crate::names::below_record;
use cob_layout::Layout;
use cob_move_data::Side;
use std::alloc::{AllocError, Global};

/// The entries of both records, and what is found out of them once.
#[derive(Drop)]
pub struct BothRecords<'a> {
    inputs: Vec<DraftBearer<'a>>,
    outputs: Vec<DraftBearer<'a>>,
    /// The names of the groups below the input record.
    pub(crate) groups: GroupNames<'a>,
    /// For each entry of the input record those names of the groups above it, its record left out, that groups of the output record have.
    shared: Vec<Vec<&'a [u8]>>,

    ghost sized: { length shared.items ≡ length inputs.items },
    ghost grouped: { AreGroups (map listed_bearer inputs.items) groups },
    ghost sharing: { map (λ names. texts names.items) shared.items ≡ map (shared_above (map listed_bearer outputs.items)) (map listed_bearer inputs.items) },
}

/// The entries of a record.
fn listed<'a>(
    alloc: Global,
    side: Side,
    layout: &'a Layout,
) -> Result<Vec<DraftBearer<'a>>, AllocError>
    ensures { IfOk result (λ entries. map listed_bearer entries.items
        ≡ record_entries side layout.now) }
{
    let mut entries = Vec::new(alloc);
    entries_of(alloc, side, layout, &mut entries)?;
    Ok(entries)
}

/// For each of these entries those names of the groups above it, its record left out, that are among these.
fn shared_names<'a>(
    alloc: Global,
    groups: &GroupNames<'_>,
    entries: &[DraftBearer<'a>],
) -> Result<Vec<Vec<&'a [u8]>>, AllocError>
    ensures { IfOk result (λ shared. map (λ names. texts names.items) shared.items
        ≡ noted_above groups.now (map listed_bearer entries.now)) }
{
    let mut shared = Vec::new(alloc);
    for entry in entries {
        shared.push(names_there(alloc, groups, below_record(entry.above.as_slice()))?)?;
    }
    Ok(shared)
}

impl<'a> BothRecords<'a> {
    /// The entries of the records of two layouts.
    ///
    /// # Errors
    ///
    /// Where no memory is left.
    pub fn of(
        alloc: Global,
        input: &'a Layout,
        output: &'a Layout,
    ) -> Result<BothRecords<'a>, AllocError>
        ensures inputs { IfOk result (λ r. map listed_bearer r.inputs.items
            ≡ record_entries In input.now) }
        ensures outputs { IfOk result (λ r. map listed_bearer r.outputs.items
            ≡ record_entries Out output.now) }
    {
        let inputs = listed(alloc, Side::In, input)?;
        let outputs = listed(alloc, Side::Out, output)?;
        BothRecords::joined(alloc, inputs, outputs)
    }

    /// These entries of both records, and what is found out of them.
    ///
    /// # Errors
    ///
    /// Where no memory is left.
    pub(crate) fn joined(
        alloc: Global,
        inputs: Vec<DraftBearer<'a>>,
        outputs: Vec<DraftBearer<'a>>,
    ) -> Result<BothRecords<'a>, AllocError>
        ensures inputs { IfOk result (λ r. r.inputs.items ≡ inputs.entry.items) }
        ensures outputs { IfOk result (λ r. r.outputs.items ≡ outputs.entry.items) }
    {
        let groups = GroupNames::of(alloc, inputs.as_slice())?;
        let output_groups = GroupNames::of(alloc, outputs.as_slice())?;
        let shared = shared_names(alloc, &output_groups, inputs.as_slice())?;
        Ok(BothRecords {
            inputs,
            outputs,
            groups,
            shared,
        })
    }

    /// The entries of the input record, a parent before its children.
    pub fn inputs(&self) -> &[DraftBearer<'a>]
        ensures { result.now ≡ self.now.inputs.items }
    {
        self.inputs.as_slice()
    }

    /// The entries of the output record, a parent before its children.
    pub fn outputs(&self) -> &[DraftBearer<'a>]
        ensures { result.now ≡ self.now.outputs.items }
    {
        self.outputs.as_slice()
    }

    /// Of the names of the groups above the entry of the input record at this place, its record left out, those that groups of the output record have.
    pub(crate) fn shared_above(&self, place: usize) -> &[&'a [u8]]
        requires there { place < length self.now.inputs.items }
        ensures { IfSome (slice_get self.now.inputs.items place)
            (λ from. texts result.now ≡ listed_shared self.now.outputs.items from) }
    {
        self.shared[place].as_slice()
    }
}
