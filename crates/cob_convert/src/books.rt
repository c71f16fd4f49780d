//! The copybooks of a conversion.

ghost use Rattle.std.specs.Prelude.{◌≡◌, ℕ, List, IfOk, IfErr};
ghost use Rattle.std.specs.Bool.{Decides};
ghost use Rattle.cob_copybook_tree.specs.Forests.{Forest};
ghost use Rattle.cob_copybook_tree.specs.Nodes.{Resolved};
ghost use Rattle.cob_copybook.specs.Books.{IsBookOf, IsBookRefusal, IsMemory};
ghost use Rattle.cob_convert.specs.Means.{IsInRefusal, IsOutRefusal};
ghost use Rattle.cob_copybook.specs.declared.role.Role.TheVariants.{In, Out};
ghost use Rattle.cob_convert.specs.declared.fault.PrepareFault.TheVariants.{Memory};
ghost use Rattle.cob_copybook_conditions.specs.Names.{AreConditionNamesOf, PlainConditionName, plain_condition_names};

use crate::fault::PrepareFault;
use cob_copybook::{Book, BookFault, BookRule, Role};
use cob_copybook_conditions::{ConditionName, condition_names};
use std::alloc::Global;

/// Whether a book is refused for want of memory.
fn is_memory(rule: BookRule) -> bool
    ensures { Decides result (IsMemory rule) }
{
    matches!(rule, BookRule::Memory)
}

/// The refusal of the copybook of the input record.
fn in_refusal(fault: BookFault) -> PrepareFault
    ensures refused { (text : List ℕ)
        → IsBookRefusal In fault.rule fault.line text → IsInRefusal result text }
    ensures memory { IsMemory fault.rule → result ≡ Memory }
{
    if is_memory(fault.rule) {
        PrepareFault::Memory
    } else {
        PrepareFault::InBook(fault)
    }
}

/// The copybook of the input record.
///
/// # Errors
///
/// [`PrepareFault::InBook`], [`PrepareFault::Memory`].
pub fn in_book(alloc: Global, text: &[u8]) -> Result<Book, PrepareFault>
    ensures found { IfOk result (λ b. IsBookOf In text.now b) }
    ensures only { (t : Forest Resolved) → IsBookOf In text.now t
        → IfOk result (λ b. b ≡ t) × IfErr result (λ f. f ≡ Memory) }
    ensures refused { IfErr result (λ f. IsInRefusal f text.now) }
{
    match Book::read(alloc, Role::In, text) {
        Ok(book) => Ok(book),
        Err(fault) => Err(in_refusal(fault)),
    }
}

/// The refusal of the copybook of the output record.
fn out_refusal(fault: BookFault) -> PrepareFault
    ensures refused { (text : List ℕ)
        → IsBookRefusal Out fault.rule fault.line text → IsOutRefusal result text }
    ensures memory { IsMemory fault.rule → result ≡ Memory }
{
    if is_memory(fault.rule) {
        PrepareFault::Memory
    } else {
        PrepareFault::OutBook(fault)
    }
}

/// The copybook of the output record.
///
/// # Errors
///
/// [`PrepareFault::OutBook`], [`PrepareFault::Memory`].
pub fn out_book(alloc: Global, text: &[u8]) -> Result<Book, PrepareFault>
    ensures found { IfOk result (λ b. IsBookOf Out text.now b) }
    ensures only { (t : Forest Resolved) → IsBookOf Out text.now t
        → IfOk result (λ b. b ≡ t) × IfErr result (λ f. f ≡ Memory) }
    ensures refused { IfErr result (λ f. IsOutRefusal f text.now) }
{
    match Book::read(alloc, Role::Out, text) {
        Ok(book) => Ok(book),
        Err(fault) => Err(out_refusal(fault)),
    }
}

/// The condition-names of the copybook of the input record.
///
/// # Errors
///
/// [`PrepareFault::InBook`], [`PrepareFault::Memory`].
pub fn in_names(alloc: Global, text: &[u8]) -> Result<Vec<ConditionName>, PrepareFault>
    ensures found { IfOk result (λ v. AreConditionNamesOf text.now (plain_condition_names v.items)) }
    ensures only { (ns : List PlainConditionName) → AreConditionNamesOf text.now ns
        → IfOk result (λ v. plain_condition_names v.items ≡ ns) × IfErr result (λ f. f ≡ Memory) }
    ensures refused { IfErr result (λ f. IsInRefusal f text.now) }
{
    match condition_names(alloc, text) {
        Ok(names) => Ok(names),
        Err(fault) => Err(in_refusal(fault)),
    }
}

/// The condition-names of the copybook of the output record.
///
/// # Errors
///
/// [`PrepareFault::OutBook`], [`PrepareFault::Memory`].
pub fn out_names(alloc: Global, text: &[u8]) -> Result<Vec<ConditionName>, PrepareFault>
    ensures found { IfOk result (λ v. AreConditionNamesOf text.now (plain_condition_names v.items)) }
    ensures only { (ns : List PlainConditionName) → AreConditionNamesOf text.now ns
        → IfOk result (λ v. plain_condition_names v.items ≡ ns) × IfErr result (λ f. f ≡ Memory) }
    ensures refused { IfErr result (λ f. IsOutRefusal f text.now) }
{
    match condition_names(alloc, text) {
        Ok(names) => Ok(names),
        Err(fault) => Err(out_refusal(fault)),
    }
}
