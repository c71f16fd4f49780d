//! What an entry as it is written means.

ghost use Rattle.std.specs.Prelude.{◌≡◌, ℕ, ◌⊎◌, List, Option, Some, IfErr, IfOk, IsOkAnd, option_map};
ghost use Rattle.cob_picture.specs.declared.fault.PictureFault.{PictureFault};
ghost use Rattle.cob_picture.specs.Positions.{PlainPicture};
ghost use Rattle.cob_picture.specs.Pictures.{BreaksPictureRule, IsPictureOf};
ghost use Rattle.cob_copybook_clauses.specs.Written.{written_value, written_entry, written_occurs};
ghost use Rattle.cob_copybook_entry.specs.declared.fault.BookRule.TheVariants as rule;
ghost use Rattle.cob_copybook_entry.specs.Described.{PlainValue as Meant, PlainEntry, PlainOccurs, plain_value, plain_entry, plain_occurs};
ghost use Rattle.cob_copybook_entry.specs.Faults.{MemoryAsideRule};
ghost use Rattle.cob_copybook_entries.specs.Meaning.{EntryMeans, IsConstantOf, IsIntegerText, IsNameText, IsOption, IsTimesOf};
ghost use Rattle.cob_copybook_entries.specs.Books.{BreaksEntry, IsNoName};
ghost use Rattle.cob_copybook_entries.specs.Breaks.{IsConstantFault, IsTableFault, OfOption};
ghost use Rattle.cob_copybook_entries.specs.Short.{HasShortCount};

use crate::name::name_of_text;
use crate::number::whole;
use crate::occurs::occurs_of;
use crate::value::value_of;
use cob_copybook_clauses::{OccursClause, ValueClause, Written};
use cob_copybook_entry::{BookRule, Entry, Name, Occurs, Value};
use cob_picture::Picture;
use std::alloc::Global;

/// The most digits of a level.
const MAX_LEVEL_DIGITS: usize = 2;

/// The entry that the texts of a written one mean, of which the first word stands on `line`.
///
/// # Errors
///
/// The first rule that its texts break: that of the level, of the name, of REDEFINES, of the picture, of OCCURS or of VALUE; and
/// `Memory`.
pub(crate) fn entry_of(alloc: Global, line: u32, written: &Written<'_>) -> Result<Entry, BookRule>
    requires { HasShortCount (written_entry written.now).clauses.occurs }
    ensures found { IfOk result (λ e. EntryMeans (written_entry written.now) (plain_entry e)) }
    ensures only { (d : PlainEntry) → EntryMeans (written_entry written.now) d
        → IfOk result (λ e. plain_entry e ≡ d) × IfErr result (λ r. r ≡ rule.Memory) }
    ensures fault { IfErr result
        (λ r. (r ≡ rule.Memory) ⊎ BreaksEntry r (written_entry written.now)) }
{
    let level = level_of(written.level)?;
    let name = name_of(written.name)?;
    let redefines = name_of(written.clauses.redefines)?;
    let picture = picture_of(written.clauses.picture)?;
    let occurs = times_of(alloc, written.clauses.occurs)?;
    let value = constant_of(written.clauses.value)?;
    Ok(Entry {
        line,
        level,
        name,
        redefines,
        picture,
        usage: written.clauses.usage,
        sign: written.clauses.sign,
        occurs,
        value,
        justified: written.clauses.justified,
        blank: written.clauses.blank,
    })
}

/// The level, of one or two digits.
///
/// # Errors
///
/// `Grammar` for another word.
fn level_of(text: &[u8]) -> Result<u8, BookRule>
    ensures found { IfOk result (λ n. IsIntegerText 2 text.now n) }
    ensures only { (n : ℕ) → IsIntegerText 2 text.now n → IsOkAnd result (λ m. m ≡ n) }
    ensures fault { IfErr result (λ r. (r ≡ rule.Grammar) × ((n : ℕ)
        → IsIntegerText 2 text.now n → ⊥)) }
{
    match whole(text, MAX_LEVEL_DIGITS) {
        Some(level) => Ok(level as u8),
        None => Err(BookRule::Grammar),
    }
}

/// The name, where one is written.
///
/// # Errors
///
/// `Name` for a text that is no name.
fn name_of(text: Option<&[u8]>) -> Result<Option<Name>, BookRule>
    ensures found { IfOk result (λ n. IsOption IsNameText (option_map (λ b. b.now) text.entry) n) }
    ensures only { (n : Option (List ℕ))
        → IsOption IsNameText (option_map (λ b. b.now) text.entry) n → IsOkAnd result (λ m. m ≡ n) }
    ensures fault { IfErr result
        (λ r. (r ≡ rule.Name) × IsNoName (option_map (λ b. b.now) text.entry)) }
{
    let Some(text) = text else {
        return Ok(None);
    };
    match name_of_text(text) {
        Some(name) => Ok(Some(name)),
        None => Err(BookRule::Name),
    }
}

/// The picture, where one is written.
///
/// # Errors
///
/// `Picture` with its fault for a text that is no picture.
fn picture_of(text: Option<&[u8]>) -> Result<Option<Picture>, BookRule>
    ensures found { IfOk result (λ p. IsOption IsPictureOf (option_map (λ b. b.now) text.entry) p) }
    ensures only { (p : Option PlainPicture)
        → IsOption IsPictureOf (option_map (λ b. b.now) text.entry) p
        → IsOkAnd result (λ q. q ≡ p) }
    ensures fault { IfErr result (λ r. (f : PictureFault) × (r ≡ rule.Picture f)
        × OfOption (BreaksPictureRule f) (option_map (λ b. b.now) text.entry)) }
{
    let Some(text) = text else {
        return Ok(None);
    };
    match Picture::read(text) {
        Ok(picture) => Ok(Some(picture)),
        Err(fault) => Err(BookRule::Picture(fault)),
    }
}

/// How often the entry occurs, where OCCURS is written.
///
/// # Errors
///
/// As [`occurs_of`].
fn times_of(alloc: Global, table: Option<OccursClause<'_>>) -> Result<Option<Occurs>, BookRule>
    requires { HasShortCount (option_map written_occurs table) }
    ensures found { IfOk result (λ o. IsTimesOf table.entry (option_map plain_occurs o)) }
    ensures only { (t : Option PlainOccurs) → IsTimesOf table.entry t
        → MemoryAsideRule (λ o. option_map plain_occurs o ≡ t) result }
    ensures fault { IfErr result
        (λ r. OfOption (IsTableFault r) (option_map written_occurs table.entry)) }
{
    match table {
        Some(table) => Ok(Some(occurs_of(alloc, &table)?)),
        None => Ok(None),
    }
}

/// The constant, where VALUE is written.
///
/// # Errors
///
/// As [`value_of`].
fn constant_of(written: Option<ValueClause<'_>>) -> Result<Option<Value>, BookRule>
    ensures found { IfOk result (λ v.
        IsOption IsConstantOf (option_map written_value written.entry) (option_map plain_value v)) }
    ensures only { (c : Option Meant)
        → IsOption IsConstantOf (option_map written_value written.entry) c
        → IsOkAnd result (λ v. option_map plain_value v ≡ c) }
    ensures fault { IfErr result
        (λ r. OfOption (IsConstantFault r) (option_map written_value written.entry)) }
{
    match written {
        Some(written) => Ok(Some(value_of(&written)?)),
        None => Ok(None),
    }
}
