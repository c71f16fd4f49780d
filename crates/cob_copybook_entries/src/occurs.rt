//! How often entries occur.

ghost use Rattle.std.specs.Prelude.{◌≡◌, ℕ, ◌⊎◌, ◌↔◌, Ok, Some, IfErr, IfOk, IfSome, IsFalse, IsSomeAnd, IsTrue, option_map};
ghost use Rattle.cob_source.specs.Tokens.{lexemes};
ghost use Rattle.cob_copybook_clauses.specs.Names.{IsName};
ghost use Rattle.cob_copybook_clauses.specs.Written.{names_behind, written_name, written_occurs};
ghost use Rattle.cob_copybook_entry.specs.declared.fault.BookRule.TheVariants as rule;
ghost use Rattle.cob_copybook_entry.specs.Described.{PlainOccurs, plain_occurs};
ghost use Rattle.cob_copybook_entries.specs.Meaning.{IsLeastOf, IsQualifiedOf, IsRange, AreNumbers, IsOccursOf};
ghost use Rattle.cob_copybook_entries.specs.Books.{BreaksNumber};
ghost use Rattle.cob_copybook_entries.specs.Breaks.{IsNumbersFault, IsTableFault};
ghost use Rattle.cob_copybook_entries.specs.Short.{AreShort, HasShortQualifiers};

use crate::name::name_of_text;
use crate::number::whole;
use cob_copybook_clauses::{Count, OccursClause};
use cob_copybook_entry::{BookRule, Name, Occurs, Qualified};
use cob_decimal::are_digits;
use cob_source::Token;
use std::alloc::{AllocError, Global};

/// The most digits of a number of times.
const MAX_TIMES_DIGITS: usize = 9;

/// What an OCCURS clause means.
///
/// # Errors
///
/// `Grammar` where a word that is no number stands in a number's place, `Table` for numbers out of bounds, `Name` for a count that
/// isn't named, and `Memory`.
pub(crate) fn occurs_of(alloc: Global, table: &OccursClause<'_>) -> Result<Occurs, BookRule>
    requires { HasShortQualifiers (written_occurs table.now).count }
    ensures found { IfOk result (λ o. IsOccursOf (written_occurs table.now) (plain_occurs o)) }
    ensures only { (t : PlainOccurs) → IsOccursOf (written_occurs table.now) t
        → IfOk result (λ o. plain_occurs o ≡ t) × IfErr result (λ r. r ≡ rule.Memory) }
    ensures fault { IfErr result (λ r. IsTableFault r (written_occurs table.now)) }
{
    let (least, most) = numbers_of(table)?;
    match table.count {
        None => Ok(Occurs::Fixed(most)),
        Some(count) => Ok(Occurs::Varying {
            least,
            most,
            count: qualified_of(alloc, &count)?,
        }),
    }
}

/// The least and the greatest number of times. Without a word before TO the least is 1.
///
/// # Errors
///
/// `Grammar` where a word that is no number stands in a number's place, and `Table` for numbers out of bounds.
fn numbers_of(table: &OccursClause<'_>) -> Result<(u32, u32), BookRule>
    ensures found { IfOk result (λ n. AreNumbers (written_occurs table.now) n.0 n.1) }
    ensures only { (least most : ℕ)
        → AreNumbers (written_occurs table.now) least most → result ≡ Ok (least, most) }
    ensures fault { IfErr result (λ r. IsNumbersFault r (written_occurs table.now)) }
{
    if !has_numbers(table) {
        return Err(BookRule::Grammar);
    }
    match bounded_numbers(table) {
        Some(numbers) => Ok(numbers),
        None => Err(BookRule::Table),
    }
}

/// Whether a number stands wherever one has to.
fn has_numbers(table: &OccursClause<'_>) -> bool
    ensures yes { IsTrue result → BreaksNumber (written_occurs table.now) → ⊥ }
    ensures no { IsFalse result → BreaksNumber (written_occurs table.now) }
{
    are_digits(table.most)
        && match table.least {
            Some(least) => are_digits(least),
            None => true,
        }
}

/// The least and the greatest number of times, where they are within their bounds.
fn bounded_numbers(table: &OccursClause<'_>) -> Option<(u32, u32)>
    ensures found { IfSome result (λ n. AreNumbers (written_occurs table.now) n.0 n.1) }
    ensures only { (least most : ℕ) → AreNumbers (written_occurs table.now) least most
        → IsSomeAnd result (λ n. n ≡ (least, most)) }
{
    let least = least_of(table.least)?;
    let most = whole(table.most, MAX_TIMES_DIGITS)?;
    if is_range(table, least, most) {
        Some((least, most))
    } else {
        None
    }
}

/// The number before TO, and 1 where none is written.
fn least_of(least: Option<&[u8]>) -> Option<u32>
    ensures found { IfSome result (λ n. IsLeastOf (option_map (λ b. b.now) least.entry) n) }
    ensures only { (n : ℕ) → IsLeastOf (option_map (λ b. b.now) least.entry) n → result ≡ Some n }
{
    match least {
        Some(least) => whole(least, MAX_TIMES_DIGITS),
        None => Some(1),
    }
}

/// Whether the numbers are within their bounds: of a table that varies the least is below the greatest.
fn is_range(table: &OccursClause<'_>, least: u32, most: u32) -> bool
    ensures { IsTrue result ↔ IsRange (written_occurs table.now).count least most }
{
    match table.count {
        Some(_) => least < most,
        None => most > 0,
    }
}

/// The name of a count, with its qualifiers.
///
/// # Errors
///
/// `Name` where the text is no name, and `Memory`.
fn qualified_of(alloc: Global, count: &Count<'_>) -> Result<Qualified, BookRule>
    requires { AreShort (written_name count.now).qualifiers }
    ensures found { IfOk result (IsQualifiedOf (written_name count.now)) }
    ensures only { IsName (written_name count.now).name → IfErr result (λ r. r ≡ rule.Memory) }
    ensures fault { IfErr result
        (λ r. (r ≡ rule.Memory) ⊎ ((r ≡ rule.Name) × (IsName (written_name count.now).name → ⊥))) }
{
    let Some(name) = name_of_text(count.name) else {
        return Err(BookRule::Name);
    };
    let qualifiers = names_in(alloc, count.qualifiers)?;
    Ok(Qualified { name, qualifiers })
}

/// The names in qualifiers: each second word.
fn names_in(alloc: Global, qualifiers: &[Token]) -> Result<Vec<Name>, AllocError>
    requires { AreShort (names_behind (lexemes qualifiers.now)) }
    ensures { IfOk result (λ ns. ns.items ≡ names_behind (lexemes qualifiers.now)) }
{
    let mut names: Vec<Name> = Vec::new(alloc);
    let mut rest = qualifiers;
    while let [_, name, behind @ ..] = rest {
        names.push(Name::from_characters(name.text.as_slice()))?;
        rest = behind;
    }
    Ok(names)
}
