//! The qualifiers that an entry needs to be named.

ghost use Rattle.std.specs.Prelude.{◌≡◌, ℕ, ◌<◌, ◌≤◌, ◌+◌, [], ◌∷◌, length, map, IfNone, IfSome};
ghost use Rattle.cob_copybook_names.specs.Listed.{texts};
ghost use Rattle.cob_report_partners.specs.Entries.{listed_bearer};
ghost use Rattle.cob_report_partners.specs.Naming.{IsNeeded, IsSpread, NamesOne, SpreadsOn, SpreadsOnNamed, reach};
ghost use Rattle.cob_report_partners.specs.Partners.{all_bearers};

use crate::entries::DraftBearer;
use crate::names::{has_name, is_same};
use crate::records::BothRecords;

/// How many entries a name with its qualifiers names: none from `most` of them on, one alone from `next` on, and more than one with fewer.
#[derive(Clone, Copy)]
struct NameSpread {
    most: usize,
    next: usize,
}

/// How many of these qualifiers, the nearest first, name groups above an entry that has these.
fn reach(qualifiers: &[&[u8]], above: &[&[u8]]) -> usize
    ensures value { result ≡ reach (texts qualifiers.now) (texts above.now) }
    ensures most { result ≤ length qualifiers.now }
{
    let Some((first, others)) = qualifiers.split_first() else {
        return 0;
    };
    let Some((nearest, more)) = above.split_first() else {
        return 0;
    };
    if is_same(first, nearest) {
        return reach(others, more) + 1;
    }
    reach(qualifiers, more)
}

impl NameSpread {
    /// With a further entry, which a name with so many qualifiers names, and with fewer.
    fn with(self, reach: usize) -> NameSpread
        requires room { reach < usize.MAX }
        ensures named { (k count : ℕ) → k ≤ reach → IsSpread self k count
            → IsSpread result k (count + 1) }
        ensures others { (k count : ℕ) → reach < k → IsSpread self k count
            → IsSpread result k count }
        ensures most { (bound : ℕ) → self.most ≤ bound → reach < bound → result.most ≤ bound }
    {
        let fewer = reach + 1;
        if self.most < fewer {
            return NameSpread {
                most: fewer,
                next: self.most,
            };
        }
        NameSpread {
            most: self.most,
            next: self.next.max(fewer),
        }
    }
}

/// With a further entry, which bears the name and stands in groups of these names.
fn spread_with(before: NameSpread, qualifiers: &[&[u8]], above: &[&[u8]]) -> NameSpread
    ensures { SpreadsOnNamed before result (texts qualifiers.now) (texts above.now) }
{
    before.with(reach(qualifiers, above))
}

/// With a further entry.
fn spread_by(
    before: NameSpread,
    name: &[u8],
    qualifiers: &[&[u8]],
    bearer: &DraftBearer<'_>,
) -> NameSpread
    ensures { SpreadsOn before result name.now (texts qualifiers.now)
        (listed_bearer bearer.now ∷ []) }
{
    if has_name(name, bearer.name) {
        return spread_with(before, qualifiers, bearer.above.as_slice());
    }
    before
}

/// With further entries.
fn spread_over(
    before: NameSpread,
    name: &[u8],
    qualifiers: &[&[u8]],
    entries: &[DraftBearer<'_>],
) -> NameSpread
    ensures { SpreadsOn before result name.now (texts qualifiers.now)
        (map listed_bearer entries.now) }
{
    let mut spread = before;
    for entry in entries {
        spread = spread_by(spread, name, qualifiers, entry);
    }
    spread
}

/// How many qualifiers a name needs to name one entry of both records alone, of these, the nearest first; `None` where it names none alone with all of them.
pub fn qualifiers_needed(records: &BothRecords<'_>, name: &[u8], above: &[&[u8]]) -> Option<usize>
    ensures some { IfSome result (λ count. IsNeeded name.now (texts above.now)
        (all_bearers records.now) count) }
    ensures none { IfNone result ((k : ℕ) → k ≤ length above.now
        → NamesOne name.now (texts above.now) k (all_bearers records.now) → ⊥) }
{
    let none = NameSpread { most: 0, next: 0 };
    let inputs = spread_over(none, name, above, records.inputs());
    let all = spread_over(inputs, name, above, records.outputs());
    if all.next < all.most {
        return Some(all.next);
    }
    None
}
