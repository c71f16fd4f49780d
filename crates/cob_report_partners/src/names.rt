//! Names, and the names of groups.

ghost use Rattle.std.specs.Prelude.{◌≡◌, bytes_eq};
ghost use Rattle.cob_copybook_names.specs.Listed.{name_text, texts};
ghost use Rattle.cob_copybook_names.specs.Naming.{has_name};
ghost use Rattle.cob_move_names.specs.Pairs.{same_names};
ghost use Rattle.cob_report_partners.specs.Groups.{below_record};
ghost use Rattle.cob_report_partners.specs.Partners.{share_name};

/// Whether two texts are one.
pub(crate) fn is_same(one: &[u8], other: &[u8]) -> bool
    ensures { result ≡ bytes_eq one.now other.now }
{
    one == other
}

/// Whether two entries have names that are one.
pub(crate) fn share_name(one: Option<&[u8]>, other: Option<&[u8]>) -> bool
    ensures { result ≡ share_name (name_text one.entry) (name_text other.entry) }
{
    match (one, other) {
        (Some(one), Some(other)) => is_same(one, other),
        _ => false,
    }
}

/// Whether an entry bears a name.
pub(crate) fn has_name(name: &[u8], own: Option<&[u8]>) -> bool
    ensures { result ≡ has_name name.now (name_text own.entry) }
{
    match own {
        Some(own) => is_same(own, name),
        None => false,
    }
}

/// Whether two lists of names are the same.
fn are_same(one: &[&[u8]], other: &[&[u8]]) -> bool
    ensures { result ≡ same_names (texts one.now) (texts other.now) }
{
    let Some((first, more)) = one.split_first() else {
        return other.is_empty();
    };
    let Some((second, others)) = other.split_first() else {
        return false;
    };
    is_same(first, second) && are_same(more, others)
}

/// Whether two lists of names are the same, which are as long if they are.
pub(crate) fn same_names(one: &[&[u8]], other: &[&[u8]]) -> bool
    ensures { result ≡ same_names (texts one.now) (texts other.now) }
{
    one.len() == other.len() && are_same(one, other)
}

/// The names of the groups above an entry but for its record's.
pub(crate) fn below_record<'s, 'a>(above: &'s [&'a [u8]]) -> &'s [&'a [u8]]
    ensures { texts result.now ≡ below_record (texts above.now) }
{
    &above[..above.len().saturating_sub(1)]
}
