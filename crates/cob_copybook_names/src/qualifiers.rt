ghost use Rattle.std.specs.Prelude.{◌≡◌, ℕ, List, [], ◌∷◌, IfNone, IfSome, bytes_eq};
ghost use Rattle.cob_copybook_names.specs.Laws.{QualifyingIsOne};
ghost use Rattle.cob_copybook_names.specs.Listed.{texts};
ghost use Rattle.cob_copybook_names.specs.Naming.{qualifies};

use cob_copybook_tree::Name;

/// Qualifiers in the form in which they are written.
pub trait Qualifiers: Copy {
    // Their names, the nearest group's first.
    ghost names: { Self → List (List ℕ) };

    /// The name in the first qualifier, and the qualifiers behind it.
    fn nearest(&self) -> Option<(&[u8], Self)>
        ensures some { IfSome result (λ r. names self.now ≡ r.0.now ∷ names r.1) }
        ensures none { IfNone result (names self.now ≡ []) };
}

impl Qualifiers for &[Name] {
    ghost names = { λ qualifiers. qualifiers.now };

    fn nearest(&self) -> Option<(&[u8], Self)> {
        let (name, others) = (**self).split_first()?;
        Some((name.as_bytes(), others))
    }
}

/// Whether two texts are one.
fn is_same(one: &[u8], other: &[u8]) -> bool
    ensures { result ≡ bytes_eq one.now other.now }
{
    one == other
}

/// The qualifiers that are left for the groups above one of this name.
fn left_above<Q: Qualifiers>(qualifiers: Q, name: &[u8]) -> Q
    ensures { (above : List (List ℕ)) → qualifies (Q.names result) above
        ≡ qualifies (Q.names qualifiers) (name.now ∷ above) }
{
    let Some((first, others)) = qualifiers.nearest() else {
        return qualifiers;
    };
    if is_same(first, name) {
        others
    } else {
        qualifiers
    }
}

/// Whether qualifiers name groups above an entry, in order.
pub(crate) fn qualify<Q: Qualifiers>(qualifiers: Q, above: &[&[u8]]) -> bool
    ensures { result ≡ qualifies (Q.names qualifiers) (texts above.now) }
{
    let mut left = qualifiers;
    for name in above {
        left = left_above(left, name);
    }
    left.nearest().is_none()
}

/// A law: qualifiers qualify where they name groups above an entry in order, with gaps.
pub fn qualifying_is_one()
    ensures { QualifyingIsOne }
{}
