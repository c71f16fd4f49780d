ghost use Rattle.std.specs.Prelude.{◌≡◌, ℕ, ◌+◌, ◌<◌, ◌≤◌, ◌⊎◌, length, IfOk, IfErr, IsOkAnd, IsTrue, IsFalse};
ghost use Rattle.cob_limits.specs.Limits.{longest_edited, longest_record, most_digits};
ghost use Rattle.cob_picture.specs.Positions.{written_out, positions, shows_number, is_edited};
ghost use Rattle.cob_picture.specs.Runs.{ArePositive};
ghost use Rattle.cob_picture.specs.Measures.{AreCountsOver};
ghost use Rattle.cob_picture.specs.Categories.{IsOf};
ghost use Rattle.cob_picture.specs.Pictures.{IsPicture, IsMisplaced};
ghost use Rattle.cob_picture.specs.declared.category.Category.{Category};

use crate::category::{Category, category_of};
use crate::counts::{PictureCounts, counted};
use crate::edited::is_left_out;
use crate::fault::PictureFault;
use crate::symbol::Run;
use cob_limits::{MAX_DIGITS, MAX_EDITED_SIZE, MAX_RECORD};

/// Whether a picture of the category may show so many digits.
pub fn digits_fit(category: Category, counts: PictureCounts) -> bool
    ensures some { IsTrue result → IsTrue (shows_number category) → 0 < counts.digits }
    ensures few { IsTrue result → counts.decimal_places ≤ most_digits }
    ensures not { IsFalse result → (IsTrue (shows_number category) × (counts.digits ≡ 0))
        ⊎ (most_digits < counts.decimal_places) }
{
    (counts.digits > 0 || !category.shows_number()) && counts.decimal_places <= MAX_DIGITS as u32
}

/// Whether a picture of the category may take so many bytes.
pub fn size_fits(category: Category, size: u32) -> bool
    ensures all { IsTrue result → size ≤ longest_record }
    ensures edited { IsTrue result → IsTrue (is_edited category) → size ≤ longest_edited }
    ensures not { IsFalse result
        → (longest_record < size) ⊎ (IsTrue (is_edited category) × (longest_edited < size)) }
{
    size <= MAX_RECORD && (size <= MAX_EDITED_SIZE || !category.is_edited())
}

/// Why the runs are of no category.
pub fn misplaced(runs: &[Run]) -> PictureFault
    requires short { length runs.now ≤ 50 }
    requires positive { ArePositive runs.now }
    requires none { (c : Category) → IsOf c (written_out runs.now) → ⊥ }
    ensures { IsMisplaced result (written_out runs.now) }
{
    if is_left_out(runs) {
        PictureFault::LeftOut
    } else {
        PictureFault::Order
    }
}

/// The category of the runs of a picture, and what is counted over its positions.
pub fn category_and_counts(runs: &[Run]) -> Result<(Category, PictureCounts), PictureFault>
    requires short { length runs.now ≤ 50 }
    requires positive { ArePositive runs.now }
    ensures found { IfOk result (λ r. IsPicture r.0 (written_out runs.now)
        × AreCountsOver (positions r.0 (written_out runs.now)) r.1) }
    ensures only { (c : Category)
        → IsPicture c (written_out runs.now) → IsOkAnd result (λ r. r.0 ≡ c) }
    ensures fault { IfErr result (λ f. IsMisplaced f (written_out runs.now)) }
{
    let Some(category) = category_of(runs) else {
        return Err(misplaced(runs));
    };
    let counts = counted(runs, category);
    if !digits_fit(category, counts) {
        return Err(PictureFault::Digits);
    }
    if !size_fits(category, counts.size) {
        return Err(PictureFault::TooLong);
    }
    Ok((category, counts))
}
