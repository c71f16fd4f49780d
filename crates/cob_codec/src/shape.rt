ghost use Rattle.std.specs.Prelude.{◌≡◌, ◌<◌, ◌≤◌, ◌≤ℤ◌};
ghost use Rattle.cob_limits.specs.Limits.{greatest_scale, least_scale, most_digits};
ghost use Rattle.cob_picture.specs.Counts.{digits, scale, signed};
ghost use Rattle.cob_picture.specs.declared.category.Category.TheVariants.{Numeric};

use cob_picture::Picture;

/// How a numeric item lies in storage, by its PICTURE and SIGN clauses.
///
/// The digits of an item that are `d` together stand for the number `d * 10^-scale`.
#[derive(Copy, Clone)]
pub struct Shape {
    /// How many digits the item has, each 9 of the picture: 1 to 31.
    pub digits: u8,
    /// How many decimal places lie right of the point, P among them; below zero, how many P lie between the last 9 and the point. -30
    /// to 31.
    pub scale: i8,
    /// Whether the picture has an S.
    pub signed: bool,
    /// Whether the sign leads (SIGN LEADING); else it trails. Packed and binary items look at it in no way, nor does a zoned one that is
    /// not signed.
    pub leading: bool,
    pub ghost some: { 0 < digits },
    pub ghost most: { digits ≤ most_digits },
    pub ghost low: { least_scale ≤ℤ scale },
    pub ghost high: { scale ≤ℤ greatest_scale },
}

impl Shape {
    /// The shape of an item with this picture, which the caller knows to be numeric, and with a leading or a trailing sign.
    pub fn of(picture: &Picture, leading: bool) -> Shape
        requires { picture.now.category ≡ Numeric }
        ensures digits { result.digits ≡ digits picture.now.positions }
        ensures scale { result.scale ≡ scale picture.now.positions }
        ensures signed { result.signed ≡ signed picture.now.positions }
        ensures leading { result.leading ≡ leading }
    {
        Shape {
            digits: picture.digits(),
            scale: picture.scale(),
            signed: picture.signed(),
            leading,
        }
    }
}
