//! The places of an edited item.

ghost use Rattle.std.specs.Prelude.{◌≡◌};
ghost use Rattle.cob_edit.specs.Places.{mark_byte, tells, fill_byte, is_digit, is_run, is_run_or_insertion, is_point_place, has_byte, is_nine, is_star, is_asterisk, is_fixed_sign, is_floating_sign};

use cob_cp037::{ASTERISK, CURRENCY, LETTER_B, LETTER_C, LETTER_D, LETTER_R, MINUS, PLUS, SPACE};

/// A byte that may depend on the sign of the value.
#[derive(Clone, Copy, PartialEq, Eq)]
pub enum Mark {
    /// `$`, whatever the sign.
    Currency,
    /// `+`, or `-` for a negative value.
    PlusOrMinus,
    /// A space, or `-` for a negative value.
    SpaceOrMinus,
    /// The C of CR, for a negative value.
    CreditC,
    /// The R of CR, for a negative value.
    CreditR,
    /// The D of DB, for a negative value.
    DebitD,
    /// The B of DB, for a negative value.
    DebitB,
}

/// What stands for a suppressed zero.
#[derive(Clone, Copy, PartialEq, Eq)]
pub enum Fill {
    /// A space, for Z.
    Space,
    /// An asterisk.
    Asterisk,
}

/// What a place of an edited item is for.
#[derive(Clone, Copy, PartialEq, Eq)]
pub enum EditedPlace {
    /// A byte that prints itself, for B, 0, the stroke and the comma.
    Inserted(u8),
    /// A point that prints.
    Point,
    /// A digit that always shows, for 9.
    Digit,
    /// A digit whose leading zeros are suppressed.
    Suppressed(Fill),
    /// A digit that a floating symbol may take the place of.
    Floating,
    /// The first floating symbol, which holds no digit.
    First(Mark),
    /// A sign or currency sign in its place.
    Fixed(Mark),
    /// A point that prints nothing, for V.
    AssumedPoint,
}

impl Default for EditedPlace {
    fn default() -> EditedPlace {
        EditedPlace::Inserted(0)
    }
}

impl Mark {
    /// The byte for a value that is negative or not.
    pub fn byte(self, negative: bool) -> u8
        ensures { result ≡ mark_byte self negative }
    {
        match (self, negative) {
            (Mark::Currency, _) => CURRENCY,
            (Mark::PlusOrMinus, false) => PLUS,
            (Mark::PlusOrMinus | Mark::SpaceOrMinus, true) => MINUS,
            (Mark::CreditC, true) => LETTER_C,
            (Mark::CreditR, true) => LETTER_R,
            (Mark::DebitD, true) => LETTER_D,
            (Mark::DebitB, true) => LETTER_B,
            _ => SPACE,
        }
    }

    /// Whether it tells the sign.
    pub fn tells(self) -> bool
        ensures { result ≡ tells self }
    {
        !matches!(self, Mark::Currency)
    }
}

impl Fill {
    /// Its byte.
    pub fn byte(self) -> u8
        ensures { result ≡ fill_byte self }
    {
        match self {
            Fill::Space => SPACE,
            Fill::Asterisk => ASTERISK,
        }
    }
}

impl EditedPlace {
    /// Whether it holds a digit.
    pub fn is_digit(&self) -> bool
        ensures { result ≡ is_digit self.now }
    {
        matches!(
            self,
            EditedPlace::Digit | EditedPlace::Suppressed(_) | EditedPlace::Floating
        )
    }

    /// Whether it is of the run.
    pub fn is_run(&self) -> bool
        ensures { result ≡ is_run self.now }
    {
        matches!(
            self,
            EditedPlace::First(_) | EditedPlace::Suppressed(_) | EditedPlace::Floating
        )
    }

    /// Whether it is of the run or an insertion.
    pub fn is_run_or_insertion(&self) -> bool
        ensures { result ≡ is_run_or_insertion self.now }
    {
        self.is_run() || matches!(self, EditedPlace::Inserted(_))
    }

    /// Whether it is the point.
    pub fn is_point(&self) -> bool
        ensures { result ≡ is_point_place self.now }
    {
        matches!(self, EditedPlace::Point | EditedPlace::AssumedPoint)
    }

    /// Whether it holds a byte.
    pub fn has_byte(&self) -> bool
        ensures { result ≡ has_byte self.now }
    {
        !matches!(self, EditedPlace::AssumedPoint)
    }

    /// Whether it holds a digit that always shows.
    pub fn is_nine(&self) -> bool
        ensures { result ≡ is_nine self.now }
    {
        matches!(self, EditedPlace::Digit)
    }

    /// Whether an asterisk stands for its suppressed zero.
    pub fn is_star(&self) -> bool
        ensures { result ≡ is_star self.now }
    {
        matches!(self, EditedPlace::Suppressed(Fill::Asterisk))
    }

    /// Whether it is a sign in its place.
    pub fn is_fixed_sign(&self) -> bool
        ensures { result ≡ is_fixed_sign self.now }
    {
        match self {
            EditedPlace::Fixed(mark) => mark.tells(),
            _ => false,
        }
    }

    /// Whether it is the first of a floating sign.
    pub fn is_floating_sign(&self) -> bool
        ensures { result ≡ is_floating_sign self.now }
    {
        match self {
            EditedPlace::First(mark) => mark.tells(),
            _ => false,
        }
    }
}
