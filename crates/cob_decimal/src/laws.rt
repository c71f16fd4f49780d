//! Laws of digits and of texts, as contracts of functions that do nothing. A function that calls one may rest its own proof on it.

ghost use Rattle.cob_decimal.specs.Laws.{OneList, BelowPower, NumberOfJoined, KeepsMagnitude, OneLiteral, OneText, TextTells};

/// Digits of one length that stand for one number are the same digits.
pub fn one_list_of_digits()
    ensures { OneList }
{}

/// So many digits stand for a number below that power of ten.
pub fn below_power_of_ten()
    ensures { BelowPower }
{}

/// Digits that follow others move those to the left by as many places.
pub fn digits_joined()
    ensures { NumberOfJoined }
{}

/// A receiver that has at least as many digits on both sides of the point loses nothing.
pub fn wider_keeps_magnitude()
    ensures { KeepsMagnitude }
{}

/// A text is that of one numeric literal at most.
pub fn one_literal_of_text()
    ensures { OneLiteral }
{}

/// A number is written in one way.
pub fn one_text_of_number()
    ensures { OneText }
{}

/// What is written tells the number.
pub fn text_tells_number()
    ensures { TextTells }
{}
