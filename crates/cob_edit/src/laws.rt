//! Laws of edited texts, which the crates above build on.

ghost use Rattle.cob_edit.specs.Characters.{OneSpelling};
ghost use Rattle.cob_edit.specs.CodePage.{PrintsCharacters};
ghost use Rattle.cob_edit.specs.Pictured.{OneEditedText, SomeText, OneEditedNumber};
ghost use Rattle.cob_edit.specs.Regions.{OneRegion, RegionsAreOfRuns, SignsAreShown};

/// A picture gives each number one text.
pub fn one_text()
    ensures { OneEditedText }
{}

/// Each number in the range of a picture has a text.
pub fn some_text()
    ensures { SomeText }
{}

/// Each text is that of one number in range at most.
pub fn one_value()
    ensures { OneEditedNumber }
{}

/// An alphanumeric edited picture gives the characters of a sender one text.
pub fn one_spelling()
    ensures { OneSpelling }
{}

/// The bytes of edited texts are those of their characters in code page 037.
pub fn prints_characters()
    ensures { PrintsCharacters }
{}

/// The region of a numeric edited picture goes from the first symbol of its run to the last, with the insertions between and
/// those directly at its right, and never past the point. It is the only one.
pub fn regions_are_of_runs()
    ensures region { RegionsAreOfRuns }
    ensures one { OneRegion }
{}

/// A numeric edited picture shows a sign exactly where it is signed.
pub fn signs_are_shown()
    ensures { SignsAreShown }
{}
