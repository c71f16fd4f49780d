ghost use Rattle.cob_picture.specs.Laws.{IsOnePicture, PictureBreaksNoRule, IsOneRun, FirstLeads, TakesBytes};

/// A text is one picture at most.
pub fn one_picture()
    ensures { IsOnePicture }
{}

/// A text that is a picture breaks none of the rules that are named for others.
pub fn breaks_no_rule()
    ensures { PictureBreaksNoRule }
{}

/// The places of a run, those that suppress zeros or float, have one symbol.
pub fn one_run()
    ensures { IsOneRun }
{}

/// The first floating symbol is the first place of the run, and stands before the point.
pub fn first_leads()
    ensures { FirstLeads }
{}

/// An item of each picture takes a byte at least.
pub fn takes_bytes()
    ensures { TakesBytes }
{}
