//! The words that tell losses.

use crate::losses::Losses;
use std::fmt;

/// Writes what parts things in a list, and notes that there is one more.
fn write_comma<W: fmt::Write>(f: &mut fmt::Formatter<W>, some: &mut bool) -> fmt::Result {
    if *some {
        write!(f, ", ")?;
    }
    *some = true;
    Ok(())
}

impl fmt::Display for Losses {
    fn fmt<W: fmt::Write>(&self, f: &mut fmt::Formatter<W>) -> fmt::Result {
        let mut some = false;
        if self.before {
            write_comma(f, &mut some)?;
            write!(f, "digits before the point")?;
        }
        if self.behind {
            write_comma(f, &mut some)?;
            write!(f, "digits behind the point")?;
        }
        if self.characters {
            write_comma(f, &mut some)?;
            write!(f, "characters")?;
        }
        if self.sign {
            write_comma(f, &mut some)?;
            write!(f, "the sign")?;
        }
        Ok(())
    }
}
