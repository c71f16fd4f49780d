//! How the texts of copybooks stand on their lines.

use crate::fault::BookRefusal;
use cob_program_line::Handing;
use cob_source::{TextFormat, without_tabs};
use std::alloc::{AllocError, Global};

/// How many columns may stand between tab stops.
const MOST_COLUMNS: u8 = 72;

/// How texts stand on their lines.
#[derive(Clone, Copy)]
pub struct Spacing {
    /// How many columns stand between tab stops, where spaces are put for tabs.
    tabs: Option<u8>,
    /// In columns or without.
    pub(crate) format: TextFormat,
}

/// How many columns an option says.
fn columns_of(said: &str) -> Result<u8, BookRefusal> {
    match said.parse::<u8>() {
        Ok(columns) if columns > 0 && columns <= MOST_COLUMNS => Ok(columns),
        _ => Err(BookRefusal::BadTabs),
    }
}

impl Spacing {
    /// As the options say.
    ///
    /// # Errors
    ///
    /// That of the tab stops says no number from 1 to 72.
    pub(crate) fn of(options: &Handing<'_>) -> Result<Spacing, BookRefusal> {
        let tabs = match options.tabs {
            Some(said) => Some(columns_of(said)?),
            None => None,
        };
        let format = if options.free {
            TextFormat::Free
        } else {
            TextFormat::Reference
        };
        Ok(Spacing { tabs, format })
    }

    /// A text as it is read: with spaces for its tabs, where the option says so.
    ///
    /// # Errors
    ///
    /// Where no memory is left.
    pub(crate) fn spaced(&self, alloc: Global, text: Vec<u8>) -> Result<Vec<u8>, AllocError> {
        match self.tabs {
            Some(columns) if columns > 0 => without_tabs(alloc, text.as_slice(), columns),
            _ => Ok(text),
        }
    }
}
