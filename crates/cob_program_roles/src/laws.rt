//! Laws of records under another name, as contracts of functions that do nothing.

ghost use Rattle.cob_program_roles.specs.Laws.{NameAloneChanges, NamingKeepsConditionNames, NamingKeepsEntries, NamingKeepsLengths, NamingKeepsPlaces};

use cob_copybook_conditions::one_list_of_condition_names;

/// What a text under another name describes is the record with that name, and else as it is.
pub fn name_alone_changes()
    ensures { NameAloneChanges }
{}

/// A text under another name has the condition-names of the first, and no others.
pub fn naming_keeps_condition_names()
    ensures { NamingKeepsConditionNames }
{
    one_list_of_condition_names();
}

/// The entries beneath a record are the same under another name, and so are its lengths, and the place of each entry.
pub fn naming_keeps_the_rest()
    ensures entries { NamingKeepsEntries }
    ensures lengths { NamingKeepsLengths }
    ensures places { NamingKeepsPlaces }
{}
