//! Tables that no text of entries describes, since an entry by itself may not be one.

use cob_copybook_entry::{BookFault, BookRule, Entry, Name, Occurs, Qualified};
use cob_copybook_rules::judge_clauses;
use cob_copybook_tree::Branch;
use cob_picture::Picture;
use std::alloc::Global;
use std::test::Fail;

/// An entry that stands on the line `level`.
fn entry(level: u8, picture: Option<Picture>, occurs: Option<Occurs>) -> Entry {
    Entry {
        line: u32::from(level),
        level,
        name: None,
        redefines: None,
        picture,
        usage: None,
        sign: None,
        occurs,
        value: None,
        justified: false,
        blank: false,
    }
}

/// A record with one item, which occurs so.
fn record(alloc: Global, occurs: Occurs) -> Result<Branch, Fail> {
    let item = Branch {
        entry: entry(2, Some(Picture::read(b"X")?), Some(occurs)),
        children: Vec::new(alloc),
    };
    Ok(Branch {
        entry: entry(1, None, None),
        children: vec![in alloc; item]?,
    })
}

/// A table that occurs no times, and one that varies from its greatest count on.
#[test]
fn wrong_bounds(rt: HostRuntime) -> Result<(), Fail> {
    let alloc = rt.alloc();
    let wrong = Err(BookFault {
        rule: BookRule::Table,
        line: 2,
    });
    assert!(rt; judge_clauses(&record(alloc, Occurs::Fixed(0))?) == wrong);
    let count = Qualified {
        name: Name::from_characters(b"N"),
        qualifiers: Vec::new(alloc),
    };
    let unvarying = Occurs::Varying {
        least: 2,
        most: 2,
        count,
    };
    assert!(rt; judge_clauses(&record(alloc, unvarying)?) == wrong);
    Ok(())
}
