//! The occurrences of an entry, one after another.

use crate::names::Subscripts;
use arrayvec::ArrayVec;
use cob_copybook_tree::Node;
use cob_layout_places::is_table;

/// Adds how often each table occurs that holds the entry with this number or that it is, the outermost first, where it is this entry or one beneath it.
fn push_tables(entry: &Node, number: usize, tables: &mut Subscripts) -> bool {
    let own = is_table(entry.occurs);
    if own {
        let _ = tables.try_push(entry.occurs.most());
    }
    if entry.number == number {
        return true;
    }
    for child in entry.children.iter() {
        if push_tables(child, number, tables) {
            return true;
        }
    }
    if own {
        let _ = tables.pop();
    }
    false
}

/// How often each table occurs that holds the entry of a record with this number or that it is, the outermost first.
pub fn tables_over(root: &Node, number: usize) -> Subscripts {
    let mut tables = ArrayVec::new();
    push_tables(root, number, &mut tables);
    tables
}

/// The subscripts of the first occurrence under so many tables.
pub fn first_subscripts(tables: &[u32]) -> Subscripts {
    let mut subscripts = ArrayVec::new();
    for _ in tables {
        let _ = subscripts.try_push(1);
    }
    subscripts
}

/// Makes subscripts those of the next occurrence, the last one the fastest. Answers whether there is one.
pub fn advance(subscripts: &mut [u32], tables: &[u32]) -> bool {
    let Some((last, outer)) = subscripts.split_last_mut() else {
        return false;
    };
    let Some((most, outside)) = tables.split_last() else {
        return false;
    };
    if *last < *most {
        *last += 1;
        return true;
    }
    *last = 1;
    advance(outer, outside)
}
