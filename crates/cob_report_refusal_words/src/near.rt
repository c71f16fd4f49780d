//! Words that are near to another.

/// Whether two texts are one but for one character: one that is another, one more, or one less; or for two neighbours that changed places.
fn differ_in_one(a: &[u8], b: &[u8]) -> bool {
    let same = same_front(a, b);
    behind_one(behind_many(a, same), behind_many(b, same))
}

/// How many characters both begin with.
fn same_front(a: &[u8], b: &[u8]) -> usize {
    for (at, x) in a.iter().enumerate() {
        match b.get(at) {
            Some(y) if *y == *x => {}
            _ => return at,
        }
    }
    a.len()
}

/// A text behind so many characters.
fn behind_many(text: &[u8], count: usize) -> &[u8] {
    let (_, rest) = text.split_at(count.min(text.len()));
    rest
}

/// Whether what is left behind a first difference is the same but for it: one character that is another, one more, or one less; or two that changed places.
fn behind_one(left: &[u8], right: &[u8]) -> bool {
    let xs = behind_many(left, 1);
    let ys = behind_many(right, 1);
    if left.len() == right.len() {
        return !left.is_empty() && (xs == ys || are_swapped(left, right));
    }
    left == ys || xs == right
}

/// Whether the first two characters changed places, and the rest is the same.
fn are_swapped(left: &[u8], right: &[u8]) -> bool {
    left.first() == right.get(1)
        && left.get(1) == right.first()
        && behind_many(left, 2) == behind_many(right, 2)
}

/// Whether one text is near to the other: they differ in one character, or in a hyphen or two.
pub(crate) fn is_near(a: &[u8], b: &[u8]) -> bool {
    if a == b {
        return false;
    }
    differ_in_one(a, b) || are_one_but_for_hyphens(a, b)
}

/// A text from its first character on that is no hyphen and no underscore.
fn behind_hyphens(text: &[u8]) -> &[u8] {
    let mut count: usize = 0;
    for character in text {
        if *character != b'-' && *character != b'_' {
            break;
        }
        count = count.saturating_add(1);
    }
    behind_many(text, count)
}

/// Whether two texts have the same characters, hyphens and underscores left out.
fn are_one_but_for_hyphens(a: &[u8], b: &[u8]) -> bool {
    let mut left = behind_hyphens(a);
    let mut right = behind_hyphens(b);
    for _ in 0..a.len() {
        match (left.split_first(), right.split_first()) {
            (Some((x, xs)), Some((y, ys))) if *x == *y => {
                left = behind_hyphens(xs);
                right = behind_hyphens(ys);
            }
            _ => return left.is_empty() && right.is_empty(),
        }
    }
    left.is_empty() && right.is_empty()
}

/// The words that begin a clause.
static CLAUSE_WORDS: [&str; 16] = [
    "PICTURE",
    "PIC",
    "REDEFINES",
    "OCCURS",
    "USAGE",
    "VALUE",
    "SIGN",
    "JUSTIFIED",
    "BLANK",
    "LEADING",
    "TRAILING",
    "COMP",
    "COMP-3",
    "BINARY",
    "PACKED-DECIMAL",
    "DISPLAY",
];

/// The word of a clause that a text is near to, if there is one: first one that differs in hyphens alone, as COMP-3 from COMP3.
pub(crate) fn near_clause(text: &[u8]) -> Option<&'static str> {
    for word in &CLAUSE_WORDS {
        if text != word.as_bytes() && are_one_but_for_hyphens(text, word.as_bytes()) {
            return Some(*word);
        }
    }
    for word in &CLAUSE_WORDS {
        if is_near(text, word.as_bytes()) {
            return Some(*word);
        }
    }
    None
}
