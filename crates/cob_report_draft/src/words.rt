//! How a draft tells entries.

use cob_report_partners::DraftBearer;
use std::fmt;

/// The names of the counters, that of the outermost loop first.
pub(crate) type CounterNames = Vec<Vec<u8>>;

/// A subscript of a statement.
#[derive(Clone, Copy, Default)]
pub(crate) enum Subscript {
    /// That of the first element.
    #[default]
    First,
    /// The counter of the loop with this number, the outermost 0.
    Counter(usize),
}

/// The subscripts of a statement, with the names of counters.
#[derive(Clone, Copy)]
pub(crate) struct WrittenSubscripts<'s> {
    pub(crate) subscripts: &'s [Subscript],
    pub(crate) counters: &'s [Vec<u8>],
}

/// A reference to an entry: its name, so many of its qualifiers, the nearest first, and its subscripts.
#[derive(Clone, Copy)]
pub(crate) struct NamedReference<'s, 'a, 'w> {
    pub(crate) bearer: &'s DraftBearer<'a>,
    pub(crate) qualifiers: usize,
    pub(crate) written: WrittenSubscripts<'w>,
}

impl NamedReference<'_, '_, '_> {
    /// Writes its qualifiers.
    fn write_qualifiers<W: fmt::Write>(&self, f: &mut fmt::Formatter<W>) -> fmt::Result {
        for name in self.bearer.above.iter().take(self.qualifiers) {
            f.write_str(" OF ")?;
            write_name(f, name)?;
        }
        Ok(())
    }
}

impl<'s, 'a> NamedReference<'s, 'a, 's> {
    /// A reference to an entry, or to all its elements, by its name and all its qualifiers.
    pub(crate) fn whole(bearer: &'s DraftBearer<'a>) -> NamedReference<'s, 'a, 's> {
        NamedReference::single(bearer, bearer.above.len())
    }

    /// A reference without subscripts, by a name and so many of its qualifiers.
    pub(crate) fn single(
        bearer: &'s DraftBearer<'a>,
        qualifiers: usize,
    ) -> NamedReference<'s, 'a, 's> {
        NamedReference {
            bearer,
            qualifiers,
            written: WrittenSubscripts {
                subscripts: &[],
                counters: &[],
            },
        }
    }
}

/// Writes the characters of a name.
fn write_name<W: fmt::Write>(f: &mut fmt::Formatter<W>, name: &[u8]) -> fmt::Result {
    for character in name {
        f.write_char(char::from(*character))?;
    }
    Ok(())
}

/// By what a loop ends, as it is written.
#[derive(Clone, Copy)]
pub(crate) enum WrittenBound<'s, 'a> {
    /// A number.
    Number(u32),
    /// An item.
    Item(NamedReference<'s, 'a, 's>),
}

/// The head of a loop: its counter, and by what it ends.
#[derive(Clone, Copy)]
pub(crate) struct LoopHead<'s, 'a> {
    pub(crate) counter: &'s [u8],
    pub(crate) bound: WrittenBound<'s, 'a>,
}

impl fmt::Display for WrittenBound<'_, '_> {
    fn fmt<W: fmt::Write>(&self, f: &mut fmt::Formatter<W>) -> fmt::Result {
        match self {
            WrittenBound::Number(number) => write!(f, "{number}"),
            WrittenBound::Item(item) => write!(f, "{item}"),
        }
    }
}

/// Writes a word with spaces round it, and the name of a counter behind it.
fn write_counter<W: fmt::Write>(
    f: &mut fmt::Formatter<W>,
    words: &str,
    counter: &[u8],
) -> fmt::Result {
    f.write_str(words)?;
    write_name(f, counter)
}

impl fmt::Display for LoopHead<'_, '_> {
    fn fmt<W: fmt::Write>(&self, f: &mut fmt::Formatter<W>) -> fmt::Result {
        write_counter(f, "PERFORM VARYING ", self.counter)?;
        write_counter(f, " FROM 1 BY 1 UNTIL ", self.counter)?;
        let bound = self.bound;
        write!(f, " > {bound}")
    }
}

impl WrittenSubscripts<'_> {
    /// Writes a subscript.
    fn write_subscript<W: fmt::Write>(
        &self,
        f: &mut fmt::Formatter<W>,
        subscript: Subscript,
    ) -> fmt::Result {
        match subscript {
            Subscript::First => f.write_char('1'),
            Subscript::Counter(number) => match self.counters.get(number) {
                Some(name) => write_name(f, name),
                None => f.write_char('1'),
            },
        }
    }

    /// Writes one behind a comma.
    fn write_next<W: fmt::Write>(
        &self,
        f: &mut fmt::Formatter<W>,
        subscript: Subscript,
    ) -> fmt::Result {
        f.write_str(", ")?;
        self.write_subscript(f, subscript)
    }

    /// Writes the first and the others behind it, without brackets.
    fn write_list<W: fmt::Write>(
        &self,
        f: &mut fmt::Formatter<W>,
        first: Subscript,
        others: &[Subscript],
    ) -> fmt::Result {
        self.write_subscript(f, first)?;
        for subscript in others {
            self.write_next(f, *subscript)?;
        }
        Ok(())
    }

    /// Writes all of them in brackets, and nothing where there are none.
    fn write<W: fmt::Write>(&self, f: &mut fmt::Formatter<W>) -> fmt::Result {
        let Some((first, others)) = self.subscripts.split_first() else {
            return Ok(());
        };
        f.write_str(" (")?;
        self.write_list(f, *first, others)?;
        f.write_char(')')
    }
}

impl fmt::Display for NamedReference<'_, '_, '_> {
    fn fmt<W: fmt::Write>(&self, f: &mut fmt::Formatter<W>) -> fmt::Result {
        write_name(f, self.bearer.name.unwrap_or(b"FILLER"))?;
        self.write_qualifiers(f)?;
        self.written.write(f)
    }
}
