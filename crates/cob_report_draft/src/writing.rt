//! What a draft says, written line by line, with loops round what it says of the elements of tables.

use crate::lines::{DraftLineKind, DraftLines, StatementWords};
use crate::loops::{
    LoopSubscripts, TableLoop, TableLoops, count_holding, count_same, counts_beside, loops_of,
    subscripts_of,
};
use crate::pairs::{PartnerPair, Records, qualifiers_of};
use crate::progress::{DraftPiece, DraftProgress, Saying};
use crate::reasons::ObjectionReason;
use crate::words::{
    CounterNames, LoopHead, NamedReference, Subscript, WrittenBound, WrittenSubscripts,
};
use arrayvec::ArrayVec;
use cob_report_partners::{DraftBearer, DraftCounts, LoopBound, TableSize};
use std::alloc::{AllocError, Global};
use std::fmt::Write;

/// The text of a draft, as far as it is written, and the loops that are open at its end.
#[derive(Drop)]
pub(crate) struct DraftText {
    pub(crate) alloc: Global,
    pub(crate) lines: DraftLines,
    /// The names of the loops' counters, that of the outermost first.
    counters: CounterNames,
    open: TableLoops,
}

/// The loops of the next statement that an entry of the output record stands in too.
fn loops_ahead(
    records: &Records<'_>,
    counts: DraftCounts<'_>,
    next: Option<&PartnerPair<'_, '_>>,
    to: &DraftBearer<'_>,
) -> TableLoops {
    let Some(pair) = next else {
        return ArrayVec::new();
    };
    let mut loops = loops_of(records, counts, pair);
    let count = count_holding(loops.as_slice(), to);
    loops.truncate(count);
    loops
}

/// A reference to the count with this number, of a record that has these entries, with the qualifiers that it needs. A count stands in no table, so it has no
/// subscripts.
fn count_reference<'s, 'a>(
    records: &Records<'_>,
    entries: &'s [DraftBearer<'a>],
    number: usize,
) -> Option<WrittenBound<'s, 'a>> {
    let bearer = entries.get(number)?;
    let qualifiers = qualifiers_of(&records.both, bearer)?;
    Some(WrittenBound::Item(NamedReference::single(bearer, qualifiers)))
}

/// By what a loop ends, as it is written.
fn written_bound<'s, 'a>(
    records: &'s Records<'a>,
    bound: LoopBound,
) -> Option<WrittenBound<'s, 'a>> {
    match bound {
        LoopBound::Number(number) => Some(WrittenBound::Number(number)),
        LoopBound::Input(count) => count_reference(records, records.both.inputs(), count),
        LoopBound::Output(count) => count_reference(records, records.both.outputs(), count),
    }
}

/// The words of the statement that moves an entry to another one, with a period or without one.
fn statement_words(
    alloc: Global,
    from: &NamedReference<'_, '_, '_>,
    to: &NamedReference<'_, '_, '_>,
    has_period: bool,
) -> Result<StatementWords, AllocError> {
    let mut text = format!(in alloc; "MOVE {from}")?;
    let sends = text.len();
    write!(text, " TO {to}{}", if has_period { "." } else { "" })?;
    Ok(StatementWords { text, sends })
}

impl DraftText {
    /// No line yet.
    pub(crate) fn new(alloc: Global, counters: CounterNames) -> DraftText {
        DraftText {
            alloc,
            lines: DraftLines::new(String::new(alloc)),
            counters,
            open: ArrayVec::new(),
        }
    }

    /// Closes loops until so many are open.
    fn close_to(&mut self, count: usize) -> Result<(), AllocError> {
        for _ in count..self.open.len() {
            let _ = self.open.pop();
            self.lines.close_loop()?;
        }
        Ok(())
    }

    /// Opens a loop, if the text has room for it.
    fn open_loop(&mut self, records: &Records<'_>, own: &TableLoop) -> Result<(), AllocError> {
        let Some(bound) = written_bound(records, own.bound) else {
            self.lines.is_cut = true;
            return Ok(());
        };
        let Some(counter) = self.counters.get(self.open.len()) else {
            self.lines.is_cut = true;
            return Ok(());
        };
        let head = LoopHead { counter, bound };
        let words = format!(in self.alloc; "{head}")?;
        self.open_with(&words, own)
    }

    /// Opens a loop with this head, if the text has room for it.
    fn open_with(&mut self, head: &str, own: &TableLoop) -> Result<(), AllocError> {
        if self.lines.open_loop(head)? {
            let _ = self.open.try_push(*own);
        }
        Ok(())
    }

    /// Closes loops until so many are open. Where these are the first so many of the loops to come, it opens the others of them.
    fn turn_into(
        &mut self,
        records: &Records<'_>,
        kept: usize,
        ahead: &[TableLoop],
        same: usize,
    ) -> Result<(), AllocError> {
        self.close_to(kept)?;
        if kept == same {
            for own in ahead.iter().skip(same) {
                self.open_loop(records, own)?;
            }
        }
        Ok(())
    }

    /// Closes the loops that a piece does not stand in, and opens those of the next statement that it stands in too.
    fn turn_to(
        &mut self,
        records: &Records<'_>,
        counts: DraftCounts<'_>,
        piece: &DraftPiece<'_, '_>,
        next: Option<&PartnerPair<'_, '_>>,
    ) -> Result<(), AllocError> {
        let ahead = loops_ahead(records, counts, next, piece.to);
        let same = count_same(self.open.as_slice(), ahead.as_slice());
        let kept = match piece.saying {
            Saying::Statement(_) => same,
            _ => count_holding(self.open.as_slice(), piece.to),
        };
        self.turn_into(records, kept, ahead.as_slice(), same)
    }

    /// Subscripts, with the names of counters.
    fn written<'s>(&'s self, subscripts: &'s [Subscript]) -> WrittenSubscripts<'s> {
        WrittenSubscripts {
            subscripts,
            counters: self.counters.as_slice(),
        }
    }

    /// The subscripts, in the loops that are open, of an entry in the first of these tables, where the other entry stands in the others.
    fn subscripts_beside(&self, own: &[TableSize], others: &[TableSize]) -> LoopSubscripts {
        let counts = counts_beside(own, others);
        subscripts_of(self.open.as_slice(), counts.as_slice())
    }

    /// The words of the statement of a pair: in loops without a period.
    fn words_of(&self, pair: &PartnerPair<'_, '_>) -> Result<StatementWords, AllocError> {
        let (sending, receiving) = (pair.from, pair.to);
        let sent = sending.entry.tables.as_slice();
        let received = receiving.entry.tables.as_slice();
        let from_subscripts = self.subscripts_beside(sent, received);
        let to_subscripts = self.subscripts_beside(received, sent);
        let from = pair.sender(self.written(from_subscripts.as_slice()));
        let to = pair.receiver(self.written(to_subscripts.as_slice()));
        statement_words(self.alloc, &from, &to, self.open.is_empty())
    }

    /// Adds the statement of a pair, or a comment in its form.
    fn push_move(
        &mut self,
        mark: DraftLineKind,
        pair: &PartnerPair<'_, '_>,
    ) -> Result<(), AllocError> {
        let words = self.words_of(pair)?;
        self.lines.push_statement(mark, &words)
    }

    /// Adds a statement that may not stand, as a comment, and why.
    fn push_objection(&mut self, reason: &ObjectionReason<'_, '_>) -> Result<(), AllocError> {
        let words = format!(in self.alloc; "{reason}")?;
        self.push_reasoned(&words, &reason.pair)
    }

    /// Adds the statement of a pair as a comment, behind a remark.
    fn push_reasoned(&mut self, words: &str, pair: &PartnerPair<'_, '_>) -> Result<(), AllocError> {
        self.lines.push_remark(words)?;
        self.push_move(DraftLineKind::Comment, pair)
    }

    /// Adds a remark on an entry of the output record.
    fn push_noted(&mut self, to: &DraftBearer<'_>, words: &str) -> Result<(), AllocError> {
        let name = NamedReference::whole(to);
        let remark = format!(in self.alloc; "{name}: {words}")?;
        self.lines.push_remark(&remark)
    }

    /// Adds an entry of the output record to a list, with what is said of it.
    fn push_listed(&mut self, to: &DraftBearer<'_>, words: &str) -> Result<(), AllocError> {
        let name = NamedReference::whole(to);
        let listed = format!(in self.alloc; "{name}: {words}")?;
        self.lines.push_listed(&listed)
    }

    /// Adds a piece, in the loops that are open.
    fn push_piece(&mut self, piece: &DraftPiece<'_, '_>) -> Result<(), AllocError> {
        match &piece.saying {
            Saying::Statement(pair) => self.push_move(DraftLineKind::Statement, pair),
            Saying::Objection(reason) => self.push_objection(reason),
            Saying::Remark(words) => self.lines.push_remark(words),
            Saying::Noted(words) => self.push_noted(piece.to, words),
            Saying::Listed(words) => self.push_listed(piece.to, words),
        }
    }

    /// Adds all pieces, with their loops.
    pub(crate) fn push_pieces(
        &mut self,
        records: &Records<'_>,
        progress: &DraftProgress<'_, '_>,
    ) -> Result<(), AllocError> {
        let counts = progress.counts.so_far(records);
        let mut next = 0;
        for piece in progress.pieces.iter() {
            self.turn_to(records, counts, piece, progress.pairs.get(next))?;
            self.push_piece(piece)?;
            if let Saying::Statement(_) = piece.saying {
                next += 1;
            }
        }
        self.close_to(0)
    }
}
