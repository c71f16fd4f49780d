//! What a draft says of the entries of the output record, in their order.

use crate::counts::CountProgress;
use crate::loops::{levels_of, loops_of, times};
use crate::pairs::{PartnerPair, Records, is_item, number_of};
use crate::reasons::ObjectionReason;
use crate::shares::{Shares, share_of};
use cob_limits::MAX_WRITTEN_OUT;
use cob_report_partners::{DraftBearer, Objection, objection_to};
use std::alloc::{AllocError, Global};

/// What a draft says of an entry of the output record.
#[derive(Clone, Copy)]
pub(crate) enum Saying<'s, 'a> {
    /// The statement that moves its partner to it.
    Statement(PartnerPair<'s, 'a>),
    /// That statement as a comment, behind what is against it.
    Objection(ObjectionReason<'s, 'a>),
    /// A remark.
    Remark(&'static str),
    /// A remark behind its name.
    Noted(&'static str),
    /// An entry of a list, with its name before it.
    Listed(&'static str),
}

/// A piece of a draft: an entry of the output record, and what is said of it.
#[derive(Clone, Copy)]
pub(crate) struct DraftPiece<'s, 'a> {
    pub(crate) to: &'s DraftBearer<'a>,
    pub(crate) saying: Saying<'s, 'a>,
}

/// What a draft has come to.
#[derive(Drop)]
pub(crate) struct DraftProgress<'s, 'a> {
    pub(crate) alloc: Global,
    pub(crate) pieces: Vec<DraftPiece<'s, 'a>>,
    /// The pairs of the statements among the pieces, in their order.
    pub(crate) pairs: Vec<PartnerPair<'s, 'a>>,
    /// Whether a statement was left out since the loops would come to too many.
    pub(crate) is_full: bool,
    /// How many statements the loops come to.
    written_out: u64,
    /// The counts of the output record.
    pub(crate) counts: CountProgress,
    /// What is moved of each entry of the input record.
    pub(crate) sent: Shares,
    /// What is moved to each entry of the output record.
    pub(crate) received: Shares,
}

/// Nothing is moved of the entries of the input record, nor to those of the output record.
fn shares_of(alloc: Global, records: &Records<'_>) -> Result<(Shares, Shares), AllocError> {
    let sent = Shares::nothing(alloc, records.both.inputs().len())?;
    match Shares::nothing(alloc, records.both.outputs().len()) {
        Ok(received) => Ok((sent, received)),
        Err(refused) => Err(refused),
    }
}

impl<'s, 'a> DraftProgress<'s, 'a> {
    /// Nothing yet, where the counts with these numbers may be moved.
    pub(crate) fn new(
        alloc: Global,
        records: &Records<'_>,
        filled: Vec<usize>,
    ) -> Result<DraftProgress<'s, 'a>, AllocError> {
        let (sent, received) = shares_of(alloc, records)?;
        Ok(DraftProgress {
            alloc,
            pieces: Vec::new(alloc),
            pairs: Vec::new(alloc),
            is_full: false,
            written_out: 0,
            counts: CountProgress::new(alloc, filled),
            sent,
            received,
        })
    }

    /// Nothing again, where those counts alone may be moved whose tables have statements.
    pub(crate) fn begin_again(&mut self) {
        self.pieces.clear();
        self.pairs.clear();
        self.is_full = false;
        self.written_out = 0;
        self.counts.begin_again(self.alloc);
        self.sent.clear();
        self.received.clear();
    }

    /// Adds what is said of an entry of the output record.
    pub(crate) fn push_piece(
        &mut self,
        to: &'s DraftBearer<'a>,
        saying: Saying<'s, 'a>,
    ) -> Result<(), AllocError> {
        self.pieces.push(DraftPiece { to, saying })?;
        Ok(())
    }

    /// Notes what is moved where the elements of a pair are moved that both entries have: of the entries with those beneath them, and of what the sender
    /// redefines.
    fn note_moves(&mut self, pair: &PartnerPair<'_, '_>) {
        let (sending, receiving) = (pair.from, pair.to);
        let from = sending.entry.tables.as_slice();
        let to = receiving.entry.tables.as_slice();
        let sent = share_of(from, to);
        self.sent.note(number_of(sending), sending.entry.last, sent);
        if let Some(redefined) = sending.entry.redefined {
            self.sent.note(redefined, redefined, sent);
        }
        let received = share_of(to, from);
        self.received
            .note(number_of(receiving), receiving.entry.last, received);
    }

    /// Counts what the statement of a pair comes to in its loops, and answers whether a paragraph has room for it.
    fn has_room(&mut self, records: &Records<'_>, pair: &PartnerPair<'_, '_>) -> bool {
        let counts = self.counts.so_far(records);
        if loops_of(records, counts, pair).is_empty() {
            return true;
        }
        let levels = levels_of(counts, pair);
        let written_out = self.written_out.saturating_add(times(levels.as_slice()));
        if written_out > MAX_WRITTEN_OUT {
            self.is_full = true;
            return false;
        }
        self.written_out = written_out;
        true
    }

    /// Adds the statement of a pair.
    fn push_statement(
        &mut self,
        records: &Records<'_>,
        pair: &PartnerPair<'s, 'a>,
    ) -> Result<(), AllocError> {
        if !self.has_room(records, pair) {
            return Ok(());
        }
        self.push_piece(pair.to, Saying::Statement(*pair))?;
        self.pairs.push(*pair)?;
        self.counts.note_statement(pair)?;
        self.note_moves(pair);
        Ok(())
    }

    /// What is against the move of a pair, so far.
    fn objection_of(
        &self,
        records: &Records<'_>,
        pair: &PartnerPair<'_, '_>,
    ) -> Result<Option<Objection>, AllocError> {
        let (sending, receiving) = (pair.from, pair.to);
        let counts = self.counts.so_far(records);
        objection_to(self.alloc, counts, &sending.entry, &receiving.entry)
    }

    /// Adds the statement of a pair, or a comment where something is against it, and answers what that is.
    pub(crate) fn push_pair(
        &mut self,
        records: &'s Records<'a>,
        pair: &PartnerPair<'s, 'a>,
    ) -> Result<Option<Objection>, AllocError> {
        match self.objection_of(records, pair)? {
            Some(objection) => {
                if matches!(objection, Objection::Counts) {
                    self.counts.note_move(pair)?;
                }
                let reason = ObjectionReason {
                    records,
                    pair: *pair,
                    objection,
                };
                self.push_piece(pair.to, Saying::Objection(reason))?;
                Ok(Some(objection))
            }
            None => {
                self.push_statement(records, pair)?;
                Ok(None)
            }
        }
    }
}

/// Whether a move that is objected to copies bytes, and would lose something of them, or fill a count within a group: then items alone may be moved in its
/// place.
pub(crate) fn is_of_bytes(pair: &PartnerPair<'_, '_>, objection: Objection) -> bool {
    match objection {
        Objection::Loses(_) | Objection::Description(_) => !is_item(pair.from) || !is_item(pair.to),
        Objection::Counts => !is_item(pair.to),
        _ => false,
    }
}
