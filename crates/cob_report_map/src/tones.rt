//! What single moves do to the entries of both records.

use cob_back_losses::{Losses, Unkept};
use cob_move_data::{Sent, Side};
use cob_report_boxes::{EntryRow, Tone};
use cob_report_lossless::LinedSingle;
use std::alloc::{AllocError, Global};

/// Of each entry of both records, by its number, what single moves do to it; and of each entry of the output record its partner.
#[derive(Drop)]
pub(crate) struct Tones {
    pub(crate) input: Vec<Tone>,
    pub(crate) output: Vec<Tone>,
    pub(crate) partners: Vec<Option<usize>>,
}

/// What a single move does that may lose these things.
fn tone_of(losses: Losses, unkept: Option<Unkept>) -> Tone {
    if !losses.are_none() {
        return Tone::Lost;
    }
    match unkept {
        Some(_) => Tone::Undescribed,
        None => Tone::Kept,
    }
}

/// Notes that this is done to the entry with this number.
fn note_tone(tones: &mut Vec<Tone>, number: usize, tone: Tone) {
    if let Some(noted) = tones.get_mut(number) {
        *noted = noted.or(tone);
    }
}

/// No tone for each of these entries.
fn no_tones(alloc: Global, rows: &[EntryRow]) -> Result<Vec<Tone>, AllocError> {
    let mut tones = Vec::new(alloc);
    for _ in rows {
        tones.push(Tone::Idle)?;
    }
    Ok(tones)
}

impl Tones {
    /// Notes what a single move does.
    fn note(&mut self, single: LinedSingle<'_>, tone: Tone) {
        let to = single.receiver.number;
        note_tone(&mut self.output, to, tone);
        match single.sent {
            Sent::Entry {
                side: Side::In,
                entry,
            } => {
                note_tone(&mut self.input, entry.number, tone);
                if let Some(partner) = self.partners.get_mut(to) {
                    if partner.is_none() {
                        *partner = Some(entry.number);
                    }
                }
            }
            Sent::Entry {
                side: Side::Out,
                ..
            }
            | Sent::Constant(_) => {}
        }
    }
}

/// What single moves do to the entries of both records.
///
/// # Errors
///
/// Where no memory is left.
pub(crate) fn tones_of(
    alloc: Global,
    input: &[EntryRow],
    output: &[EntryRow],
    singles: &[LinedSingle<'_>],
    losses: &[Losses],
    descriptions: &[Option<Unkept>],
) -> Result<Tones, AllocError> {
    let mut partners = Vec::new(alloc);
    for _ in output {
        partners.push(None)?;
    }
    let mut tones = Tones {
        input: no_tones(alloc, input)?,
        output: no_tones(alloc, output)?,
        partners,
    };
    for ((single, losses), unkept) in singles.iter().zip(losses.iter()).zip(descriptions.iter()) {
        tones.note(*single, tone_of(*losses, *unkept));
    }
    Ok(tones)
}
