//! One converter, and the runs that are tried on it, one after another. The converter has one owner, which prepares and drops it, and each call of
//! the library stands in one function that tells nothing of it, since a test is safe whatever came: so a test is proved soonest.

ghost use Rattle.std.specs.Prelude.{◌<◌};
ghost use Rattle.cob_records.specs.Forms.{HasBlockSize};

use cob_convert::{Cause, Converter, PrepareFault, RunFault, Side};
use cob_records::{Form, Limited, MemSink, MemSource, RecordFault};
use std::alloc::{AllocError, Global};
use std::process::Abort;

/// The texts that a converter is prepared from.
#[derive(Clone, Copy)]
pub(crate) struct Texts {
    pub(crate) in_book: &'static [u8],
    pub(crate) out_book: &'static [u8],
    pub(crate) moves: &'static [u8],
}

/// What is tried on a converter.
pub(crate) trait Trials {
    /// The first of them that did not come to what is expected.
    fn first_wrong(&self, converter: &mut Converter) -> Option<usize>;
}

/// What trials of a converter come to: the first that is wrong, or why there is no converter.
pub(crate) type Tried = Result<Option<usize>, PrepareFault>;

/// Prepares a converter and tries it.
fn tried_once<T: Trials>(
    alloc: Global,
    texts: &Texts,
    in_form: Form,
    out_form: Form,
    trials: &T,
) -> Tried
    requires in_block { HasBlockSize in_form }
    requires out_block { HasBlockSize out_form }
{
    let Texts {
        in_book,
        out_book,
        moves,
    } = *texts;
    let mut converter = Converter::prepare(alloc, in_book, out_book, moves, in_form, out_form)?;
    Ok(trials.first_wrong(&mut converter))
}

/// Prepares a converter and tries it. Where a request for memory is refused, as `rt try --test --fail-alloc` has it, `prepare` answers `Memory`, and
/// the next call succeeds.
pub(crate) fn tried<T: Trials>(
    alloc: Global,
    texts: &Texts,
    in_form: Form,
    out_form: Form,
    trials: &T,
) -> Tried
    requires in_block { HasBlockSize in_form }
    requires out_block { HasBlockSize out_form }
{
    match tried_once(alloc, texts, in_form, out_form, trials) {
        Err(PrepareFault::Memory) => tried_once(alloc, texts, in_form, out_form, trials),
        answer => answer,
    }
}

/// Looks whether trials come to this.
pub(crate) fn expect_tried(rt: &impl Abort, came: Tried, wanted: Tried) {
    assert_eq!(rt; came, wanted);
}

/// Looks whether none of the trials is wrong.
pub(crate) fn expect_none_wrong(rt: &impl Abort, first_wrong: Option<usize>) {
    assert_eq!(rt; first_wrong, None);
}

/// Prepares a converter and tries it, and looks whether each trial comes to what is expected.
pub(crate) fn expect_done<R: Abort, T: Trials>(
    rt: &R,
    alloc: Global,
    texts: &Texts,
    in_form: Form,
    out_form: Form,
    trials: &T,
)
    requires in_block { HasBlockSize in_form }
    requires out_block { HasBlockSize out_form }
{
    expect_tried(rt, tried(alloc, texts, in_form, out_form, trials), Ok(None));
}

/// As many bytes as no end here moves.
pub(crate) const ALL: u64 = 1000;

/// The most bytes that a sink here has room for.
pub(crate) const ROOM: usize = 77;

/// How a run ends.
#[derive(Clone, Copy)]
pub(crate) enum Ending {
    /// So many records were converted.
    Done(u64),
    /// The source fails at a record of this number.
    Unread(u64),
    /// The sink fails at this record, or at a block that begins with it, and took so many bytes of it.
    Unwritten(u64, usize),
    /// The sink is full at this record, or at a block that begins with it, and took so many bytes of it.
    Full(u64, usize),
    /// The number of this record is none.
    NoValue(u64),
}

/// A run: how many bytes the source gives and the sink takes before they fail, how many bytes the sink has room for, how the run ends, and how many
/// bytes were written.
pub(crate) type Row = (u64, u64, usize, Ending, usize);

/// What a run answers.
type Answer = Result<u64, RunFault>;

/// The stop of a run at a record, by a fault of its frame.
fn stopped(number: u64, side: Side, fault: RecordFault, written: usize) -> Answer {
    Err(RunFault {
        number,
        side,
        offset: 0,
        cause: Cause::Record(fault),
        written: written as u64,
    })
}

/// The stop of a run at a record whose number is none, three bytes behind its front.
fn no_value(number: u64, written: usize) -> Answer {
    Err(RunFault {
        number,
        side: Side::In,
        offset: 3,
        cause: Cause::NoValue,
        written: written as u64,
    })
}

/// The answer of a run that ends so, with so many bytes written.
fn answer_of(ending: Ending, written: usize) -> Answer {
    match ending {
        Ending::Done(records) => Ok(records),
        Ending::Unread(number) => stopped(number, Side::In, RecordFault::ReadFailed, written),
        Ending::Unwritten(number, taken) => {
            let fault = RecordFault::WriteFailed { taken };
            stopped(number, Side::Out, fault, written)
        }
        Ending::Full(number, taken) => {
            let fault = RecordFault::TookNothing { taken };
            stopped(number, Side::Out, fault, written)
        }
        Ending::NoValue(number) => no_value(number, written),
    }
}

/// Whether these bytes are those.
pub(crate) fn are_same(some: &[u8], others: &[u8]) -> bool {
    some == others
}

/// Whether these bytes are the first of others, so many.
pub(crate) fn are_front(bytes: &[u8], all: &[u8], count: usize) -> bool {
    bytes.len() == count && all.starts_with(bytes)
}

/// Runs over one input, each with what is written of it, where no end fails.
#[derive(Clone, Copy)]
pub(crate) struct Runs {
    pub(crate) input: &'static [u8],
    pub(crate) output: &'static [u8],
    pub(crate) rows: &'static [Row],
}

impl Runs {
    /// Runs over the ends of this row, which move so many bytes a call, and says whether the run answers and leaves what is expected.
    fn passes(&self, converter: &mut Converter, row: Row, piece: usize) -> bool
        requires { 0 < piece }
    {
        let (gives, takes, most, ending, written) = row;
        if most > ROOM {
            return false;
        }
        let mut room = [0u8; ROOM];
        let mut source = Limited::new(MemSource::new(self.input), piece, gives);
        let mut sink = Limited::new(MemSink::new(&mut room[..most]), piece, takes);
        let came = converter.run(&mut source, &mut sink);
        came == answer_of(ending, written) && are_front(sink.inner().taken(), self.output, written)
    }
}

impl Trials for Runs {
    fn first_wrong(&self, converter: &mut Converter) -> Option<usize> {
        for place in 0..self.rows.len() {
            let row = self.rows[place];
            if !(self.passes(converter, row, 1) && self.passes(converter, row, 100)) {
                return Some(place);
            }
        }
        None
    }
}

/// Trials, and then others.
#[derive(Drop)]
pub(crate) struct InTurn<T>(pub(crate) T, pub(crate) T);

impl<T: Trials> Trials for InTurn<T> {
    fn first_wrong(&self, converter: &mut Converter) -> Option<usize> {
        let first = self.0.first_wrong(converter);
        first.or(self.1.first_wrong(converter))
    }
}

/// A text, and then this byte up to a number of bytes.
pub(crate) fn padded(
    alloc: Global,
    text: &[u8],
    bytes: usize,
    with: u8,
) -> Result<Vec<u8>, AllocError> {
    let mut padded = Vec::from_slice(alloc, text)?;
    padded.resize(bytes, with)?;
    Ok(padded)
}
