ghost use Rattle.std.specs.Prelude.{◌≡◌, ◌<◌, ◌≤◌, IfOk, IfErr, OnOk, min, vec_len};
ghost use Rattle.cob_move_apply.specs.Prepared.{most_moves_told, single_moves};
ghost use Rattle.cob_records.specs.Device.{counted, Told};
ghost use Rattle.cob_move.specs.Paragraphs.{IsParagraphOf};
ghost use Rattle.cob_move_names.specs.Valued.{plain_names};
ghost use Rattle.cob_limits.specs.Limits.{longest_record};
ghost use Rattle.cob_convert_record.specs.Conversion.{conversion_by, in_length, out_length, Conversion as Meant, IsImage};
ghost use Rattle.cob_move_deeds.specs.Deeds.{Deeds, moves_of_deeds};
ghost use Rattle.cob_move_deeds.specs.Tests.{Test};
ghost use Rattle.cob_convert.specs.declared.fault.PrepareFault.TheVariants.{Memory};
ghost use Rattle.cob_convert.specs.Unique.{HasBytes};
ghost use Rattle.cob_records.specs.Forms.{FitsForm, HasBlockSize, outlet_of};
ghost use Rattle.cob_convert_record.specs.Rooms.{capacity_for};
ghost use Rattle.cob_convert.specs.Means.{Means, MeansBy, IsBlockRefusal, IsMovesRefusal, IsPrepareRefusal};

use crate::aside::{AsideFault, Tally, run_over_aside};
use crate::books;
use crate::fault::PrepareFault;
use crate::notes::Notes;
use crate::run::run_over;
use cob_codec::Reading;
use cob_convert_record::{Conversion, Room, image_of};
use cob_convert_stream::RunFault;
use cob_copybook::Book;
use cob_layout::Layout;
use cob_move::{ConditionNames, Paragraph};
use cob_records::{Form, Outlet, Sink, Source};
use std::alloc::{AllocError, Global};
use std::marker::Model;

/// What the runs of a conversion need: a record of each side, the frames that are held back, and room for what makes one record of the other.
#[derive(Drop)]
struct Buffers {
    input: Vec<u8>,
    output: Vec<u8>,
    outlet: Outlet,
    room: Room,
}

/// The buffers that the runs of a conversion need.
///
/// # Errors
///
/// Where no memory is left.
fn buffers_for(alloc: Global, conversion: &Conversion) -> Result<Buffers, AllocError>
    requires { FitsForm conversion.now.out_form (out_length conversion.now) }
    ensures input { IfOk result (λ made. vec_len made.input ≡ in_length conversion.now) }
    ensures output { IfOk result (λ made. vec_len made.output ≡ out_length conversion.now) }
    ensures outlet { IfOk result (λ made. made.outlet ≡ outlet_of conversion.now.out_form) }
    ensures room { IfOk result (λ made. made.room ≡ capacity_for conversion.now.records) }
    // Records of both sides have from 1 to 32,752 bytes.
    ensures records { IfOk result
        (λ _. HasBytes conversion.now.records.input × HasBytes conversion.now.records.output) }
{
    let input = vec![in alloc; 0u8; conversion.in_length() as usize]?;
    let output = vec![in alloc; 0u8; conversion.out_length() as usize]?;
    let outlet = Outlet::new(alloc, conversion.out_form())?;
    let room = Room::new(alloc, conversion)?;
    Ok(Buffers {
        input,
        output,
        outlet,
        room,
    })
}

/// A prepared conversion, with room for a record of each side and for all that a run needs.
#[derive(Drop)]
pub struct Converter {
    conversion: Conversion,
    buffers: Buffers,
}

impl Model for Converter {
    ghost use Rattle.std.specs.Prelude.{◌≡◌, vec_len};
    ghost use Rattle.cob_convert_record.specs.Rooms.{capacity_for};
    ghost use Rattle.cob_convert_record.specs.Conversion.{Conversion, in_length, out_length};
    ghost use Rattle.cob_records.specs.Forms.{FitsForm, outlet_of};
    ghost use Rattle.std.specs.Coded.{codes};
    ghost use Rattle.cob_convert_record.specs.contracts.conversion.Conversion as e;

    ghost Value = { Conversion };

    ghost coded = { Prim.hlevel (codes, e.the_row.coded) };

    ghost view = { λ c. c.conversion };

    ghost invariant = { λ c.
        (vec_len c.buffers.input ≡ in_length c.conversion)
        × (vec_len c.buffers.output ≡ out_length c.conversion)
        × (c.buffers.room ≡ capacity_for c.conversion.records)
        × (c.buffers.outlet ≡ outlet_of c.conversion.out_form)
        × FitsForm c.conversion.out_form (out_length c.conversion) };
}

/// The layout of a record, whose book is let go.
///
/// # Errors
///
/// Where no memory is left.
fn layout_of(alloc: Global, book: Book) -> Result<Layout, AllocError>
    ensures { IfOk result (λ l. l ≡ book) }
{
    Layout::of(alloc, &book)
}

/// The layout of an output record and the storage that it begins from, whose book is let go.
///
/// # Errors
///
/// Where no memory is left.
fn layout_and_image(alloc: Global, book: Book) -> Result<(Layout, Vec<u8>), AllocError>
    ensures layout { IfOk result (λ made. made.0 ≡ book) }
    ensures image { IfOk result (λ made. IsImage made.0 made.1.items) }
{
    let layout = Layout::of(alloc, &book)?;
    let image = image_of(alloc, &layout, &book)?;
    Ok((layout, image))
}

/// The conversion that a paragraph says between the records of two books. Both are let go before the paragraph is read.
///
/// # Errors
///
/// [`PrepareFault::Moves`], [`PrepareFault::Memory`].
#[tactic(auto, using(crate::proofs::Refused::paragraph_refused))]
fn conversion_of(
    alloc: Global,
    in_form: Form,
    out_form: Form,
    input: Book,
    output: Book,
    names: ConditionNames<'_>,
    moves: &[u8],
) -> Result<Conversion, PrepareFault>
    requires in_block { HasBlockSize in_form }
    requires out_block { HasBlockSize out_form }
    ensures forms { IfOk result (λ made. (made.in_form ≡ in_form) × (made.out_form ≡ out_form)) }
    ensures input { IfOk result (λ made. made.records.input ≡ input) }
    ensures output { IfOk result (λ made. made.records.output ≡ output) }
    ensures paragraph { IfOk result (λ made. IsParagraphOf moves.now input output (plain_names names.entry) made.deeds) }
    ensures only { (d : Deeds Test) → IsParagraphOf moves.now input output (plain_names names.entry) d
        → IfErr result (λ fault. fault ≡ Memory) }
    ensures refused { IfErr result (λ fault. IsMovesRefusal fault moves.now input output (plain_names names.entry)) }
{
    let in_layout = layout_of(alloc, input)?;
    let (out_layout, image) = layout_and_image(alloc, output)?;
    let paragraph = Paragraph::read(alloc, &in_layout, &out_layout, names, moves)?;
    Ok(Conversion::new(
        in_form,
        out_form,
        in_layout,
        out_layout,
        image,
        paragraph.into_deeds(),
    ))
}

/// Whether the blocks of this form, if there are blocks, have room for the frame of a record of the greatest length.
///
/// # Errors
///
/// [`PrepareFault::Block`].
fn check_block(form: Form, greatest: u16) -> Result<(), PrepareFault>
    requires { greatest ≤ longest_record }
    ensures fits { OnOk result (FitsForm form greatest) }
    ensures refused { IfErr result (λ fault. IsBlockRefusal fault form greatest) }
{
    match form {
        Form::Fixed => Ok(()),
        Form::Variable => Ok(()),
        Form::Blocked(size) => {
            let least = greatest + 8;
            if size < least {
                return Err(PrepareFault::Block { least });
            }
            Ok(())
        }
    }
}

impl Converter {
    ghost use Rattle.cob_convert.specs.Run.{CountsReads, Ran, is_write_stop, is_write_error_stop};
    ghost use Rattle.cob_convert.specs.Converted.{Writes};
    ghost use Rattle.cob_convert.specs.Aside.{CountsUnlessSink, RanAside, is_aside_error};
    ghost use Rattle.cob_convert.specs.Aside.{is_aside_fault, is_read_fault, is_sink_error, is_sink_fault};

    /// A converter for a conversion, with all the room that its runs need.
    fn of(alloc: Global, conversion: Conversion) -> Result<Converter, AllocError>
        requires { FitsForm conversion.out_form (out_length conversion) }
        ensures made { IfOk result (λ made. made ≡ conversion) }
        ensures records { IfOk result
            (λ made. HasBytes made.records.input × HasBytes made.records.output) }
    {
        match buffers_for(alloc, &conversion) {
            Ok(buffers) => Ok(Converter {
                conversion,
                buffers,
            }),
            Err(full) => Err(full),
        }
    }

    /// Reads the copybooks of the two records and the paragraph of MOVE statements, and makes a converter of them.
    ///
    /// # Errors
    /// The first text that breaks a rule: [`PrepareFault::InBook`], [`PrepareFault::OutBook`], [`PrepareFault::Moves`]. Blocks of the output
    /// that have no room for its longest record: [`PrepareFault::Block`]. [`PrepareFault::Memory`].
    pub fn prepare(
        alloc: Global,
        in_book: &[u8],
        out_book: &[u8],
        moves: &[u8],
        in_form: Form,
        out_form: Form,
    ) -> Result<Converter, PrepareFault>
        requires in_block { HasBlockSize in_form }
        requires out_block { HasBlockSize out_form }
        // What is prepared is what the texts mean, with the forms that were handed in.
        ensures means { IfOk result (λ made. Means in_book.now out_book.now moves.now made) }
        ensures forms { IfOk result
            (λ made. (made.in_form ≡ in_form) × (made.out_form ≡ out_form)) }
        // Records of both sides have from 1 to 32,752 bytes.
        ensures records { IfOk result
            (λ made. HasBytes made.records.input × HasBytes made.records.output) }
        // Three texts that say a conversion are prepared, memory aside, where the blocks of the output have room for its records.
        ensures only { (c : Meant) → Means in_book.now out_book.now moves.now c
            → FitsForm out_form (out_length c) → IfErr result (λ fault. fault ≡ Memory) }
        // A refusal names a text, and a rule that it breaks; or the blocks of the output.
        ensures refused { IfErr result
            (λ fault. IsPrepareRefusal out_form fault in_book.now out_book.now moves.now) }
    {
        let input = books::in_book(alloc, in_book)?;
        let output = books::out_book(alloc, out_book)?;
        let in_names = books::in_names(alloc, in_book)?;
        let out_names = books::out_names(alloc, out_book)?;
        let names = ConditionNames {
            input: in_names.as_slice(),
            output: out_names.as_slice(),
        };
        let conversion = conversion_of(alloc, in_form, out_form, input, output, names, moves)?;
        check_block(out_form, conversion.out_length())?;
        Ok(Converter::of(alloc, conversion)?)
    }

    /// The same converter, with the binary senders of its moves read so.
    fn with_reading(self, reading: Reading) -> Converter
        ensures { result ≡ conversion_by reading self }
    {
        Converter {
            conversion: self.conversion.with_reading(reading),
            buffers: self.buffers,
        }
    }

    /// Makes a converter as [`Converter::prepare`] does, whose binary senders are read so: as their pictures say, or as the numbers of all
    /// their bytes.
    ///
    /// # Errors
    /// Those of [`Converter::prepare`].
    pub fn prepare_with(
        alloc: Global,
        in_book: &[u8],
        out_book: &[u8],
        moves: &[u8],
        in_form: Form,
        out_form: Form,
        reading: Reading,
    ) -> Result<Converter, PrepareFault>
        requires in_block { HasBlockSize in_form }
        requires out_block { HasBlockSize out_form }
        // What is prepared is what the texts mean by this reading, with the forms that were handed in.
        ensures means { IfOk result
            (λ made. MeansBy reading in_book.now out_book.now moves.now made) }
        ensures forms { IfOk result
            (λ made. (made.in_form ≡ in_form) × (made.out_form ≡ out_form)) }
        // Records of both sides have from 1 to 32,752 bytes.
        ensures records { IfOk result
            (λ made. HasBytes made.records.input × HasBytes made.records.output) }
        // Three texts that say a conversion are prepared, memory aside, where the blocks of the output have room for its records.
        ensures only { (c : Meant) → Means in_book.now out_book.now moves.now c
            → FitsForm out_form (out_length c) → IfErr result (λ fault. fault ≡ Memory) }
        // A refusal names a text, and a rule that it breaks; or the blocks of the output.
        ensures refused { IfErr result
            (λ fault. IsPrepareRefusal out_form fault in_book.now out_book.now moves.now) }
    {
        let pictured = Converter::prepare(alloc, in_book, out_book, moves, in_form, out_form)?;
        Ok(pictured.with_reading(reading))
    }

    /// What is done to each record.
    pub fn conversion(&self) -> &Conversion
        ensures { result.now ≡ self.now }
    {
        &self.conversion
    }

    /// How many bytes an input record has at most.
    pub fn in_length(&self) -> u16
        ensures value { result ≡ in_length self.now }
        ensures some { 0 < result }
        ensures most { result ≤ longest_record }
    {
        self.conversion.in_length()
    }

    /// How many bytes an output record has at most.
    pub fn out_length(&self) -> u16
        ensures value { result ≡ out_length self.now }
        ensures some { 0 < result }
        ensures most { result ≤ longest_record }
    {
        self.conversion.out_length()
    }

    /// How many single moves there may be, each of a sender to one of its receivers, and each turn of a loop with its own; the greatest number of 32 bits
    /// where there are more.
    pub fn moves(&self) -> u32
        ensures { result ≡ min (single_moves (moves_of_deeds self.now.deeds)) most_moves_told }
    {
        self.conversion.single_moves()
    }

    /// Converts the records of a source, one after another, up to its end or the first stop, and answers how
    /// many it converted. It asks for no memory, which tests show. After a stop the converter is as `prepare` left it.
    pub fn run<R: Source, W: Sink>(&mut self, source: &mut R, sink: &mut W) -> Result<u64, RunFault>
        // Where no call of an end failed and the source tells its bytes: what is written is the conversion of what came.
        ensures headline { R.failures source.new ≡ R.failures source.old
            → W.failures sink.new ≡ W.failures sink.old → Told (R.coming source.old) (R.coming source.new)
            (λ bytes rest. Writes self.old result bytes rest (W.taken sink.old) (W.taken sink.new)) }
        // Also where a call failed: the records before the stop were converted, and nothing past its frame was read.
        ensures ran { Told (R.coming source.old) (R.coming source.new) (λ bytes rest.
            Ran self.old result bytes rest (W.taken sink.old) (W.taken sink.new)) }
        // A read failed exactly where that is the answer (F5), or in form b a failed write in its place. A write failed or took
        // nothing exactly where one of these is (F6, F7), and it failed exactly where that is (F6).
        ensures reads { CountsReads self.old.out_form result
            (R.failures source.old) (R.failures source.new) }
        ensures writes { W.failures sink.new
            ≡ counted (is_write_stop result) (W.failures sink.old) }
        ensures errors { W.errors sink.new
            ≡ counted (is_write_error_stop result) (W.errors sink.old) }
        ensures same { self.new ≡ self.old }
    {
        run_over(
            &self.conversion,
            &mut self.buffers.input,
            &mut self.buffers.output,
            &mut self.buffers.outlet,
            &mut self.buffers.room,
            source,
            sink,
        )
    }

    /// Converts the records of a source, one after another, sets aside those that are rejected, as they came, and notes why: those that came whole
    /// and aren't of the layout, or whose conversion stops. It goes up to the end of the source, a stop for another reason, or the record behind
    /// `most` rejected ones, and answers how many it converted and how many it rejected. Each record that came stands in one of the two outputs, in
    /// order. After a stop the converter is as `prepare` left it.
    ///
    /// # Errors
    ///
    /// [`AsideFault`]: the record and the device where the run stopped.
    pub fn run_aside<R: Source, W: Sink, A: Sink, N: Notes>(
        &mut self,
        source: &mut R,
        sink: &mut W,
        aside: &mut A,
        notes: &mut N,
        most: u64,
    ) -> Result<Tally, AsideFault>
        // The records that came, what became of each, and what was written, set aside and noted of them; and how the run ended, also where a call
        // failed. Nothing past the frame of the last record was read.
        ensures ran { Told (R.coming source.old) (R.coming source.new) (λ bytes rest.
            RanAside self.old most result bytes rest
            (record { sink = W.taken sink.old; aside = A.taken aside.old; notes = N.told notes.old })
            (record { sink = W.taken sink.new; aside = A.taken aside.new; notes = N.told notes.new })) }
        // A write of what records become failed or took nothing exactly where that is the answer (F6, F7), and it failed exactly where that is (F6).
        // The other ends failed exactly where that is the answer, or in form b a failed write in its place.
        ensures reads { CountsUnlessSink self.old.out_form result (is_read_fault result)
            (R.failures source.old) (R.failures source.new) }
        ensures writes { W.failures sink.new
            ≡ counted (is_sink_fault result) (W.failures sink.old) }
        ensures errors { W.errors sink.new ≡ counted (is_sink_error result) (W.errors sink.old) }
        ensures aside_writes { CountsUnlessSink self.old.out_form result (is_aside_fault result)
            (A.failures aside.old) (A.failures aside.new) }
        ensures aside_errors { CountsUnlessSink self.old.out_form result (is_aside_error result)
            (A.errors aside.old) (A.errors aside.new) }
        ensures same { self.new ≡ self.old }
    {
        run_over_aside(
            &self.conversion,
            &mut self.buffers.input,
            &mut self.buffers.output,
            &mut self.buffers.outlet,
            &mut self.buffers.room,
            source,
            sink,
            aside,
            notes,
            most,
        )
    }
}
