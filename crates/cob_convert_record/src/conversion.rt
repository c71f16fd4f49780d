//! The conversion of one record.

ghost use Rattle.std.specs.Prelude.{◌≡◌, ◌<◌, ◌≤◌, false, length, min, take, IfOk, IfErr, IfSome, OnOk};
ghost use Rattle.cob_limits.specs.Limits.{longest_record};
ghost use Rattle.cob_layout.specs.Storage.{greatest_length};
ghost use Rattle.cob_convert_record.specs.Conversion.{IsImage};

use crate::lengths::{judge_kept, kept_output_length};
use crate::rejection::Rejection;
use crate::room::Room;
use cob_codec::Reading;
use cob_convert_stream::{Reason, judge, next_whole, read_record, sized_are_storages};
use cob_move_apply::{Book, Layout, Scratch, Stop};
use cob_move_deeds::ReadyDeeds;
use cob_move_initial::initial;
use cob_records::{Form, Source};
use std::alloc::{AllocError, Global};
use std::marker::Model;

/// What is done to each record of a stream: the forms in which records come and go, the layouts of both records, what is done between them, and the
/// storage that each output record begins from.
#[derive(Drop)]
pub struct Conversion {
    in_form: Form,
    out_form: Form,
    input: Layout,
    output: Layout,
    deeds: ReadyDeeds,
    image: Vec<u8>,
}

impl Model for Conversion {
    ghost use Rattle.std.specs.Prelude.{◌≡◌, length, List};
    ghost use Rattle.cob_layout.specs.Storage.{greatest_length};
    ghost use Rattle.cob_move_initial.specs.Initial.{IsInitial};
    ghost use Rattle.cob_records.specs.Forms.{HasBlockSize};
    ghost use Rattle.cob_convert_record.specs.Conversion.{Conversion};
    ghost use Rattle.cob_move_deeds.specs.Codes.{coded_deeds};
    ghost use Rattle.cob_move_deeds.specs.Prepared.{AreDeedsPrepared, HaveAllMoves, deeds_of};
    ghost use Rattle.std.specs.Coded.{Coded, codes};
    ghost use Rattle.cob_move_data.specs.Moves.{Move};
    ghost use Rattle.cob_move_deeds.specs.TestCodes.{ConditionPart, coded_test};
    ghost use Rattle.cob_move_deeds.specs.Tests.{Past, Test};
    ghost use Rattle.cob_copybook.specs.Codes.{coded_forest};

    ghost Value = { Conversion };

    ghost coded = { let ms : Coded (List Move) = Prim.hlevel (codes, coded_forest) in
        let bounds : Coded Past = Prim.hlevel (codes, coded_forest) in
        let parts : Coded ConditionPart = Prim.hlevel (codes, coded_forest) in
        Prim.hlevel (codes, coded_forest, coded_deeds {T = Test} ms (coded_test bounds parts)) };

    ghost view = { λ c. record {
      in_form = c.in_form;
      out_form = c.out_form;
      records = record { input = c.input; output = c.output };
      deeds = deeds_of (record { input = c.input; output = c.output }) c.deeds;
    } };

    ghost invariant = { λ c.
        AreDeedsPrepared (record { input = c.input; output = c.output }) c.deeds
        × HaveAllMoves (record { input = c.input; output = c.output }) c.deeds
        × IsInitial c.output c.image.items
        × (length c.image.items ≡ greatest_length c.output)
        × HasBlockSize c.in_form
        × HasBlockSize c.out_form };
}

/// The storage that each output record of this layout begins from. The book is the layout's.
///
/// # Errors
///
/// Where no memory is left.
pub fn image_of(alloc: Global, layout: &Layout, book: &Book) -> Result<Vec<u8>, AllocError>
    requires book { book.now ≡ layout.now }
    ensures { IfOk result (λ image. IsImage layout.now image.items) }
{
    let mut image = vec![in alloc; 0u8; usize::from(layout.greatest())]?;
    initial(layout, book, image.as_mut_slice());
    Ok(image)
}

impl Conversion {
    ghost use Rattle.cob_records.specs.Forms.{HasBlockSize};
    ghost use Rattle.cob_records.specs.Frame.{IsRecord};
    ghost use Rattle.cob_move_apply.specs.Prepared.{most_moves_told, single_moves};
    ghost use Rattle.cob_move_deeds.specs.Deeds.{moves_of_deeds};
    ghost use Rattle.cob_move_deeds.specs.Prepared.{AreDeedsPrepared, HaveAllMoves, deeds_of};
    ghost use Rattle.cob_move_apply.specs.Room.{room_of};
    ghost use Rattle.cob_layout.specs.Kept.{AreKeptOf};
    ghost use Rattle.cob_layout.specs.Storage.{IsStorage};
    ghost use Rattle.cob_move_initial.specs.Initial.{IsInitial};
    ghost use Rattle.cob_convert_record.specs.Conversion.{HasImage, conversion_by, conversion_for, in_length, out_length};
    ghost use Rattle.cob_move_data.specs.Moves.{AreMoves};
    ghost use Rattle.cob_records.specs.Device.{Told, counted};
    ghost use Rattle.cob_convert_stream.specs.Input.{IsInputReason, IsJudged, ReadsRecord};
    ghost use Rattle.cob_convert_stream.specs.Reasons.{is_read_cause, is_refused_for, is_write_cause};
    ghost use Rattle.cob_convert_stream.specs.Sizes.{IsSized};
    ghost use Rattle.cob_convert_stream.specs.Whole.{IsMisfitReason, IsWholeRecord, ReadsWhole};
    ghost use Rattle.cob_convert_record.specs.Becoming.{Becomes, StopsAt};
    ghost use Rattle.cob_convert_record.specs.Rejecting.{BecomesWhole, IsRejectedFor};
    ghost use Rattle.cob_convert_record.specs.Rooms.{capacity_for};

    /// The conversion of records of these forms and layouts by these deeds, whose output records begin from this storage: [`image_of`] makes it.
    pub fn new(
        in_form: Form,
        out_form: Form,
        input: Layout,
        output: Layout,
        image: Vec<u8>,
        deeds: ReadyDeeds,
    ) -> Conversion
        requires in_block { HasBlockSize in_form }
        requires out_block { HasBlockSize out_form }
        requires deeds { AreDeedsPrepared (record { input = input; output = output }) deeds }
        requires whole { HaveAllMoves (record { input = input; output = output }) deeds }
        requires image { IsImage output image.items }
        ensures { result ≡ conversion_for in_form out_form
            (record { input = input; output = output }) deeds }
    {
        Conversion {
            in_form,
            out_form,
            input,
            output,
            deeds,
            image,
        }
    }

    /// The same conversion, with the binary senders of its moves read so. It takes no memory.
    pub fn with_reading(self, reading: Reading) -> Conversion
        ensures { result ≡ conversion_by reading self }
    {
        Conversion {
            in_form: self.in_form,
            out_form: self.out_form,
            input: self.input,
            output: self.output,
            deeds: self.deeds.with_reading(reading),
            image: self.image,
        }
    }

    /// The form in which records come.
    pub fn in_form(&self) -> Form
        ensures value { result ≡ self.now.in_form }
        ensures block { HasBlockSize result }
    {
        self.in_form
    }

    /// The form in which what they become goes out.
    pub fn out_form(&self) -> Form
        ensures value { result ≡ self.now.out_form }
        ensures block { HasBlockSize result }
    {
        self.out_form
    }

    /// The layouts of the input record and of the output record.
    pub fn layouts(&self) -> (&Layout, &Layout)
        ensures { self.now.records ≡ record { input = result.0.now; output = result.1.now } }
    {
        (&self.input, &self.output)
    }

    /// What is done, whose moves are moves between its records. Its output record has a storage before the first of them.
    pub fn deeds(&self) -> &ReadyDeeds
        ensures value { deeds_of self.now.records result.now ≡ self.now.deeds }
        ensures prepared { AreDeedsPrepared self.now.records result.now }
        ensures whole { HaveAllMoves self.now.records result.now }
        ensures between { AreMoves self.now.records (moves_of_deeds self.now.deeds) }
        ensures image { HasImage self.now.records.output }
    {
        &self.deeds
    }

    /// How many bytes an input record has at most.
    pub fn in_length(&self) -> u16
        ensures value { result ≡ in_length self.now }
        ensures some { 0 < result }
        ensures most { result ≤ longest_record }
    {
        self.input.greatest()
    }

    /// How many bytes an output record has at most.
    pub fn out_length(&self) -> u16
        ensures value { result ≡ out_length self.now }
        ensures some { 0 < result }
        ensures most { result ≤ longest_record }
    {
        self.output.greatest()
    }

    /// How many single moves there may be, each of a sender to one of its receivers, and each turn of a loop with its own; the greatest number of 32 bits where there are more.
    pub fn single_moves(&self) -> u32
        ensures { result ≡ min (single_moves (moves_of_deeds self.now.deeds)) most_moves_told }
    {
        self.deeds.single_moves()
    }

    /// Reads the next input record into the front of the slice, judges it by the input layout, and answers how many bytes it has, or `None`
    /// where no byte is left. `left` is what the open block still holds: 0 before the first record, and always without blocks. It asks for no
    /// memory, which tests show.
    ///
    /// # Errors
    ///
    /// The fault of a frame that can't be read; in forms v and b a count of the record that isn't valid, or a length other than that which its counts
    /// give.
    #[inline(always)]
    pub fn next_input<R: Source>(
        &self,
        source: &mut R,
        slot: &mut [u8],
        left: &mut u16,
        room: &mut Room,
    ) -> Result<Option<usize>, Reason>
        requires slot { length slot.old ≡ in_length self.now }
        requires room { room.old ≡ capacity_for self.now.records }
        // Where the source tells its bytes: which of them were read, and what they are.
        ensures reads { Told (R.coming source.old) (R.coming source.new)
            (ReadsRecord self.now.in_form self.now.records.input left.old slot.new result left.new) }
        // At any source: what is answered is a record of the input that stands in the slice, or why the next one is refused, which is no
        // fault of writing.
        ensures judged { IfOk result (λ found. IfSome found
            (IsJudged self.now.in_form self.now.records.input slot.new)) }
        ensures reason { IfErr result
            (IsInputReason self.now.in_form self.now.records.input slot.new) }
        ensures kind { IfErr result (λ why. is_write_cause why.cause ≡ false) }
        // A read failed exactly where that is the reason.
        ensures cause { R.failures source.new
            ≡ counted (is_refused_for is_read_cause result) (R.failures source.old) }
        ensures room { room.new ≡ room.old }
    {
        let counts = &mut room.in_counts;
        read_record(source, &self.input, self.in_form, slot, left, counts)
    }

    /// Reads the next input record into the front of the slice as it came, whole in its frame, and answers how many bytes it has, or `None` where no
    /// byte is left. Whether it is one of the input layout is for [`Conversion::judge`] to say. `left` is what the open block still holds: 0 before
    /// the first record, and always without blocks. It asks for no memory.
    ///
    /// # Errors
    ///
    /// The fault of a frame that can't be read.
    #[inline(always)]
    pub fn next_whole<R: Source>(
        &self,
        source: &mut R,
        slot: &mut [u8],
        left: &mut u16,
    ) -> Result<Option<usize>, Reason>
        requires slot { length slot.old ≡ in_length self.now }
        ensures reads { Told (R.coming source.old) (R.coming source.new)
            (ReadsWhole self.now.in_form self.now.records.input left.old slot.new result left.new) }
        ensures whole { IfOk result (λ found. IfSome found
            (IsWholeRecord self.now.in_form self.now.records.input slot.new)) }
        ensures kind { IfErr result (λ why. is_write_cause why.cause ≡ false) }
        ensures cause { R.failures source.new
            ≡ counted (is_refused_for is_read_cause result) (R.failures source.old) }
    {
        next_whole(source, &self.input, self.in_form, slot, left)
    }

    /// Judges an input record that came whole by the input layout, as [`Conversion::next_input`] does.
    ///
    /// # Errors
    ///
    /// In forms v and b a count of the record that isn't valid, or a length other than that which its counts give.
    pub fn judge(&self, input: &[u8], room: &mut Room) -> Result<(), Reason>
        requires record { IsRecord self.now.in_form (in_length self.now) input.now }
        requires room { room.old ≡ capacity_for self.now.records }
        ensures sized { OnOk result (IsSized self.now.in_form self.now.records.input input.now) }
        ensures misfit { IfErr result
            (IsMisfitReason self.now.in_form self.now.records.input input.now) }
        ensures room { room.new ≡ room.old }
    {
        judge(&self.input, self.in_form, input, &mut room.in_counts)
    }

    /// Begins an output record: its storage holds its initial values, and nothing of a record before.
    #[inline(always)]
    fn begin(&self, output: &mut [u8])
        requires { length output.old ≡ out_length self.now }
        ensures { IsInitial self.now.records.output output.new }
    {
        output.copy_from_slice(self.image.as_slice());
    }

    /// Makes the output record of an input record: from the initial storage, by each move and each test in turn. The answer is how many bytes of the storage
    /// are written. It asks for no memory, which tests show.
    ///
    /// # Errors
    ///
    /// The first move or test that stops; or behind all of them the first count of the output that isn't valid.
    #[inline(always)]
    pub fn convert(&self, input: &[u8], output: &mut [u8], room: &mut Room) -> Result<usize, Stop>
        requires input { IsStorage self.now.records.input input.now }
        requires output { length output.old ≡ out_length self.now }
        requires room { room.old ≡ capacity_for self.now.records }
        ensures size { IfOk result
            (λ made. (0 < made) × (made ≤ length output.new) × (made ≤ longest_record)) }
        ensures converts { IfOk result (λ made. Becomes self.now input.now (take made output.new)) }
        ensures stops { IfErr result (λ stop. StopsAt self.now input.now stop) }
        ensures room { room.new ≡ room.old }
    {
        room.scratch.forget_input();
        self.convert_kept(input, output, &mut room.scratch)
    }

    /// Makes the output record of an input record, as [`Conversion::convert`] does. What the room keeps of the input's counts is that of this input, and
    /// is not read again, nor is what it keeps of the output's.
    ///
    /// # Errors
    ///
    /// Those of [`Conversion::convert`].
    #[inline(always)]
    fn convert_kept(
        &self,
        input: &[u8],
        output: &mut [u8],
        scratch: &mut Scratch,
    ) -> Result<usize, Stop>
        requires input { IsStorage self.now.records.input input.now }
        requires output { length output.old ≡ out_length self.now }
        requires room { scratch.old.room ≡ room_of self.now.records }
        requires kept { AreKeptOf self.now.records.input input.now scratch.old.kept_input }
        ensures size { IfOk result
            (λ made. (0 < made) × (made ≤ length output.new) × (made ≤ longest_record)) }
        ensures converts { IfOk result (λ made. Becomes self.now input.now (take made output.new)) }
        ensures stops { IfErr result (λ stop. StopsAt self.now input.now stop) }
        ensures room { scratch.new.room ≡ scratch.old.room }
    {
        self.begin(output);
        self.deeds
            .apply_kept(&self.input, &self.output, input, output, scratch)?;
        kept_output_length(&self.output, self.out_form, output, scratch)
    }

    /// Judges an input record that came whole, and makes the output record of one that is of the input layout: what [`Conversion::judge`] and then
    /// [`Conversion::convert`] answer. It asks for no memory.
    ///
    /// # Errors
    ///
    /// Why the record is rejected: it isn't one of the input layout, or its conversion stops.
    #[inline(always)]
    pub fn convert_whole(
        &self,
        input: &[u8],
        output: &mut [u8],
        room: &mut Room,
    ) -> Result<usize, Rejection>
        requires record { IsRecord self.now.in_form (in_length self.now) input.now }
        requires output { length output.old ≡ out_length self.now }
        requires room { room.old ≡ capacity_for self.now.records }
        ensures size { IfOk result
            (λ made. (0 < made) × (made ≤ length output.new) × (made ≤ longest_record)) }
        ensures converts { IfOk result
            (λ made. BecomesWhole self.now input.now (take made output.new)) }
        ensures rejects { IfErr result (IsRejectedFor self.now input.now) }
        ensures room { room.new ≡ room.old }
    {
        // For the moves: what is one of the layout's records holds a record of it.
        sized_are_storages();
        if let Err(why) = judge_kept(&self.input, self.in_form, input, &mut room.scratch) {
            return Err(Rejection::Misfit(why));
        }
        match self.convert_kept(input, output, &mut room.scratch) {
            Ok(made) => Ok(made),
            Err(stop) => Err(Rejection::Stopped(stop)),
        }
    }
}
