//! Steps of single moves whose senders are read as their pictures say.

ghost use Rattle.std.specs.Prelude.{◌≡◌, ◌≤◌, false, length, IfOk, IfSome, IsSome};
ghost use Rattle.cob_move_steps.specs.Pictured.{CarriesPicturedFromTo, CarriesPicturedItems, HasNoPictured, HavePicturedStep, IsPicturedStep, IsReceivedPictured, KeepsPictured, MovesPictured, MovesPicturedLong, MovesPicturedToEdited, MovesPicturedToNumerals, MovesPicturedToWideEdited};
ghost use Rattle.cob_move_steps.specs.Pool.{AreOccupied, HaveNumberStep, MoveKinds};
ghost use Rattle.cob_move_receive.specs.Received.{outcome};

use crate::any_number_step::AnyNumberStep;
use crate::edit_step::EditStep;
use crate::long_step::LongStep;
use crate::numerals_step::NumeralsStep;
use crate::wide_edit_step::WideEditStep;
use cob_copybook_tree::{Item, Kind};
use std::alloc::{AllocError, Global};
use std::fmt;

/// Which step carries out a single move whose sender is read as its picture says.
#[derive(Clone, Copy)]
pub enum PicturedStep {
    /// The step of a number from one item to another that has this number among them.
    Number(usize),
    /// That of a number to an edited item.
    Edited(usize),
    /// That of a number to an edited item of more than sixteen bytes.
    WideEdited(usize),
    /// That of a number to characters.
    Numerals(usize),
    /// That of a number of any number of digits.
    Long(usize),
}

/// Steps of single moves whose senders are read as their pictures say. They become more, and none of them changes.
#[derive(Drop)]
pub struct PicturedSteps {
    alloc: Global,
    pub(crate) numbers: Vec<AnyNumberStep>,
    pub(crate) edits: Vec<EditStep>,
    pub(crate) wide_edits: Vec<WideEditStep>,
    pub(crate) numerals: Vec<NumeralsStep>,
    pub(crate) longs: Vec<LongStep>,
}

impl fmt::Debug for PicturedSteps {
    fn fmt<W: fmt::Write>(&self, f: &mut fmt::Formatter<W>) -> fmt::Result {
        let numbers = self.numbers.len();
        let edits = self.edits.len() + self.wide_edits.len();
        let numerals = self.numerals.len();
        let longs = self.longs.len();
        write!(
            f,
            "PicturedSteps {{ numbers: {numbers}, edits: {edits}, numerals: {numerals}, longs: {longs} }}"
        )
    }
}

impl PicturedSteps {
    /// No steps yet.
    pub fn new(alloc: Global) -> PicturedSteps
        ensures { HasNoPictured result }
    {
        PicturedSteps {
            alloc,
            numbers: Vec::new(alloc),
            edits: Vec::new(alloc),
            wide_edits: Vec::new(alloc),
            numerals: Vec::new(alloc),
            longs: Vec::new(alloc),
        }
    }

    /// Puts the step of a number behind those so far.
    ///
    /// # Errors
    ///
    /// Where no memory is left.
    fn put_number(&mut self, step: AnyNumberStep) -> Result<PicturedStep, AllocError>
        ensures step { IfOk result (CarriesPicturedItems self.new (MovesPictured step)) }
        ensures kept { KeepsPictured self.old self.new }
    {
        let number = self.numbers.len();
        self.numbers.push(step)?;
        Ok(PicturedStep::Number(number))
    }

    /// Puts the step of a number to an edited item behind those so far.
    ///
    /// # Errors
    ///
    /// Where no memory is left.
    fn put_edited(&mut self, step: EditStep) -> Result<PicturedStep, AllocError>
        ensures step { IfOk result (CarriesPicturedItems self.new (MovesPicturedToEdited step)) }
        ensures kept { KeepsPictured self.old self.new }
    {
        let number = self.edits.len();
        self.edits.push(step)?;
        Ok(PicturedStep::Edited(number))
    }

    /// Puts the step of a number to an edited item of more than sixteen bytes behind those so far.
    ///
    /// # Errors
    ///
    /// Where no memory is left.
    fn put_wide_edited(&mut self, step: WideEditStep) -> Result<PicturedStep, AllocError>
        ensures step { IfOk result (CarriesPicturedItems self.new
            (MovesPicturedToWideEdited step)) }
        ensures kept { KeepsPictured self.old self.new }
    {
        let number = self.wide_edits.len();
        self.wide_edits.push(step)?;
        Ok(PicturedStep::WideEdited(number))
    }

    /// Puts the step of a number to characters behind those so far.
    ///
    /// # Errors
    ///
    /// Where no memory is left.
    fn put_numerals(&mut self, step: NumeralsStep) -> Result<PicturedStep, AllocError>
        ensures step { IfOk result (CarriesPicturedItems self.new (MovesPicturedToNumerals step)) }
        ensures kept { KeepsPictured self.old self.new }
    {
        let number = self.numerals.len();
        self.numerals.push(step)?;
        Ok(PicturedStep::Numerals(number))
    }

    /// Puts the step of a number of any number of digits behind those so far.
    ///
    /// # Errors
    ///
    /// Where no memory is left.
    fn put_long(&mut self, step: LongStep) -> Result<PicturedStep, AllocError>
        ensures step { IfOk result (CarriesPicturedItems self.new (MovesPicturedLong step)) }
        ensures kept { KeepsPictured self.old self.new }
    {
        let number = self.longs.len();
        self.longs.push(step)?;
        Ok(PicturedStep::Long(number))
    }

    /// Makes the step of the move of one item to another ready.
    ///
    /// # Errors
    ///
    /// Where no memory is left.
    fn prepare_items(&mut self, from: &Item, to: &Item) -> Result<Option<PicturedStep>, AllocError>
        ensures step { IfOk result (λ found. IfSome found
            (CarriesPicturedFromTo self.new from.now to.now)) }
        ensures must { HaveNumberStep from.now to.now → IfOk result (λ found. IsSome found) }
        ensures kept { KeepsPictured self.old self.new }
    {
        if let Some(step) = AnyNumberStep::prepare(from, to) {
            return Ok(Some(self.put_number(step)?));
        }
        if let Some(step) = EditStep::prepare(self.alloc, from, to)? {
            return Ok(Some(self.put_edited(step)?));
        }
        if let Some(step) = WideEditStep::prepare(self.alloc, from, to)? {
            return Ok(Some(self.put_wide_edited(step)?));
        }
        if let Some(step) = NumeralsStep::prepare(from, to) {
            return Ok(Some(self.put_numerals(step)?));
        }
        match LongStep::prepare(self.alloc, from, to)? {
            Some(step) => Ok(Some(self.put_long(step)?)),
            None => Ok(None),
        }
    }

    /// Makes the step of the move of an entry, read as its picture says, to another ready, by what they describe and how many bytes they have.
    /// There is one where the sender is a number of any kind of storage, holds from 1 to 31 characters, or is edited, in at most 48 bytes, and the
    /// receiver is a number of any kind of storage, or edits one in at most 48 bytes; and where the sender is a number whose digits are at most 48
    /// characters, with a zero for each P at the right, and the receiver takes characters without insertions. The steps so far stay.
    ///
    /// # Errors
    ///
    /// Where no memory is left.
    pub fn prepare(
        &mut self,
        sender: &Kind,
        sent: u32,
        receiver: &Kind,
        received: u32,
    ) -> Result<Option<PicturedStep>, AllocError>
        requires { AreOccupied (record {
          sender = sender.now;
          sent = sent;
          receiver = receiver.now;
          received = received;
        }) }
        ensures step { IfOk result (λ found. IfSome found (IsPicturedStep self.new (record {
          sender = sender.now;
          sent = sent;
          receiver = receiver.now;
          received = received;
        }))) }
        ensures must { HavePicturedStep sender.now receiver.now
            → IfOk result (λ found. IsSome found) }
        ensures kept { KeepsPictured self.old self.new }
    {
        match sender {
            Kind::Group => Ok(None),
            Kind::Item(from) => match receiver {
                Kind::Group => Ok(None),
                Kind::Item(to) => self.prepare_items(from, to),
            },
        }
    }

    /// Moves the sender that ends bytes, read as its picture says, to a receiver's bytes: best the bytes of a record up to the sender's last.
    ///
    /// False where the sender's bytes represent no number: the receiver's bytes are as they were then.
    #[inline(always)]
    pub fn run(&self, step: PicturedStep, from: &[u8], to: &mut [u8]) -> bool
        requires { (k : MoveKinds) × IsPicturedStep self.now k step × (k.sent ≤ length from.now)
            × (length to.old ≡ k.received) }
        ensures gets { (k : MoveKinds) → IsPicturedStep self.now k step → k.sent ≤ length from.now
            → length to.old ≡ k.received
            → IsReceivedPictured k from.now (outcome result to.new) }
        ensures same { result ≡ false → to.new ≡ to.old }
    {
        match step {
            PicturedStep::Number(number) => self.numbers[number].run(from, to),
            PicturedStep::Edited(number) => self.edits[number].run(from, to),
            PicturedStep::WideEdited(number) => self.wide_edits[number].run(from, to),
            PicturedStep::Numerals(number) => self.numerals[number].run(from, to),
            PicturedStep::Long(number) => self.longs[number].run(from, to),
        }
    }
}
