//! Steps of single moves, one for each move that has one.

ghost use Rattle.std.specs.Prelude.{◌≡◌, ◌≤◌, false, length, Some, IfOk, IfSome, IsSome};
ghost use Rattle.cob_copybook_tree.specs.Items.{storage_kind};
ghost use Rattle.cob_copybook_tree.specs.Storage.{is_read_whole};
ghost use Rattle.cob_move_steps.specs.Pool.{AreOccupied, CarriesFromTo, CarriesItems, HasNoSteps, HaveItemStep, HaveNumberStep, HaveStep, IsMoveStep, IsReceived, KeepsSteps, MoveKinds, MovesAnyNumber, MovesLong, MovesNumber, MovesText, MovesToEdited, MovesToNumerals, MovesToWideEdited, MovesWide, PutsCharacters};
ghost use Rattle.cob_move_steps.specs.declared.pool.MoveStep.TheVariants.{Characters};
ghost use Rattle.cob_move_receive.specs.Received.{outcome};

use crate::any_number_step::AnyNumberStep;
use crate::characters_step::CharactersStep;
use crate::edit_step::EditStep;
use crate::long_step::LongStep;
use crate::numerals_step::NumeralsStep;
use crate::step::NumberStep;
use crate::text_step::TextStep;
use crate::wide_edit_step::WideEditStep;
use crate::wide_step::WideStep;
use cob_copybook_tree::{Item, Kind};
use std::alloc::{AllocError, Global};
use std::fmt;

/// Which step carries out a single move.
#[derive(Clone, Copy)]
pub enum MoveStep {
    /// The step of a number from one item to another that has this number among them.
    Number(usize),
    /// That of a number to an item of more than sixteen digits.
    Wide(usize),
    /// That of a number that an item of any kind gives to one of any kind.
    AnyNumber(usize),
    /// That of a number to an edited item.
    Edited(usize),
    /// That of a number to an edited item of more than sixteen bytes.
    WideEdited(usize),
    /// That of a number to characters.
    Numerals(usize),
    /// That of the number of an edited item.
    Text(usize),
    /// That of a number of any number of digits.
    Long(usize),
    /// The step of characters, as it is.
    Characters(CharactersStep),
}

/// Steps of single moves. They become more, and none of them changes.
#[derive(Drop)]
pub struct MoveSteps {
    alloc: Global,
    pub(crate) numbers: Vec<NumberStep>,
    pub(crate) wides: Vec<WideStep>,
    pub(crate) any_numbers: Vec<AnyNumberStep>,
    pub(crate) edits: Vec<EditStep>,
    pub(crate) wide_edits: Vec<WideEditStep>,
    pub(crate) numerals: Vec<NumeralsStep>,
    pub(crate) texts: Vec<TextStep>,
    pub(crate) longs: Vec<LongStep>,
}

impl fmt::Debug for MoveSteps {
    fn fmt<W: fmt::Write>(&self, f: &mut fmt::Formatter<W>) -> fmt::Result {
        let numbers = self.numbers.len();
        let wides = self.wides.len();
        let any_numbers = self.any_numbers.len();
        let edits = self.edits.len() + self.wide_edits.len();
        let numerals = self.numerals.len();
        let texts = self.texts.len();
        let longs = self.longs.len();
        write!(
            f,
            "MoveSteps {{ numbers: {numbers}, wides: {wides}, any_numbers: {any_numbers}, edits: {edits}, numerals: {numerals}, texts: {texts}, longs: {longs} }}"
        )
    }
}

impl MoveSteps {
    /// No steps yet.
    pub fn new(alloc: Global) -> MoveSteps
        ensures { HasNoSteps result }
    {
        MoveSteps {
            alloc,
            numbers: Vec::new(alloc),
            wides: Vec::new(alloc),
            any_numbers: Vec::new(alloc),
            edits: Vec::new(alloc),
            wide_edits: Vec::new(alloc),
            numerals: Vec::new(alloc),
            texts: Vec::new(alloc),
            longs: Vec::new(alloc),
        }
    }

    /// Puts the step of a number behind those so far.
    ///
    /// # Errors
    ///
    /// Where no memory is left.
    fn put_number(&mut self, step: NumberStep) -> Result<MoveStep, AllocError>
        ensures step { IfOk result (CarriesItems self.new (MovesNumber step)) }
        ensures kept { KeepsSteps self.old self.new }
    {
        let number = self.numbers.len();
        self.numbers.push(step)?;
        Ok(MoveStep::Number(number))
    }

    /// Puts the step of a number to an item of more than sixteen digits behind those so far.
    ///
    /// # Errors
    ///
    /// Where no memory is left.
    fn put_wide(&mut self, step: WideStep) -> Result<MoveStep, AllocError>
        ensures step { IfOk result (CarriesItems self.new (MovesWide step)) }
        ensures kept { KeepsSteps self.old self.new }
    {
        let number = self.wides.len();
        self.wides.push(step)?;
        Ok(MoveStep::Wide(number))
    }

    /// Puts the step of a number of any kind behind those so far.
    ///
    /// # Errors
    ///
    /// Where no memory is left.
    fn put_any_number(&mut self, step: AnyNumberStep) -> Result<MoveStep, AllocError>
        ensures step { IfOk result (CarriesItems self.new (MovesAnyNumber step)) }
        ensures kept { KeepsSteps self.old self.new }
    {
        let number = self.any_numbers.len();
        self.any_numbers.push(step)?;
        Ok(MoveStep::AnyNumber(number))
    }

    /// Puts the step of a number to an edited item behind those so far.
    ///
    /// # Errors
    ///
    /// Where no memory is left.
    fn put_edited(&mut self, step: EditStep) -> Result<MoveStep, AllocError>
        ensures step { IfOk result (CarriesItems self.new (MovesToEdited step)) }
        ensures kept { KeepsSteps self.old self.new }
    {
        let number = self.edits.len();
        self.edits.push(step)?;
        Ok(MoveStep::Edited(number))
    }

    /// Puts the step of a number to an edited item of more than sixteen bytes behind those so far.
    ///
    /// # Errors
    ///
    /// Where no memory is left.
    fn put_wide_edited(&mut self, step: WideEditStep) -> Result<MoveStep, AllocError>
        ensures step { IfOk result (CarriesItems self.new (MovesToWideEdited step)) }
        ensures kept { KeepsSteps self.old self.new }
    {
        let number = self.wide_edits.len();
        self.wide_edits.push(step)?;
        Ok(MoveStep::WideEdited(number))
    }

    /// Puts the step of a number to characters behind those so far.
    ///
    /// # Errors
    ///
    /// Where no memory is left.
    fn put_numerals(&mut self, step: NumeralsStep) -> Result<MoveStep, AllocError>
        ensures step { IfOk result (CarriesItems self.new (MovesToNumerals step)) }
        ensures kept { KeepsSteps self.old self.new }
    {
        let number = self.numerals.len();
        self.numerals.push(step)?;
        Ok(MoveStep::Numerals(number))
    }

    /// Puts the step of the number of an edited item behind those so far.
    ///
    /// # Errors
    ///
    /// Where no memory is left.
    fn put_text(&mut self, step: TextStep) -> Result<MoveStep, AllocError>
        ensures step { IfOk result (CarriesItems self.new (MovesText step)) }
        ensures kept { KeepsSteps self.old self.new }
    {
        let number = self.texts.len();
        self.texts.push(step)?;
        Ok(MoveStep::Text(number))
    }

    /// Puts the step of a number of any number of digits behind those so far.
    ///
    /// # Errors
    ///
    /// Where no memory is left.
    fn put_long(&mut self, step: LongStep) -> Result<MoveStep, AllocError>
        ensures step { IfOk result (CarriesItems self.new (MovesLong step)) }
        ensures kept { KeepsSteps self.old self.new }
    {
        let number = self.longs.len();
        self.longs.push(step)?;
        Ok(MoveStep::Long(number))
    }

    /// Makes the step of the move of one item to another ready, where the sender gives its number as one, or as characters.
    ///
    /// # Errors
    ///
    /// Where no memory is left.
    fn prepare_numbers(&mut self, from: &Item, to: &Item) -> Result<Option<MoveStep>, AllocError>
        requires { is_read_whole (storage_kind from.now) ≡ false }
        ensures step { IfOk result (λ found. IfSome found
            (CarriesFromTo self.new from.now to.now)) }
        ensures must { HaveNumberStep from.now to.now → IfOk result (λ found. IsSome found) }
        ensures kept { KeepsSteps self.old self.new }
    {
        if let Some(step) = NumberStep::prepare(from, to) {
            return Ok(Some(self.put_number(step)?));
        }
        if let Some(step) = WideStep::prepare(from, to) {
            return Ok(Some(self.put_wide(step)?));
        }
        if let Some(step) = AnyNumberStep::prepare(from, to) {
            return Ok(Some(self.put_any_number(step)?));
        }
        if let Some(step) = EditStep::prepare(self.alloc, from, to)? {
            return Ok(Some(self.put_edited(step)?));
        }
        if let Some(step) = WideEditStep::prepare(self.alloc, from, to)? {
            return Ok(Some(self.put_wide_edited(step)?));
        }
        if let Some(step) = NumeralsStep::prepare(from, to) {
            return Ok(Some(self.put_numerals(step)?));
        }
        match LongStep::prepare(self.alloc, from, to)? {
            Some(step) => Ok(Some(self.put_long(step)?)),
            None => Ok(None),
        }
    }

    /// Makes the step of the move of one item to another ready.
    ///
    /// # Errors
    ///
    /// Where no memory is left.
    fn prepare_items(&mut self, from: &Item, to: &Item) -> Result<Option<MoveStep>, AllocError>
        ensures step { IfOk result (λ found. IfSome found
            (CarriesFromTo self.new from.now to.now)) }
        ensures must { HaveItemStep from.now to.now → IfOk result (λ found. IsSome found) }
        ensures kept { KeepsSteps self.old self.new }
    {
        // Another sender is read in one way.
        if from.storage_kind().is_read_whole() {
            return Ok(None);
        }
        if let Some(step) = TextStep::prepare(self.alloc, from, to)? {
            return Ok(Some(self.put_text(step)?));
        }
        self.prepare_numbers(from, to)
    }

    /// Makes the step of the move of an entry to another ready, by what they describe and how many bytes they have. There is one where the sender
    /// gives its bytes as characters, and the receiver takes them without insertions. There is one too where the sender is read in one way, and
    ///
    /// - it is a number of any kind of storage, holds from 1 to 31 characters, or is edited, in at most 48 bytes, and the receiver is a number of
    ///   any kind of storage, or edits one in at most 48 bytes;
    /// - it is a number whose digits are at most 48 characters, with a zero for each P at the right, and the receiver takes characters without
    ///   insertions.
    ///
    /// The steps so far stay.
    ///
    /// # Errors
    ///
    /// Where no memory is left.
    pub fn prepare(
        &mut self,
        sender: &Kind,
        sent: u32,
        receiver: &Kind,
        received: u32,
    ) -> Result<Option<MoveStep>, AllocError>
        requires { AreOccupied (record {
          sender = sender.now;
          sent = sent;
          receiver = receiver.now;
          received = received;
        }) }
        ensures step { IfOk result (λ found. IfSome found (IsMoveStep self.new (record {
          sender = sender.now;
          sent = sent;
          receiver = receiver.now;
          received = received;
        }))) }
        ensures must { HaveStep sender.now receiver.now → IfOk result (λ found. IsSome found) }
        ensures kept { KeepsSteps self.old self.new }
    {
        if let Some(step) = CharactersStep::prepare(sender, sent as usize, receiver) {
            return Ok(Some(MoveStep::Characters(step)));
        }
        match sender {
            Kind::Group => Ok(None),
            Kind::Item(from) => match receiver {
                Kind::Group => Ok(None),
                Kind::Item(to) => self.prepare_items(from, to),
            },
        }
    }

    /// Moves the sender that ends bytes to a receiver's bytes: best the bytes of a record up to the sender's last.
    ///
    /// False where the receiver asks for a value and the sender's bytes represent none: the receiver's bytes are as they were then.
    #[inline(always)]
    pub fn run(&self, step: MoveStep, from: &[u8], to: &mut [u8]) -> bool
        requires { (k : MoveKinds) × IsMoveStep self.now k step × (k.sent ≤ length from.now)
            × (length to.old ≡ k.received) }
        ensures gets { (k : MoveKinds) → IsMoveStep self.now k step → k.sent ≤ length from.now
            → length to.old ≡ k.received → IsReceived k from.now (outcome result to.new) }
        ensures same { result ≡ false → to.new ≡ to.old }
    {
        match step {
            MoveStep::Number(number) => self.numbers[number].run(from, to),
            MoveStep::Wide(number) => self.wides[number].run(from, to),
            MoveStep::AnyNumber(number) => self.any_numbers[number].run(from, to),
            MoveStep::Edited(number) => self.edits[number].run(from, to),
            MoveStep::WideEdited(number) => self.wide_edits[number].run(from, to),
            MoveStep::Numerals(number) => self.numerals[number].run(from, to),
            MoveStep::Text(number) => self.texts[number].run(from, to),
            MoveStep::Long(number) => self.longs[number].run(from, to),
            MoveStep::Characters(step) => {
                self.put_characters(step, from, to);
                true
            }
        }
    }

    /// Moves the characters of the sender that ends bytes to a receiver's bytes, as [`MoveSteps::run`] does.
    #[inline(always)]
    pub fn run_characters(&self, step: CharactersStep, from: &[u8], to: &mut [u8])
        requires { (k : MoveKinds) × IsMoveStep self.now k (Characters step)
            × (k.sent ≤ length from.now) × (length to.old ≡ k.received) }
        ensures { (k : MoveKinds) → IsMoveStep self.now k (Characters step)
            → k.sent ≤ length from.now → length to.old ≡ k.received
            → IsReceived k from.now (Some to.new) }
    {
        step.run(from, to);
    }

    /// Does what [`MoveSteps::run_characters`] does. It isn't inlined, so that what carries out any step stays short.
    #[inline(never)]
    fn put_characters(&self, step: CharactersStep, from: &[u8], to: &mut [u8])
        requires { (k : MoveKinds) × IsMoveStep self.now k (Characters step)
            × (k.sent ≤ length from.now) × (length to.old ≡ k.received) }
        ensures { PutsCharacters self.now step from.now to.old to.new }
    {
        self.run_characters(step, from, to);
    }
}
