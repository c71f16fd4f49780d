//! Moves that are ready to be carried out from one mark to another.

ghost use Rattle.std.specs.Prelude.{◌≡◌, ◌<◌, ◌≤◌, ℕ, ◌∷◌, length, map, min, IfOk};
ghost use Rattle.cob_codec.specs.declared.reading.Reading.TheVariants.{Pictured};
ghost use Rattle.cob_layout.specs.Kept.{AreKeptOf};
ghost use Rattle.cob_layout.specs.Storage.{greatest_length, IsStorage};
ghost use Rattle.cob_move_data.specs.Moves.{AreMoves, Records, moves, moves_by, read_by};
ghost use Rattle.cob_move_apply.specs.Applied.{Applied, ending};
ghost use Rattle.cob_move_apply.specs.Marked.{items_between};
ghost use Rattle.cob_move_apply.specs.Reads.{ReadsOfMoves};
ghost use Rattle.cob_move_apply.specs.Room.{room_of};
ghost use Rattle.cob_move_apply.specs.Told.{most_moves_told, single_moves};

use crate::between::statements_from;
use crate::by_rule::{Chosen, apply_chosen, unnoted_bases};
use crate::layouts::Layouts;
use crate::marking::{Mark, marked_plan};
use crate::moves::Moves;
use crate::scratch::Scratch;
use crate::step::{Step, counted};
use crate::stop::Stop;
use cob_codec::Reading;
use cob_layout::{Layout, records_are_sound};
use cob_move_data::StatementMoves;
use std::alloc::{AllocError, Global};

/// Moves between two records, ready to be carried out from one mark to another.
#[derive(Drop)]
pub struct MarkedMoves {
    pub(crate) moves: Moves,
    pub(crate) marks: Vec<Mark>,
}

/// The steps from one number up to another.
#[inline(always)]
fn steps_between(steps: &[Step], begin: usize, end: usize) -> &[Step]
    requires rises { begin ≤ end }
    requires within { end ≤ length steps.now }
    ensures { result.now ≡ items_between begin end steps.now }
{
    &steps[begin..end]
}

impl MarkedMoves {
    ghost use Rattle.cob_move_apply.specs.Marked.{RiseUpTo, AreMarkedPrepared, ends_of_marks, moves_between_marks, marked_steps};
    ghost use Rattle.cob_move_apply.specs.Prepared.{moves_of};

    /// Moves between the records of these layouts, made ready, with a mark before all of them, and one behind each of these numbers of statements. No copy
    /// is joined over a mark. Their binary senders are read as their pictures say.
    ///
    /// # Errors
    ///
    /// Where no memory is left.
    pub fn new(
        alloc: Global,
        given: Vec<StatementMoves>,
        ends: &[usize],
        input: &Layout,
        output: &Layout,
    ) -> Result<MarkedMoves, AllocError>
        requires given { AreMoves (record { input = input.now; output = output.now })
            (moves (record { input = input.now; output = output.now }) given.items) }
        requires ends { RiseUpTo 0 (length given.items) ends.now }
        ensures made { IfOk result (λ m. (r : Records) → moves_of r m.moves ≡ moves r given.items) }
        ensures statements { IfOk result (λ m. m.moves.statements.items ≡ given.items) }
        ensures reading { IfOk result (λ m. m.moves.reading ≡ Pictured) }
        ensures ends { IfOk result (λ m. ends_of_marks m ≡ 0 ∷ ends.now) }
        ensures prepared { IfOk result
            (AreMarkedPrepared (record { input = input.now; output = output.now })) }
    {
        let made = marked_plan(alloc, given.as_slice(), ends, input, output)?;
        let unnoted = unnoted_bases(alloc, given.as_slice())?;
        Ok(MarkedMoves {
            moves: Moves {
                statements: given,
                plan: made.plan,
                unnoted,
                reading: Reading::Pictured,
            },
            marks: made.marks,
        })
    }

    /// The same moves, with their binary senders read so. It takes no memory.
    pub fn with_reading(self, reading: Reading) -> MarkedMoves
        ensures moves { (r : Records)
            → moves_of r result.moves ≡ map (read_by reading) (moves_of r self.moves) }
        ensures between { (r : Records) (from to : ℕ) → moves_between_marks r result from to
            ≡ map (read_by reading) (moves_between_marks r self from to) }
        ensures ends { ends_of_marks result ≡ ends_of_marks self }
        ensures reading { result.moves.reading ≡ reading }
        ensures prepared { (r : Records) → AreMarkedPrepared r self → AreMarkedPrepared r result }
    {
        MarkedMoves {
            moves: Moves {
                statements: self.moves.statements,
                plan: self.moves.plan,
                unnoted: self.moves.unnoted,
                reading,
            },
            marks: self.marks,
        }
    }

    /// The moves of each statement, in the order of the statements.
    pub fn statements(&self) -> &[StatementMoves]
        ensures { (r : Records)
            → moves_of r self.now.moves ≡ moves_by self.now.moves.reading r result.now }
    {
        self.moves.statements()
    }

    /// How their binary senders are read.
    pub fn reading(&self) -> Reading
        ensures { result ≡ self.now.moves.reading }
    {
        self.moves.reading()
    }

    /// How many single moves these are: each is a sender with one of its receivers. More than a u32 holds come as the greatest u32.
    pub fn single_moves(&self) -> u32
        ensures { (r : Records)
            → result ≡ min (single_moves (moves_of r self.now.moves)) most_moves_told }
    {
        self.moves.single_moves()
    }

    /// How many steps these moves make, those between one mark and the next by themselves. More than a u32 holds come as the greatest u32.
    pub fn steps(&self) -> u32
        ensures { (r : Records) → AreMarkedPrepared r self.now
            → result ≡ min (marked_steps r self.now) most_moves_told }
    {
        counted(self.moves.plan.steps.as_slice())
    }

    /// How many marks part the moves, the first and the last among them.
    pub fn marks(&self) -> usize
        ensures { result ≡ length self.now.marks.items }
    {
        self.marks.len()
    }

    /// Carries out all of the moves, in order, on the storage of an output record, as [`MarkedMoves::apply_between`] does from the first mark to the last. It
    /// takes no memory.
    ///
    /// The input is all of a record's storage, or its current part; the output is all of a record's storage. The room is that of
    /// `Scratch::new` for these layouts.
    ///
    /// # Errors
    ///
    /// The first thing missing. The storage is as the moves and receivers before left it then.
    #[inline(always)]
    pub fn apply_all(
        &self,
        input_layout: &Layout,
        output_layout: &Layout,
        input: &[u8],
        output: &mut [u8],
        scratch: &mut Scratch,
    ) -> Result<(), Stop>
        requires prepared { AreMarkedPrepared
            (record { input = input_layout.now; output = output_layout.now }) self.now }
        requires input { IsStorage input_layout.now input.now }
        requires output { length output.old ≡ greatest_length output_layout.now }
        requires room { scratch.old.room ≡ room_of
            (record { input = input_layout.now; output = output_layout.now }) }
        requires kept_input { AreKeptOf input_layout.now input.now scratch.old.kept_input }
        requires kept_output { AreKeptOf output_layout.now output.old scratch.old.kept_output }
        ensures applied { Applied (record { input = input_layout.now; output = output_layout.now })
            (moves_of (record { input = input_layout.now; output = output_layout.now })
            self.now.moves) input.now output.old (ending result output.new) }
        ensures room { scratch.new.room ≡ scratch.old.room }
        ensures kept_input { AreKeptOf input_layout.now input.now scratch.new.kept_input }
        ensures kept_output { AreKeptOf output_layout.now output.new scratch.new.kept_output }
        ensures reads { ReadsOfMoves
            (record { input = input_layout.now; output = output_layout.now })
            (moves_of (record { input = input_layout.now; output = output_layout.now })
            self.now.moves) input.now output.old result scratch.old scratch.new }
    {
        records_are_sound();
        let _ = input_layout.greatest();
        let _ = output_layout.greatest();
        let layouts = Layouts {
            input: input_layout,
            output: output_layout,
            reading: self.moves.reading,
            varies: output_layout.varies(),
        };
        let statements = self.moves.statements.as_slice();
        let plan = &self.moves.plan;
        let steps = plan.steps.as_slice();
        let unnoted = self.moves.unnoted.as_slice();
        let all = Chosen {
            statements,
            steps,
            unnoted,
        };
        apply_chosen(
            statements,
            plan,
            &all,
            &layouts,
            input,
            output,
            &mut scratch.space,
        )
    }

    /// Carries out the moves from one mark to another, in order, on the storage of an output record. What the room keeps of the counts of both storages is
    /// not read again, and of the output's it then keeps what the moves left. It takes no memory.
    ///
    /// The input is all of a record's storage, or its current part; the output is all of a record's storage. The room is that of
    /// `Scratch::new` for these layouts.
    ///
    /// # Errors
    ///
    /// The first thing missing. The storage is as the moves and receivers before left it then.
    #[inline(always)]
    pub fn apply_between(
        &self,
        from: usize,
        to: usize,
        input_layout: &Layout,
        output_layout: &Layout,
        input: &[u8],
        output: &mut [u8],
        scratch: &mut Scratch,
    ) -> Result<(), Stop>
        requires prepared { AreMarkedPrepared
            (record { input = input_layout.now; output = output_layout.now }) self.now }
        requires rises { from ≤ to }
        requires within { to < length self.now.marks.items }
        requires input { IsStorage input_layout.now input.now }
        requires output { length output.old ≡ greatest_length output_layout.now }
        requires room { scratch.old.room ≡ room_of
            (record { input = input_layout.now; output = output_layout.now }) }
        requires kept_input { AreKeptOf input_layout.now input.now scratch.old.kept_input }
        requires kept_output { AreKeptOf output_layout.now output.old scratch.old.kept_output }
        ensures applied { Applied (record { input = input_layout.now; output = output_layout.now })
            (moves_between_marks (record { input = input_layout.now; output = output_layout.now })
            self.now from to) input.now output.old (ending result output.new) }
        ensures room { scratch.new.room ≡ scratch.old.room }
        ensures kept_input { AreKeptOf input_layout.now input.now scratch.new.kept_input }
        ensures kept_output { AreKeptOf output_layout.now output.new scratch.new.kept_output }
        ensures reads { ReadsOfMoves
            (record { input = input_layout.now; output = output_layout.now })
            (moves_between_marks (record { input = input_layout.now; output = output_layout.now })
            self.now from to) input.now output.old result scratch.old scratch.new }
    {
        records_are_sound();
        let _ = input_layout.greatest();
        let _ = output_layout.greatest();
        let layouts = Layouts {
            input: input_layout,
            output: output_layout,
            reading: self.moves.reading,
            varies: output_layout.varies(),
        };
        let begin = self.marks[from];
        let end = self.marks[to];
        let statements = self.moves.statements.as_slice();
        let plan = &self.moves.plan;
        let steps = plan.steps.as_slice();
        let unnoted = self.moves.unnoted.as_slice();
        let some = Chosen {
            statements: statements_from(statements, begin.statement, end.statement),
            steps: steps_between(steps, begin.step, end.step),
            unnoted,
        };
        apply_chosen(
            statements,
            plan,
            &some,
            &layouts,
            input,
            output,
            &mut scratch.space,
        )
    }
}
