//! Moves that are ready to be carried out.

ghost use Rattle.std.specs.Prelude.{◌≡◌, ◌+◌, ◌*◌, ◌≤◌, ℕ, length, map, min, IfOk, OnOk};
ghost use Rattle.cob_codec.specs.declared.reading.Reading.{Reading as Read};
ghost use Rattle.cob_layout.specs.Kept.{AreKeptOf};
ghost use Rattle.cob_layout.specs.Storage.{greatest_length, IsStorage};
ghost use Rattle.cob_layout_places.specs.Counts.{tables_of};
ghost use Rattle.cob_move_data.specs.Moves.{AreMoves, Records, moves, moves_by, read_by, statement_moves_by};
ghost use Rattle.cob_move_apply.specs.Applied.{Applied, ending};
ghost use Rattle.cob_move_apply.specs.ByRule.{AreUnnoted, unnoted_is_fact};
ghost use Rattle.cob_move_apply.specs.Joined.{steps_in};
ghost use Rattle.cob_move_apply.specs.Met.{HaveMet};
ghost use Rattle.cob_move_apply.specs.Told.{most_moves_told, single_moves};
ghost use Rattle.cob_move_apply.specs.Room.{room_of};

use crate::basis::Basis;
use crate::by_rule::{apply_in, unnoted_bases};
use crate::layouts::Layouts;
use crate::planning::plan_of;
use crate::scratch::Scratch;
use crate::step::{Plan, at_most_u32, counted};
use crate::stop::Stop;
use cob_codec::Reading;
use cob_layout::{Layout, records_are_sound};
use cob_move_data::StatementMoves;
use std::alloc::{AllocError, Global};

/// How many single moves the moves of a statement are.
fn single_moves_in(one: &StatementMoves) -> usize
    ensures { (reading : Read) (r : Records)
        → result ≡ single_moves (statement_moves_by reading r one.now) }
{
    match one {
        StatementMoves::Single(single) => single.receivers.len(),
        StatementMoves::Pairs(group) => group.pairs.len(),
    }
}

/// Moves between two records, ready to be carried out.
#[derive(Drop)]
pub struct Moves {
    pub(crate) statements: Vec<StatementMoves>,
    /// What is carried out in their place.
    pub(crate) plan: Plan,
    /// Bases of which nothing is noted, for moves that are carried out by the rule of MOVE alone.
    pub(crate) unnoted: Vec<Basis>,
    /// How items are read that are sent.
    pub(crate) reading: Reading,
    pub(crate) ghost room: { AreUnnoted statements.items unnoted.items } by { unnoted_is_fact statements.items unnoted.items },
}

impl Moves {
    ghost use Rattle.cob_move_apply.specs.Prepared.{ArePrepared, moves_of};

    /// Moves between the records of these layouts, made ready: a place that is the same in every storage is found here. Their binary senders are
    /// read as their pictures say.
    ///
    /// # Errors
    ///
    /// Where no memory is left.
    pub fn new(
        alloc: Global,
        given: Vec<StatementMoves>,
        input: &Layout,
        output: &Layout,
    ) -> Result<Moves, AllocError>
        requires given { AreMoves (record { input = input.now; output = output.now })
            (moves (record { input = input.now; output = output.now }) given.items) }
        ensures made { IfOk result
            (λ m. (r : Records) → moves_of r m ≡ moves r given.items) }
        ensures prepared { IfOk result
            (λ m. ArePrepared (record { input = input.now; output = output.now }) m) }
    {
        let plan = plan_of(alloc, given.as_slice(), input, output)?;
        let unnoted = unnoted_bases(alloc, given.as_slice())?;
        Ok(Moves {
            statements: given,
            plan,
            unnoted,
            reading: Reading::Pictured,
        })
    }

    /// The same moves, with their binary senders read so. It takes no memory.
    pub fn with_reading(self, reading: Reading) -> Moves
        ensures moves { (r : Records)
            → moves_of r result ≡ map (read_by reading) (moves_of r self) }
        ensures prepared { (r : Records) → ArePrepared r self → ArePrepared r result }
    {
        Moves {
            statements: self.statements,
            plan: self.plan,
            unnoted: self.unnoted,
            reading,
        }
    }

    /// The moves of each statement, in the order of the statements.
    pub fn statements(&self) -> &[StatementMoves]
        ensures { (r : Records) → moves_of r self.now ≡ moves_by self.now.reading r result.now }
    {
        self.statements.as_slice()
    }

    /// How their binary senders are read.
    pub fn reading(&self) -> Reading
        ensures { result ≡ self.now.reading }
    {
        self.reading
    }

    /// How many single moves these are: each is a sender with one of its receivers. More than a u32 holds come as the greatest u32.
    pub fn single_moves(&self) -> u32
        ensures { (r : Records)
            → result ≡ min (single_moves (moves_of r self.now)) most_moves_told }
    {
        let mut count: usize = 0;
        for one in self.statements.iter() {
            count = count.saturating_add(single_moves_in(one));
        }
        at_most_u32(count)
    }

    /// How many steps these moves make. Single moves that are plain copies of entries of the input record are one step with the copy before, where each
    /// begins on both sides where the one before ends, and neither record has a table that varies; each other single move is one by itself. More
    /// than a u32 holds come as the greatest u32.
    pub fn steps(&self) -> u32
        ensures { (r : Records) → ArePrepared r self.now
            → result ≡ min (steps_in r (moves_of r self.now)) most_moves_told }
    {
        counted(self.plan.steps.as_slice())
    }

    /// Carries out the moves in order on the storage of an output record. It takes no memory.
    ///
    /// The input is all of a record's storage, or its current part; the output is all of a record's storage. The room is that of
    /// `Scratch::new` for these layouts.
    ///
    /// # Errors
    ///
    /// The first thing missing. The storage is as the moves and receivers before left it then.
    pub fn apply(
        &self,
        input_layout: &Layout,
        output_layout: &Layout,
        input: &[u8],
        output: &mut [u8],
        scratch: &mut Scratch,
    ) -> Result<(), Stop>
        requires prepared { ArePrepared
            (record { input = input_layout.now; output = output_layout.now }) self.now }
        requires input { IsStorage input_layout.now input.now }
        requires output { length output.old ≡ greatest_length output_layout.now }
        requires room { scratch.old.room ≡ room_of
            (record { input = input_layout.now; output = output_layout.now }) }
        ensures applied { Applied (record { input = input_layout.now; output = output_layout.now })
            (moves_of (record { input = input_layout.now; output = output_layout.now }) self.now)
            input.now output.old (ending result output.new) }
        ensures room { scratch.new.room ≡ scratch.old.room }
        // Counts of the output record are read again only where a receiver met the item of one.
        ensures reads { (met : ℕ)
            × HaveMet (record { input = input_layout.now; output = output_layout.now })
            (moves_of (record { input = input_layout.now; output = output_layout.now }) self.now)
            input.now output.old met
            × (scratch.new.reads ≤ length (tables_of output_layout.now) * (1 + met)) }
    {
        scratch.forget_input();
        self.apply_kept(input_layout, output_layout, input, output, scratch)
    }

    /// Carries out the moves in order on the storage of an output record, as [`Moves::apply`] does. What the room keeps of the input's counts is that of
    /// this input, and is not read again; of the output's it then keeps what the moves left. It takes no memory.
    ///
    /// The input is all of a record's storage, or its current part; the output is all of a record's storage. The room is that of
    /// `Scratch::new` for these layouts.
    ///
    /// # Errors
    ///
    /// The first thing missing. The storage is as the moves and receivers before left it then.
    #[inline(always)]
    pub fn apply_kept(
        &self,
        input_layout: &Layout,
        output_layout: &Layout,
        input: &[u8],
        output: &mut [u8],
        scratch: &mut Scratch,
    ) -> Result<(), Stop>
        requires prepared { ArePrepared
            (record { input = input_layout.now; output = output_layout.now }) self.now }
        requires input { IsStorage input_layout.now input.now }
        requires output { length output.old ≡ greatest_length output_layout.now }
        requires room { scratch.old.room ≡ room_of
            (record { input = input_layout.now; output = output_layout.now }) }
        requires kept { AreKeptOf input_layout.now input.now scratch.old.kept_input }
        ensures applied { Applied (record { input = input_layout.now; output = output_layout.now })
            (moves_of (record { input = input_layout.now; output = output_layout.now }) self.now)
            input.now output.old (ending result output.new) }
        ensures room { scratch.new.room ≡ scratch.old.room }
        ensures keeps { OnOk result (AreKeptOf output_layout.now output.new
            scratch.new.kept_output) }
        // Counts of the output record are read again only where a receiver met the item of one.
        ensures reads { (met : ℕ)
            × HaveMet (record { input = input_layout.now; output = output_layout.now })
            (moves_of (record { input = input_layout.now; output = output_layout.now }) self.now)
            input.now output.old met
            × (scratch.new.reads ≤ length (tables_of output_layout.now) * (1 + met)) }
    {
        records_are_sound();
        let _ = input_layout.greatest();
        let _ = output_layout.greatest();
        let layouts = Layouts {
            input: input_layout,
            output: output_layout,
            reading: self.reading,
            varies: output_layout.varies(),
        };
        let statements = self.statements.as_slice();
        apply_in(
            statements,
            &self.plan,
            self.unnoted.as_slice(),
            &layouts,
            input,
            output,
            &mut scratch.space,
        )
    }
}
