//! Deeds that are ready to be carried out.

ghost use Rattle.std.specs.Prelude.{◌≡◌, ◌+◌, ◌*◌, ◌≤◌, ℕ, length, min};
ghost use Rattle.std.specs.List.{AllByRecursion};
ghost use Rattle.cob_layout.specs.Kept.{AreKeptOf};
ghost use Rattle.cob_layout.specs.Storage.{greatest_length, IsStorage};
ghost use Rattle.cob_layout_places.specs.Counts.{tables_of};
ghost use Rattle.cob_move_data.specs.Moves.{Records, moves_by};
ghost use Rattle.cob_move_apply.specs.Applied.{ending};
ghost use Rattle.cob_move_apply.specs.Marked.{AreMarkedPrepared, ends_of_marks, marked_steps};
ghost use Rattle.cob_move_apply.specs.Prepared.{moves_of};
ghost use Rattle.cob_move_apply.specs.Room.{room_of};
ghost use Rattle.cob_move_apply.specs.Told.{most_moves_told, single_moves};
ghost use Rattle.cob_move_deeds.specs.AtOnce.{are_all_moves};
ghost use Rattle.cob_move_deeds.specs.Deeds.{Carried};
ghost use Rattle.cob_move_deeds.specs.Flows.{AreFlows, deeds_by, deeds_from, support_of};
ghost use Rattle.cob_move_deeds.specs.Met.{DeedsHaveMet};
ghost use Rattle.cob_move_deeds.specs.Tests.{IsBound, Judged};

use crate::at_once::carry_all;
use crate::choices::carry_out;
use crate::flow::{Asked, Bound, CountedLoop, Flow};
use crate::laws::tests_are_one;
use crate::sides::Sides;
use crate::steady::Stretch;
use crate::text_test::TextTest;
use cob_layout::Layout;
use cob_move_apply::{MarkedMoves, Reading, Scratch, Stop, one_ending};
use cob_move_data::StatementMoves;

/// The same answer, with the parts of its stop named again: so the compiler keeps them apart, and no function that hands it on copies it through memory.
#[inline(always)]
fn parts_again(answer: Result<(), Stop>) -> Result<(), Stop>
    ensures { result ≡ answer }
{
    match answer {
        Ok(()) => Ok(()),
        Err(stop) => Err(Stop {
            side: stop.side,
            offset: stop.offset,
            cause: stop.cause,
        }),
    }
}

/// What is done to a record, ready to be carried out: moves parted by marks, and flows that say what lies between which marks, and when.
#[derive(Drop)]
pub struct ReadyDeeds {
    pub(crate) moves: MarkedMoves,
    pub(crate) bounds: Vec<Bound>,
    pub(crate) loops: Vec<CountedLoop>,
    pub(crate) asked: Asked,
    pub(crate) flows: Vec<Flow>,
    /// Between which marks moves leave each bound alone, by its number, where that was looked at.
    pub(crate) steady: Option<Vec<Option<Stretch>>>,
    /// What was made ready of each condition, by its number, where that was looked at.
    pub(crate) tests: Option<Vec<Option<TextTest>>>,
    /// Whether the flows carry out all of the moves at once, which is found out before the first record comes.
    pub(crate) at_once: bool,
    pub(crate) ghost told: { at_once ≡ are_all_moves (length moves.marks.items) flows.items },
}

impl ReadyDeeds {
    ghost use Rattle.cob_move_deeds.specs.Prepared.{AreDeedsPrepared, HaveAllMoves, MayBeAsked, deeds_of};

    /// What these flows come to, over moves that were made ready, bounds, loops, and conditions with the entries that they ask for.
    pub fn new(
        moves: MarkedMoves,
        bounds: Vec<Bound>,
        loops: Vec<CountedLoop>,
        asked: Asked,
        flows: Vec<Flow>,
    ) -> ReadyDeeds
        ensures deeds { (r : Records) → deeds_of r result
            ≡ deeds_from r (support_of moves bounds.items loops.items asked) (length flows.items)
            flows.items }
        ensures moves { result.moves ≡ moves }
        ensures prepared { (r : Records) → AreMarkedPrepared r moves
            → AllByRecursion (IsBound r) bounds.items
            → MayBeAsked r (support_of moves bounds.items loops.items asked)
            → AreFlows (support_of moves bounds.items loops.items asked) flows.items
            → AreDeedsPrepared r result }
    {
        let at_once = carry_all(flows.as_slice(), moves.marks());
        ReadyDeeds {
            moves,
            bounds,
            loops,
            asked,
            flows,
            steady: None,
            tests: None,
            at_once,
        }
    }

    /// The same deeds, with their binary senders read so. It takes no memory.
    pub fn with_reading(self, reading: Reading) -> ReadyDeeds
        ensures deeds { (r : Records) → deeds_of r result ≡ deeds_by reading (deeds_of r self) }
        ensures prepared { (r : Records) → AreDeedsPrepared r self → AreDeedsPrepared r result }
        ensures whole { (r : Records) → HaveAllMoves r self → HaveAllMoves r result }
        ensures ends { ends_of_marks result.moves ≡ ends_of_marks self.moves }
    {
        ReadyDeeds {
            moves: self.moves.with_reading(reading),
            bounds: self.bounds,
            loops: self.loops,
            asked: self.asked,
            flows: self.flows,
            steady: self.steady,
            tests: self.tests,
            at_once: self.at_once,
        }
    }

    /// The moves of each statement, in the order of the statements, the turns of a loop one behind another.
    pub fn statements(&self) -> &[StatementMoves]
        ensures { (r : Records) → moves_of r self.now.moves.moves
            ≡ moves_by self.now.moves.moves.reading r result.now }
    {
        self.moves.statements()
    }

    /// How their binary senders are read.
    pub fn reading(&self) -> Reading
        ensures { result ≡ self.now.moves.moves.reading }
    {
        self.moves.reading()
    }

    /// How many single moves there may be: each is a sender with one of its receivers, and each turn of a loop has its own. More than a u32 holds come as
    /// the greatest u32.
    pub fn single_moves(&self) -> u32
        ensures { (r : Records)
            → result ≡ min (single_moves (moves_of r self.now.moves.moves)) most_moves_told }
    {
        self.moves.single_moves()
    }

    /// How many steps these moves make, those between one mark and the next by themselves. More than a u32 holds come as the greatest u32.
    pub fn steps(&self) -> u32
        ensures { (r : Records) → AreDeedsPrepared r self.now
            → result ≡ min (marked_steps r self.now.moves) most_moves_told }
    {
        self.moves.steps()
    }

    /// Carries out what is to be done on the storage of an output record. What the room keeps of the input's counts is that of this input, and is not read
    /// again; of the output's it then keeps what the moves left. It takes no memory.
    ///
    /// The input is all of a record's storage, or its current part; the output is all of a record's storage. The room is that of
    /// `Scratch::new` for these layouts.
    ///
    /// # Errors
    ///
    /// The first thing missing: for a move, for the test of a loop, or for a condition. The storage is as the moves and receivers before left it then.
    #[inline(always)]
    pub fn apply_kept(
        &self,
        input_layout: &Layout,
        output_layout: &Layout,
        input: &[u8],
        output: &mut [u8],
        scratch: &mut Scratch,
    ) -> Result<(), Stop>
        requires prepared { AreDeedsPrepared
            (record { input = input_layout.now; output = output_layout.now }) self.now }
        requires input { IsStorage input_layout.now input.now }
        requires output { length output.old ≡ greatest_length output_layout.now }
        requires room { scratch.old.room ≡ room_of
            (record { input = input_layout.now; output = output_layout.now }) }
        requires kept { AreKeptOf input_layout.now input.now scratch.old.kept_input }
        ensures carried { Carried
            (Judged (record { input = input_layout.now; output = output_layout.now }))
            (record { input = input_layout.now; output = output_layout.now })
            (deeds_of (record { input = input_layout.now; output = output_layout.now }) self.now)
            input.now output.old (ending result output.new) }
        ensures room { scratch.new.room ≡ scratch.old.room }
        ensures keeps { AreKeptOf output_layout.now output.new scratch.new.kept_output }
        // Counts of the output record are read again only where a receiver met the item of one.
        ensures reads { (met : ℕ)
            × DeedsHaveMet (record { input = input_layout.now; output = output_layout.now })
            (deeds_of (record { input = input_layout.now; output = output_layout.now }) self.now)
            input.now output.old met
            × (scratch.new.reads ≤ length (tables_of output_layout.now) * (1 + met)) }
    {
        // For `reads`: what is done ends in one way.
        tests_are_one();
        one_ending();
        scratch.forget_output();
        if self.at_once {
            return self
                .moves
                .apply_all(input_layout, output_layout, input, output, scratch);
        }
        let sides = Sides {
            input_layout,
            output_layout,
            input,
        };
        parts_again(carry_out(self, &sides, output, scratch))
    }
}
