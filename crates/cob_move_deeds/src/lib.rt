//! What is done to a record: moves in order, and choices between them by tests (ANSI X3.23-1985, Nucleus: the PERFORM statement, VARYING).
//!
//! What is done (`Deeds` of specs/Deeds.antt) is carried out in order, up to the first that stops (`Carried`); a test is taken once, of the storages as they
//! are then. `Carried` is so over any tests; those here ask whether the counter of a loop is past the number that an item holds, or whether a condition
//! holds (`Test` of specs/Tests.antt, `Judged`).
//!
//! What is promised:
//!
//! - [`ReadyDeeds::apply_kept`] makes of the output record's storage what the deeds that its flows come to say (`carried`, by `deeds_of` of
//!   specs/Prepared.antt), a stop included. A [`Flow`] is one thing that is carried out, with skips forward alone (`deeds_from` of specs/Flows.antt), so that
//!   a run ends by the length of the list. A loop whose bound stands in the input record and whose statements move alone reads its bound once: then the
//!   moves of as many turns as it says are carried out one behind another ([`CountedLoop`]). A condition is tested once, and one of two branches is passed
//!   over (`Where`, `Skip`): its entries give what the storages hold then ([`Asked`]). Where one flow is all that there is, and it carries out all moves, that
//!   is noted beforehand.
//! - [`ReadyDeeds::new`] puts them together (`deeds`), and they may be carried out where the moves were made ready, the bounds are whole numbers, conditions
//!   may be tested (`MayBeAsked`), and the flows name what is there (`prepared`); [`ReadyDeeds::with_reading`] are the same with their binary senders read
//!   otherwise.
//!   [`ReadyDeeds::with_steady_bounds`] are the same too (`deeds`, `moves`), and where the moves of a loop leave its bound alone in the output record, it is
//!   read once (`IsSteady` of specs/Steady.antt), as one of the input record is.
//! - For who tells what is done: [`ReadyDeeds::flows`], with their bounds, loops and conditions, and the statements between marks;
//!   [`ReadyDeeds::is_straight`] says whether there is no test, [`ReadyDeeds::bound_number`] what a bound gives in two storages, and
//!   [`ReadyDeeds::condition_says`] whether a condition holds.
//! - Laws: what is done without a test is what its moves come to ([`straight_is_applied`]), and ends in one way ([`one_carried`]); a loop to the number
//!   that an item holds is what it is written out as ([`loop_is_its_turns`], by `Performed` of specs/Turns.antt, which is the loop in the standard's own
//!   words), and a loop with a literal bound is the moves of its turns ([`literal_loop_is_its_moves`]); so is one whose bound stands in the input record, up to
//!   the number that it gives there ([`bound_of_input_is_kept`]). A choice with nothing behind it is IF ([`choice_is_if`], by `IfDone` of
//!   specs/Choices.antt), and choices one within another are EVALUATE ([`selection_is_first`], by `FirstDone`).
//!
//! # Where it is proved
//!
//! The clause `carried` of `ReadyDeeds::apply_kept`, the clauses of `ReadyDeeds::with_reading` and `ReadyDeeds::with_steady_bounds`; the laws
//! `straight_is_applied`, `one_carried`, `loop_is_its_turns`, `literal_loop_is_its_moves`, `bound_of_input_is_kept`, `choice_is_if`, `selection_is_first`.
#![tactic(auto)]

mod at_once;
mod bound;
mod carrying;
mod choices;
mod flow;
mod giving;
mod known;
mod laws;
mod ready;
mod row;
mod sides;
mod steady;
mod text_test;
mod told;

pub use flow::{Asked, Bound, CountedLoop, Flow};
pub use laws::{
    bound_of_input_is_kept, choice_is_if, literal_loop_is_its_moves, loop_is_its_turns,
    one_carried, selection_is_first, straight_is_applied,
};
pub use ready::ReadyDeeds;
