//! Single moves, made ready once and then carried out for each record.
//!
//! [`MoveSteps`] are the steps of single moves of every kind. [`MoveSteps::prepare`] gives the step of the move of one entry to another, by what
//! they describe and how many bytes they have (`step`, `must`), and loses none of those before (`kept`). [`MoveSteps::run`] leaves in the
//! receiver's bytes what the rule of MOVE says, `Received` of cob_move_receive, or answers false and leaves them as they were where the receiver
//! asks for a value and the sender's bytes represent none (`gets`, `same`). It takes the bytes of a record up to the sender's last, so that a
//! step knows no place, and serves each element of a table. A move that has no step is that of `receive` of cob_move_receive alone.
//!
//! The kinds of steps:
//!
//! - a number from one item to another: [`NumberStep::prepare`] gives one wherever both are zoned, separate or packed numbers of at most sixteen
//!   digits and bytes. A packed sender may have more digits;
//! - a number of at most sixteen bytes that isn't binary to a packed item of more than sixteen digits: [`WideStep::prepare`] gives one;
//! - any other number of at most sixteen digits: [`AnyNumberStep::prepare`] gives one wherever the receiver is a number of any kind of storage, and
//!   the sender is one, or an item of at most sixteen characters, which are a number where each is a digit;
//! - such a number to an edited item of at most sixteen digits: [`EditStep::prepare`] gives one for at most sixteen bytes, and
//!   [`WideEditStep::prepare`] for at most thirty-two. It makes the receiver's texts ready, one for each number of zeros that may be in front, as
//!   rows of cob_edit;
//! - the number of an edited item of at most sixteen digits and thirty-two bytes: [`TextStep::prepare`] gives one wherever the receiver is a number
//!   of any kind of storage or such an edited item. The digits are taken out, written again and compared, so that bytes that are no number's text
//!   give none;
//! - a number of at most sixteen digits to characters: [`NumeralsStep::prepare`] gives one wherever the receiver takes characters without
//!   insertions, and writes the digits without the sign, with a zero for each P at the right;
//! - any other number, of up to 31 digits: [`LongStep::prepare`] gives one wherever the sender is a number, at most 31 characters or edited in at most
//!   forty-eight bytes, and the receiver is a number, or edits one in at most forty-eight bytes; and for a number whose digits become characters. It
//!   holds the number in two vectors;
//! - characters without insertions, of a sender that gives its bytes as they are: [`CharactersStep::prepare`] gives one, and
//!   [`ConstantStep::prepare`] that of a constant, whose bytes `receive` makes once. [`copy_all`] copies bytes.
//!
//! What each of them leaves in the receiver's bytes is what the rule says, in the same words; which number a sender gives, `Gives` of
//! specs/Ends.antt says. It is so by every reading but those that take numbers by any zones (`KeepsZones`): by these, the move is that of `receive`.
//! What is left of a binary sender is so where its bytes are read as its picture says (`SuitsReading`): where they are sent
//! whole, the move is that of `receive` too. [`PicturedSteps`] are the steps of moves of such senders, in the words of [`MoveSteps`] but for that
//! reading.
//!
//! Only to make steps ready takes memory.
//!
//! # Where it is proved
//!
//! The clauses `step`, `must`, `kept` of `MoveSteps::prepare` and `gets`, `same` of `MoveSteps::run`, those of `PicturedSteps` for senders that are read
//! as their pictures say, and those of `prepare` and `run` of each kind of step (`NumberStep`, `WideStep` for packed receivers of more than sixteen
//! digits, `AnyNumberStep` for binary items and for characters that are a number, `EditStep` and `WideEditStep`, `TextStep` for a number that an edited
//! item gives, `NumeralsStep` for a number that becomes characters, `LongStep` for a number of up to 31 digits, `CharactersStep`, `ConstantStep`): a step leaves what the rule of MOVE says
//! (`Received`), for any bytes of the sender and any reading that keeps zones.
#![tactic(auto)]

mod any_number_preparing;
mod any_number_running;
mod any_number_step;
mod characters;
mod characters_step;
mod constant_step;
mod edit_preparing;
mod edit_running;
mod edit_step;
mod ends_preparing;
mod ends_running;
mod long_ends;
mod long_numerals;
mod long_numerals_writing;
mod long_preparing;
mod long_running;
mod long_step;
mod long_text_reader;
mod long_text_reading;
mod long_text_writer;
mod long_texts;
mod number_ends;
mod numerals_preparing;
mod numerals_running;
mod numerals_step;
mod pictured;
mod pool;
mod preparing;
mod running;
mod short;
mod step;
mod storage;
mod text_preparing;
mod text_reader;
mod text_running;
mod text_step;
mod text_writer;
mod texts;
mod wide_edit_preparing;
mod wide_edit_running;
mod wide_edit_step;
mod wide_preparing;
mod wide_running;
mod wide_step;
mod wide_texts;

pub use any_number_step::AnyNumberStep;
pub use characters_step::CharactersStep;
pub use constant_step::ConstantStep;
pub use edit_step::EditStep;
pub use long_ends::{LongReader, LongReceiver, LongWriter};
pub use long_numerals::LongNumerals;
pub use long_step::LongStep;
pub use long_text_reader::{LongTextReader, PairPlaces};
pub use long_text_writer::LongTextWriter;
pub use number_ends::{NumberReader, NumberWriter, ReceiverWriter};
pub use numerals_step::NumeralsStep;
pub use pictured::{PicturedStep, PicturedSteps};
pub use pool::{MoveStep, MoveSteps};
pub use short::copy_all;
pub use step::NumberStep;
pub use text_reader::TextReader;
pub use text_step::TextStep;
pub use text_writer::TextWriter;
pub use wide_edit_step::WideEditStep;
pub use wide_step::WideStep;
