//! The rule of MOVE: what a receiver holds after one single move, and which moves there are (ANSI X3.23-1985, Nucleus: the MOVE
//! statement; IBM Enterprise COBOL for z/OS, Language Reference, "MOVE statement").
//!
//! What is promised: [`receive`] writes into the receiver's bytes what `Received` of specs/Received.antt says of a sender and a receiver
//! (`gets`), or leaves them as they were and answers false where the sender's bytes represent no value that the receiver asks for
//! (`gets`, `same`); [`receive_in_group`] and [`receive_in_item`] are the same where it is known which of the two receives. By that
//! definition a group on either side copies bytes; characters stand from the left, from the right under JUSTIFIED, or between the
//! insertions of an edited item; a whole number gives its digits to characters; and a number is aligned by the point and stored, or edited.
//! A law says that there is one answer ([`one_received`]).
//!
//! [`may_move`] is the table of categories that specs/Table.antt writes out (`allowed`). [`refusal_of`] gives a rule that the move of a
//! sender to a receiver breaks, and none only where it breaks no rule (`broken`, `fine`); the rules are those of specs/Refusals.antt: a
//! move that the table doesn't have (M6), a literal that isn't as its receiver asks (M7), and an alphanumeric sender of more characters
//! than a number has digits (M10).
//!
//! Nothing here takes memory, and the work grows with the bytes that are sent and received.
//!
//! # Where it is proved
//!
//! The clauses `gets`, `same` of `receive`, `allowed` of `may_move`, `broken`, `fine` of `refusal_of`; the law `one_received`.
#![tactic(auto)]

mod characters;
mod constants;
mod copying;
mod laws;
mod numbers;
mod numerals;
mod receiving;
mod refusals;
mod sent;
mod table;

pub use copying::{copies_bytes, is_of_characters};
pub use laws::one_received;
pub use receiving::{receive, receive_in_group, receive_in_item};
pub use refusals::{Refusal, refusal_of};
pub use sent::Sent;
pub use table::{SenderKind, may_move};
