//! Steps of numbers between items of any kind, made ready.

ghost use Rattle.std.specs.Prelude.{IfSome, IsSome};
ghost use Rattle.cob_move_steps.specs.Ends.{IsAnyNumberStep, IsShortNumber, IsShortSender};

use crate::any_number_step::AnyNumberStep;
use crate::ends_preparing::{number_reader, number_writer};
use cob_copybook_tree::Item;

impl AnyNumberStep {
    /// The step of the move of one item to another. There is one where the receiver is a number of at most sixteen digits, and of at most sixteen
    /// bytes if it isn't binary, and the sender is another, or holds at most sixteen characters.
    pub fn prepare(sender: &Item, receiver: &Item) -> Option<AnyNumberStep>
        ensures step { IfSome result (IsAnyNumberStep sender.now receiver.now) }
        ensures must { IsShortSender sender.now → IsShortNumber receiver.now → IsSome result }
    {
        let writer = number_writer(receiver)?;
        let reader = number_reader(sender, receiver)?;
        Some(AnyNumberStep { reader, writer })
    }
}
