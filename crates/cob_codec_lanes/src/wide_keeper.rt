//! Digits that are kept of numbers in two vectors.

ghost use Rattle.std.specs.Prelude.{◌≡◌, ◌≤ℤ◌, ℕ, ℤ, pos};
ghost use Rattle.cob_codec_lanes.specs.Readers.{AreWanted};
ghost use Rattle.cob_codec_lanes.specs.Wide.{AreHeldWide, IsWideKeeperOf};

use crate::lanes::{Picks, picked, sums};
use crate::picks::{Spread, power_picks};
use crate::wanted::Wanted;
use std::simd::prelude::*;

/// Which digits of a number in two vectors are kept.
#[derive(Clone, Copy)]
pub struct WideKeeper {
    /// For each digit that is kept its lane among those in front of the last sixteen, if it is one of them.
    pub front: Picks,
    /// For each its lane among the last sixteen, if it is one of them.
    pub back: Picks,
}

/// How sixteen digits stand in the high halves of lanes.
fn all_lanes() -> Spread
    ensures start { result.start ≡ 0 }
    ensures apart { result.apart ≡ 2 }
    ensures count { result.count ≡ 16 }
{
    Spread {
        start: 0,
        apart: 2,
        count: 16,
    }
}

impl WideKeeper {
    /// What keeps the digits that are wanted.
    pub fn of(wanted: Wanted) -> WideKeeper
        requires { wanted.shift ≤ℤ pos 100 }
        ensures { IsWideKeeperOf wanted.digits wanted.shift result }
    {
        let spread = all_lanes();
        let in_front = Wanted {
            digits: wanted.digits,
            shift: wanted.shift + 16,
        };
        WideKeeper {
            front: power_picks(true, &spread, in_front),
            back: power_picks(true, &spread, wanted),
        }
    }

    /// The digits that are kept.
    #[inline(always)]
    pub fn keep(&self, front: u8x16, back: u8x16) -> u8x16
        ensures { (number wanted : ℕ) (shift : ℤ) → IsWideKeeperOf wanted shift self.now
            → AreHeldWide number front back → AreWanted wanted shift number result }
    {
        sums(picked(front, &self.front), picked(back, &self.back))
    }
}
