//! Sixteen numbers by lanes.

ghost use Rattle.std.specs.Prelude.{◌≡◌, ℕ, ◌<◌, ◌==◌, if◌then◌else◌, length, slice_index};
ghost use Rattle.cob_codec_lanes.specs.Windows.{lane_between};

/// The number of one lane.
fn one_between(from: usize, to: usize, inside: u8, outside: u8, lane: usize) -> u8
    ensures { result ≡ lane_between from to inside outside lane }
{
    if from <= lane && lane < to {
        inside
    } else {
        outside
    }
}

/// One number in the lanes from one on and before another, and a second number in all others.
pub(crate) fn lanes_between(from: usize, to: usize, inside: u8, outside: u8) -> [u8; 16]
    ensures { (i : ℕ) → i < 16 → slice_index result i ≡ lane_between from to inside outside i }
{
    let mut lanes = [outside; 16];
    for lane in 0..16 {
        lanes[lane] = one_between(from, to, inside, outside, lane);
    }
    lanes
}

/// The same numbers, but for one lane.
pub(crate) fn with_lane(lanes: [u8; 16], place: usize, number: u8) -> [u8; 16]
    requires { place < 16 }
    ensures { (i : ℕ) → i < 16 → slice_index result i
        ≡ (if i == place then number else slice_index lanes i) }
{
    let mut changed = lanes;
    changed[place] = number;
    changed
}
