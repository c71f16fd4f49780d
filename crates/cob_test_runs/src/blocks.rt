//! Runs that write blocks on ends that fail: at the first block, at one in the middle, and at the last, which the end of the input or a stop
//! closes. What is expected was made by hand.

use crate::runs::TEXTS;
use crate::trials::{ALL, Ending, ROOM, Row, Runs, expect_done, expect_tried, tried};
use cob_convert::PrepareFault;
use cob_records::Form;

/// The greatest size of the output's blocks: two frames have room in one.
const SIZE: u16 = 30;

/// Five input records, with the numbers 07, 99, 00, 12 and 34.
const INPUT: &[u8] =
    b"\xC1\xC2\xC3\xF0\xF7\xC4\xC5\xC6\xF9\xF9\xC1\xC1\xC1\xF0\xF0\xC2\xC2\xC2\xF1\xF2\xC3\xC3\xC3\xF3\xF4";

/// What they become: two blocks of two frames, and one with the last.
const OUTPUT: &[u8] =
    b"\x00\x1E\x00\x00\x00\x0D\x00\x00\xF0\xF0\xF0\xF7\xC1\xC2\xC3\x40\x40\x00\x0D\x00\x00\xF0\xF0\xF9\xF9\xC4\xC5\xC6\x40\x40\x00\x1E\x00\x00\x00\x0D\x00\x00\xF0\xF0\xF0\xF0\xC1\xC1\xC1\x40\x40\x00\x0D\x00\x00\xF0\xF0\xF1\xF2\xC2\xC2\xC2\x40\x40\x00\x11\x00\x00\x00\x0D\x00\x00\xF0\xF0\xF3\xF4\xC3\xC3\xC3\x40\x40";

/// The block of the last record alone.
const LAST: &[u8] = b"\x00\x11\x00\x00\x00\x0D\x00\x00\xF0\xF0\xF3\xF4\xC3\xC3\xC3\x40\x40";

const ENDS_FAIL: [Row; 10] = [
    (ALL, 0, 77, Ending::Unwritten(1, 0), 0),
    (ALL, 29, 77, Ending::Unwritten(1, 29), 29),
    (ALL, 35, 77, Ending::Unwritten(3, 5), 35),
    (ALL, 63, 77, Ending::Unwritten(5, 3), 63),
    (ALL, ALL, 40, Ending::Full(3, 10), 40),
    (ALL, ALL, 76, Ending::Full(5, 16), 76),
    (22, ALL, 77, Ending::Unread(5), 60),
    (22, 30, 77, Ending::Unwritten(3, 0), 30),
    (25, 77, 77, Ending::Unread(6), 77),
    (ALL, 77, 77, Ending::Done(5), 77),
];

/// A write of a block fails in the name of the block's first record, also where a failed read was to be answered; the open block is written before
/// that is.
#[test]
fn ends_fail_at_blocks(rt: HostRuntime) {
    let to = Form::Blocked(SIZE);
    let runs = Runs {
        input: INPUT,
        output: OUTPUT,
        rows: &ENDS_FAIL,
    };
    expect_done(&rt, rt.alloc(), &TEXTS, Form::Fixed, to, &runs);
}

/// Two input records, of which the second has no number.
const STOPS: &[u8] = b"\xC3\xC3\xC3\xF3\xF4\xC1\xC2\xC3\xF0\x40";

/// The same run twice.
const STOPS_TWICE: [Row; 2] = [
    (ALL, ALL, ROOM, Ending::NoValue(2), 17),
    (ALL, ALL, ROOM, Ending::NoValue(2), 17),
];

/// A stop closes the open block, and the next run begins with none.
#[test]
fn stops_close_the_open_block(rt: HostRuntime) {
    let to = Form::Blocked(SIZE);
    let runs = Runs {
        input: STOPS,
        output: LAST,
        rows: &STOPS_TWICE,
    };
    expect_done(&rt, rt.alloc(), &TEXTS, Form::Fixed, to, &runs);
}

/// No runs at all.
const NONE: Runs = Runs {
    input: b"",
    output: b"",
    rows: &[],
};

/// Blocks of the output that have no room for its longest record are refused, and those that just have it are not.
#[test]
fn blocks_have_room_for_the_longest_record(rt: HostRuntime) {
    let short = tried(rt.alloc(), &TEXTS, Form::Fixed, Form::Blocked(16), &NONE);
    expect_tried(&rt, short, Err(PrepareFault::Block { least: 17 }));
    let least = tried(rt.alloc(), &TEXTS, Form::Fixed, Form::Blocked(17), &NONE);
    expect_tried(&rt, least, Ok(None));
}
