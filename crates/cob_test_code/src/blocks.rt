//! Frames in blocks, in memory.

ghost use Rattle.std.specs.Prelude.{◌≡◌, ◌<◌, ◌≤◌, ◌+◌, length};
ghost use Rattle.cob_records.specs.Forms.{outlet_of};
ghost use Rattle.cob_records.specs.declared.records.Form.TheVariants.{Blocked};

use crate::calls::{ReadAnswer, expect_bytes, expect_done, expect_number};
use cob_limits::{MAX_BLOCK, MAX_RECORD};
use cob_records::{
    Form, Gather, MemSink, MemSource, Outlet, RecordFault, block_reading_is_one, block_size_of,
    blocks_are_greedy, forms_are_frames, next_blocked, next_in_form, next_is_one,
};
use std::process::Abort;
use std::test::Fail;

/// Two blocks: records of one and of two bytes in the first, of three in the second.
const BLOCKS: &[u8] =
    b"\x00\x0F\x00\x00\x00\x05\x00\x00\xC1\x00\x06\x00\x00\xC2\xC2\x00\x0B\x00\x00\x00\x07\x00\x00\xC3\xC3\xC3";

/// What comes of reading a record in blocks: the answer, what the open block still holds, and how much of the source is left.
type Came = (ReadAnswer, u16, usize);

/// Reads the next record into a slice of the greatest length, and looks whether this comes of it.
fn expect_blocked(
    rt: &impl Abort,
    source: &mut MemSource<'_>,
    most: u16,
    slot: &mut [u8],
    left: &mut u16,
    wanted: Came,
) {
    assert!(rt; 8 <= most && most <= MAX_BLOCK);
    assert!(rt; !slot.is_empty() && slot.len() <= MAX_RECORD as usize);
    let answer = next_blocked(source, most, slot.len() as u16, slot, left);
    let (wanted_answer, wanted_left, wanted_rest) = wanted;
    assert_eq!(rt; answer, wanted_answer);
    assert!(rt; *left == wanted_left);
    expect_number(rt, source.rest().len(), wanted_rest);
}

#[test]
fn reads_blocks(rt: HostRuntime) {
    block_reading_is_one();
    next_is_one();
    let mut slot = [0u8; 8];
    let mut left = 0;
    let mut source = MemSource::new(BLOCKS);
    expect_blocked(
        &rt,
        &mut source,
        32_760,
        &mut slot,
        &mut left,
        (Ok(Some(1)), 6, 17),
    );
    expect_blocked(
        &rt,
        &mut source,
        32_760,
        &mut slot,
        &mut left,
        (Ok(Some(2)), 0, 11),
    );
    expect_blocked(
        &rt,
        &mut source,
        32_760,
        &mut slot,
        &mut left,
        (Ok(Some(3)), 0, 0),
    );
    expect_bytes(&rt, &slot, b"\xC3\xC3\xC3\x00\x00\x00\x00\x00");
    let answer = next_in_form(&mut source, Form::Blocked(32_760), 8, &mut slot, &mut left);
    assert!(rt; answer == Ok(None));
}

/// The first block of these bytes is refused, none is open behind it, and so many bytes are left.
fn refuses(rt: &impl Abort, bytes: &[u8], fault: RecordFault, rest: usize) {
    let mut slot = [0u8; 8];
    let mut left = 0;
    let mut source = MemSource::new(bytes);
    expect_blocked(
        rt,
        &mut source,
        40,
        &mut slot,
        &mut left,
        (Err(fault), 0, rest),
    );
}

/// What is refused is told as that, nothing past it is read, and no block is open behind it.
#[test]
fn refuses_what_is_no_block(rt: HostRuntime) {
    refuses(
        &rt,
        b"\x00\x07\x00\x00\xC1",
        RecordFault::BlockDescriptor,
        1,
    );
    refuses(
        &rt,
        b"\x00\x29\x00\x00\xC1",
        RecordFault::BlockDescriptor,
        1,
    );
    refuses(
        &rt,
        b"\x00\x09\x01\x00\xC1",
        RecordFault::BlockDescriptor,
        1,
    );
    refuses(
        &rt,
        b"\x00\x09\x00\x00\x00\x06\x00\x00\xC1",
        RecordFault::PastBlock,
        1,
    );
    refuses(
        &rt,
        b"\x00\x09\x00\x00\x00\x06\x01\x00\xC1",
        RecordFault::Spanned,
        1,
    );
}

/// A block that is cut off is told as that, with the bytes that were seen.
#[test]
fn counts_the_bytes_of_a_cut_block(rt: HostRuntime) {
    refuses(&rt, b"\x00\x09", RecordFault::Truncated { seen: 2 }, 0);
    refuses(
        &rt,
        b"\x00\x09\x00\x00",
        RecordFault::Truncated { seen: 4 },
        0,
    );
    let cut = b"\x00\x0A\x00\x00\x00\x06\x00\x00\xC1";
    refuses(&rt, cut, RecordFault::Truncated { seen: 9 }, 0);
}

/// Adds a record to those that are gathered.
fn gather_one(gather: &mut Gather, sink: &mut MemSink<'_>, body: &[u8]) -> Result<(), RecordFault>
    requires low { 0 < length body.now }
    requires high { 8 + length body.now ≤ gather.old.size }
    ensures { gather.new.size ≡ gather.old.size }
{
    gather.add(sink, body)
}

/// Adds a record, and looks how many the open block then holds and what has been written.
fn expect_gathered(
    rt: &impl Abort,
    gather: &mut Gather,
    sink: &mut MemSink<'_>,
    body: &[u8],
    held: u16,
    written: &[u8],
)
    requires low { 0 < length body.now }
    requires high { 8 + length body.now ≤ gather.old.size }
    ensures { gather.new.size ≡ gather.old.size }
{
    expect_done(rt, gather_one(gather, sink, body));
    assert!(rt; gather.held() == held);
    expect_bytes(rt, sink.taken(), written);
}

/// Writes the open block of those that are gathered, and looks what has been written.
fn expect_finished(rt: &impl Abort, gather: &mut Gather, sink: &mut MemSink<'_>, written: &[u8]) {
    expect_done(rt, gather.finish(sink));
    expect_bytes(rt, sink.taken(), written);
}

/// A record goes into the open block as long as its frame has room there: two have room in the first, and the third one has none.
#[test]
fn gathers_blocks(rt: HostRuntime) -> Result<(), Fail> {
    blocks_are_greedy();
    let mut room = [0u8; 26];
    let mut sink = MemSink::new(&mut room);
    let mut gather = Gather::new(rt.alloc(), 15)?;
    expect_gathered(&rt, &mut gather, &mut sink, b"\xC1", 1, b"");
    expect_gathered(&rt, &mut gather, &mut sink, b"\xC2\xC2", 2, b"");
    assert!(rt; gather.written_by(b"\xC3\xC3\xC3") == 15);
    expect_gathered(
        &rt,
        &mut gather,
        &mut sink,
        b"\xC3\xC3\xC3",
        1,
        &BLOCKS[..15],
    );
    assert!(rt; gather.pending() == 11);
    expect_finished(&rt, &mut gather, &mut sink, BLOCKS);
    expect_finished(&rt, &mut gather, &mut sink, BLOCKS);
    Ok(())
}

/// How many of three records are added to an outlet before one fails, and what that one answers.
fn added(outlet: &mut Outlet, sink: &mut MemSink<'_>) -> (usize, Result<(), RecordFault>)
    requires { outlet.old ≡ outlet_of (Blocked 15) }
{
    if let Err(fault) = outlet.add(sink, b"\xC1") {
        return (0, Err(fault));
    }
    if let Err(fault) = outlet.add(sink, b"\xC2\xC2") {
        return (1, Err(fault));
    }
    match outlet.add(sink, b"\xC3\xC3\xC3") {
        Ok(()) => (3, Ok(())),
        Err(fault) => (2, Err(fault)),
    }
}

/// A block that is not written whole is lost, and what comes next begins another.
#[test]
fn forgets_a_block_that_failed(rt: HostRuntime) -> Result<(), Fail> {
    forms_are_frames();
    let mut room = [0u8; 12];
    let mut sink = MemSink::new(&mut room);
    let mut outlet = Outlet::new(rt.alloc(), Form::Blocked(15))?;
    let full = RecordFault::TookNothing { taken: 12 };
    assert!(rt; added(&mut outlet, &mut sink) == (2, Err(full)));
    assert!(rt; outlet.held() == 0);
    expect_done(&rt, outlet.finish(&mut sink));
    Ok(())
}

/// What is read as the size of a block.
fn expect_size(rt: &impl Abort, word: &[u8], size: Option<u16>) {
    assert_eq!(rt; block_size_of(word), size);
}

#[test]
fn reads_sizes_of_blocks(rt: HostRuntime) {
    expect_size(&rt, b"8", Some(8));
    expect_size(&rt, b"00008", Some(8));
    expect_size(&rt, b"32760", Some(32_760));
    expect_size(&rt, b"7", None);
    expect_size(&rt, b"32761", None);
    expect_size(&rt, b"99999", None);
    expect_size(&rt, b"000008", None);
    expect_size(&rt, b"1x", None);
    expect_size(&rt, b"", None);
}
