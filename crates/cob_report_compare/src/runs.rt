//! Two files of one layout, compared from their first records to the end.

ghost use Rattle.std.specs.Prelude.{◌≡◌, ◌≤◌, length, map, IfOk};
ghost use Rattle.cob_convert_stream.specs.Reasons.{is_read_cause};
ghost use Rattle.cob_records.specs.Device.{counted};
ghost use Rattle.cob_records.specs.Forms.{HasBlockSize};
ghost use Rattle.cob_report_show.specs.Elements.{named_item};
ghost use Rattle.cob_report_compare.specs.Chosen.{compared_in};
ghost use Rattle.cob_report_compare.specs.Files.{IsFileRoom};
ghost use Rattle.cob_report_compare.specs.Keys.{AreKeyItems, most_keys};
ghost use Rattle.cob_report_compare.specs.Merged.{AreFew};
ghost use Rattle.cob_report_compare.specs.Runs.{ComparesFiles, CountsUp, files_of, is_stopped_at, is_uncounted, is_unprinted};
ghost use Rattle.cob_report_compare.specs.declared.runs.CompareFault.TheVariants.{Memory};

use crate::chosen::compared_items;
use crate::counted::PairCounts;
use crate::files::{CompareStop, FileSide};
use crate::heads::{FileRoom, file_room};
use crate::lines::put_counts;
use crate::merging::compare_merged;
use crate::pairs::ComparedFiles;
use cob_layout::Layout;
use cob_records::{Form, Sink, Source};
use cob_report_show::ListedItem;
use std::alloc::{AllocError, Global};

/// Why not all records of two files were compared.
#[derive(Clone, Copy, PartialEq, Eq)]
pub enum CompareFault {
    /// Memory was refused, before a record was read.
    Memory,
    /// A record stopped it, or its lines could not be printed.
    Stop(CompareStop),
    /// All records were compared, and the line with the counts could not be printed.
    Uncounted,
}

impl From<AllocError> for CompareFault {
    ghost from_gives = { λ _ fault. fault ≡ Memory };

    fn from(_: AllocError) -> CompareFault {
        CompareFault::Memory
    }
}

/// How two files are compared.
#[derive(Clone, Copy)]
pub struct CompareOptions<'a> {
    /// The entries that are ignored, by their numbers.
    pub ignored: &'a [usize],
    /// The items of the key by which records are pairs, as [`key_items`](crate::key_items) has them. Without one they are pairs in their order.
    pub keys: &'a [ListedItem],
    /// Whether the bytes of records are compared in the place of their values.
    pub by_bytes: bool,
    /// How many records that differ or stand alone are told at most.
    pub most: u64,
    /// How the records stand in the file on the left.
    pub left_form: Form,
    /// How the records stand in the file on the right.
    pub right_form: Form,
}

/// Prints the line with the counts of a comparison that came to its end.
fn count_up<W: Sink>(
    sink: &mut W,
    answer: Result<PairCounts, CompareStop>,
) -> Result<PairCounts, CompareFault>
    requires { IfOk answer AreFew }
    ensures counts { CountsUp (W.taken sink.old) (W.taken sink.new) answer result }
    ensures writes { W.failures sink.new ≡ counted
        (is_uncounted result) (W.failures sink.old) }
{
    match answer {
        Ok(counts) => match put_counts(sink, counts) {
            Ok(()) => Ok(counts),
            Err(_) => Err(CompareFault::Uncounted),
        },
        Err(stop) => Err(CompareFault::Stop(stop)),
    }
}

/// What a comparison needs of memory, all of it asked for before the first record.
#[derive(Drop)]
struct CompareRoom {
    items: Vec<ListedItem>,
    left: FileRoom,
    right: FileRoom,
}

/// The items of records of this layout that are compared, and room for a record of either file, its places and its key.
fn room_for(
    alloc: Global,
    layout: &Layout,
    ignored: &[usize],
    keys: &[ListedItem],
) -> Result<CompareRoom, AllocError>
    requires few { length keys.now ≤ most_keys }
    ensures items { IfOk result (λ room. map named_item room.items.items ≡ compared_in ignored.now layout.now) }
    ensures left { IfOk result (λ room. IsFileRoom layout.now (map named_item keys.now) room.left) }
    ensures right { IfOk result (λ room. IsFileRoom layout.now (map named_item keys.now) room.right) }
{
    let items = compared_items(alloc, layout, ignored)?;
    let left = file_room(alloc, layout, keys)?;
    let right = file_room(alloc, layout, keys)?;
    Ok(CompareRoom { items, left, right })
}

/// Compares the records of two files of one layout by the values of their items, but for the entries that are ignored, or by their bytes. Those of one key are
/// a pair, each the next of either file, in which records ascend by their keys; of others the lesser stands alone. Without a key they are pairs in the order in
/// which they come. It prints the differences of each pair that differs, up to 20, and each record that stands alone, of at most so many records; and at the
/// end a line with the counts. The answer is how many pairs there are of each kind, and how many records stand alone. What was printed may wait in the sink:
/// the caller flushes it.
///
/// # Errors
///
/// [`CompareFault::Stop`] for the first record that can't be read, whose counts are not all valid, or that is not as long as they say; whose key is no number,
/// or stands below that of the record before it; or whose lines can't be printed. [`CompareFault::Uncounted`], [`CompareFault::Memory`].
pub fn compare_files<L: Source, R: Source, W: Sink>(
    alloc: Global,
    layout: &Layout,
    options: CompareOptions,
    left: &mut L,
    right: &mut R,
    sink: &mut W,
) -> Result<PairCounts, CompareFault>
    requires left_block { HasBlockSize options.left_form }
    requires right_block { HasBlockSize options.right_form }
    requires keys { AreKeyItems layout.now (map named_item options.keys.now) }
    requires few { length options.keys.now ≤ most_keys }
    // Which pairs came, how each compares, which records stand alone, what was printed, and how it ended.
    ensures compares { ComparesFiles (files_of layout.now options.entry) (L.coming left.old)
        (L.coming left.new) (R.coming right.old) (R.coming right.new) (W.taken sink.old)
        (W.taken sink.new) result }
    // A read failed exactly where the answer says so.
    ensures left_reads { L.failures left.new ≡ counted
        (is_stopped_at FileSide.Left is_read_cause result) (L.failures left.old) }
    ensures right_reads { R.failures right.new ≡ counted
        (is_stopped_at FileSide.Right is_read_cause result) (R.failures right.old) }
    // A write failed exactly where the answer says so.
    ensures writes { W.failures sink.new ≡ counted (is_unprinted result) (W.failures sink.old) }
{
    let mut room = room_for(alloc, layout, options.ignored, options.keys)?;
    let files = ComparedFiles {
        layout,
        items: &room.items,
        keys: options.keys,
        by_bytes: options.by_bytes,
        most: options.most,
        left_form: options.left_form,
        right_form: options.right_form,
    };
    let answer = compare_merged(files, sink, left, &mut room.left, right, &mut room.right);
    count_up(sink, answer)
}
