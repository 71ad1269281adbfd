//! Laws over the definitions, each the contract of a function that does nothing.

ghost use Rattle.std.specs.Prelude.{ℕ};
ghost use Rattle.dali_crash.specs.Disks.Growth.{AnchorTells, AnchorTellsInside, EachCallMayFail, OthersNeverFail, InsideIsFault, FaultIsInside, QuietInside};
ghost use Rattle.dali_crash.specs.Disks.Places.{ImageIsRead, WriteIsRead};
ghost use Rattle.dali_crash.specs.Disks.Images.{HeadIsRead, QuietIsRead, SyncHolds, HeldGoesOn};
ghost use Rattle.dali_crash.specs.Disks.Heads.{HeadsFit, KeptFits, StaysFitting, NextFits};
ghost use Rattle.dali_crash.specs.Disks.Ends.{EndIsSmall, PlaceIsSmall, LogIsFramed};
ghost use Rattle.dali_crash.specs.Disks.Changes.{SpellsBeside, SpellsLonger, SpellsGrown, FlushSpells, FaultSpells, SpellsTurned};
ghost use Rattle.dali_crash.specs.Disks.Ordered.{OrderedIsRead};
ghost use Rattle.dali_crash.specs.Disks.NewFiles.{StartReads, HeaderReads, CopyReads, TableReads, QuietReads, HasPlaces, HeaderBegins, CopyContinues, SkipContinues, QuietContinues, TableEnds};
ghost use Rattle.dali_crash.specs.Disks.Disks.{SpellsOne};
ghost use Rattle.dali_crash.specs.Disks.Bridges.{AreRight, HaveOneLog, HaveOneAnchor, StoreStarts, MomentsAreRight, IsRightNow, FlushGoesOn, FaultGoesOn, QuietGoesOn, FlushIsRight, WriteIsRight, WriteGoesOn, TurnGoesOn, TurnFaultGoesOn, FormatStarts, RestartStarts};

use dali_store::Store;

/// The open gates of each crash image are as many as the number of the current image, and one more at most once the
/// vault has stopped, or inside a step.
pub fn the_anchor_tells_the_current_image()
    ensures behind { AnchorTells }
    ensures inside { AnchorTellsInside }
{}

/// Inside a step a crash leaves what it left before, or what a fault in this step leaves; all that a fault leaves may be
/// left there; and nothing else is left inside a step that calls no store. At each step that calls it, a sync too, a fault
/// may come, and at no other one.
pub fn inside_a_step_stands_what_a_fault_leaves()
    ensures may_fail { EachCallMayFail }
    ensures others { OthersNeverFail }
    ensures is_fault { InsideIsFault }
    ensures faults { FaultIsInside }
    ensures quiet { QuietInside }
{}

/// The bytes of the four files spell one crash image at most.
pub fn a_disk_has_one_reading()
    ensures { SpellsOne }
{}

/// Where each disk that a crash may leave of a store spells files that came along steps, each spells files that have the
/// flushed records, fit their log and restart right. Where the store tells what reads give, this spells such files.
pub fn what_a_store_leaves_is_right<V: Store>()
    ensures each { (v : V) → AreRight (V.may_leave v) }
    ensures some { (v : V) → IsRightNow (V.told v) (V.may_leave v) }
{}

/// While the vault runs the logs of all these disks are one row of batches, which ends where the vault says, and their
/// anchors have as many open gates as its current number.
pub fn what_a_store_leaves_has_one_log<V: Store>()
    ensures log { (v : V) → HaveOneLog (V.may_leave v) }
    ensures anchor { (v : V) → HaveOneAnchor (V.may_leave v) }
{}

/// Where each disk spells files at the start of a run, each spells files that came along no step.
pub fn a_store_at_rest_starts<V: Store>()
    ensures { (v : V) → StoreStarts (V.may_leave v) }
{}

/// They go on to come so behind a flush, behind a fault in one, and behind a step that leaves what may be left as it was.
pub fn what_a_store_leaves_goes_on<V: Store>()
    ensures flush { (v w : V) → FlushGoesOn (V.may_leave v) (V.may_leave w) }
    ensures fault { (v w : V) → FaultGoesOn (V.may_leave v) (V.may_leave w) }
    ensures quiet { (v w : V) → QuietGoesOn (V.may_leave v) (V.may_leave w) }
{}

/// Where each disk that a crash at some moment of a call might have left spells files that came along steps and inside one
/// more, each spells such files.
pub fn what_a_store_leaves_in_a_call_is_right<V: Store>()
    ensures { (v : V) (t : ℕ) → MomentsAreRight (V.left_since v t) }
{}

/// At each moment inside a flush a crash leaves such files, and inside a write to the file of the next image.
pub fn what_a_store_leaves_in_a_flush_is_right<V: Store>()
    ensures flush { (v : V) → FlushIsRight (V.may_leave v) }
    ensures write { (v : V) → WriteIsRight (V.may_leave v) }
{}

/// Each disk that a crash leaves of a store that was just formatted spells files at the start of a run.
pub fn a_formatted_store_starts<V: Store>()
    ensures { (v w : V) → FormatStarts (V.may_leave v) (V.may_leave w) }
{}

/// So it is of a store that was just restarted: the log has the batch of the Restarted, and the anchor names the image
/// that the restart wrote.
pub fn a_restarted_store_starts<V: Store>()
    ensures { (v : V) → RestartStarts (V.may_leave v) }
{}

/// They go on to come along steps behind a checkpoint's writes to its image file and behind the anchor's move, and behind
/// faults in these.
pub fn what_a_store_leaves_goes_on_in_a_checkpoint<V: Store>()
    ensures write { (v w : V) → WriteGoesOn (V.may_leave v) (V.may_leave w) }
    ensures turn { (v w : V) → TurnGoesOn (V.may_leave v) (V.may_leave w) }
    ensures turn_fault { (v w : V) → TurnFaultGoesOn (V.may_leave v) (V.may_leave w) }
{}

/// A file whose header, places and table read so spells an image, where it fits its fields. A region's words written in
/// its place are read there, and all else as before, unless the file ended before that place. A header and a table
/// written in their places, in a file that reaches them, are read there, and each region as before.
pub fn images_are_read_by_places()
    ensures image { ImageIsRead }
    ensures write { WriteIsRead }
    ensures head { HeadIsRead }
{}

/// The head that a checkpoint or a restart keeps of a legal log fits the fields of an image: its numbers, its rows in
/// order and in range, and their undos. So it does as long as a checkpoint keeps it. Only the bounds of its own number
/// and place, and of the words, are asked for; and once each region has a copy, none of them.
pub fn a_kept_head_fits_its_fields()
    ensures fits { HeadsFit }
    ensures kept { KeptFits }
    ensures later { StaysFitting }
    ensures next { NextFits }
{}

/// Let an image file of any length, an empty one too, be written in order, its header first, then its regions, and its
/// table last. Then no write begins behind the file's end, and all of it is read as it was written.
pub fn a_new_image_is_written_in_order()
    ensures { OrderedIsRead }
{}

/// Once the file of the next image reads the words and the head that the point says, it does so behind every other step
/// that leaves the file, up to the anchor's move.
pub fn the_next_image_is_read_as_the_point_says()
    ensures { QuietIsRead }
{}

/// Behind a sync of that file each disk that a crash may leave holds the head and the words that reads give of it, where
/// they fit their fields. It goes on to hold them behind every other step that leaves the file in each disk, up to the
/// anchor's move.
pub fn a_synced_image_is_held<V: Store>()
    ensures sync { (v : V) → SyncHolds (V.may_leave v) }
    ensures goes_on { (v w : V) → HeldGoesOn (V.may_leave v) (V.may_leave w) }
{}

/// Where each disk that a crash may leave spells files that came along steps, the log ends below 2^62 while the vault runs,
/// which is what a flush asks for, and so is the place that a checkpoint keeps. A log is no longer than its records, with a
/// frame for each, as a start asks.
pub fn a_log_ends_below_its_limit<V: Store>()
    ensures end { (v : V) → EndIsSmall (V.may_leave v) }
    ensures place { (v : V) → PlaceIsSmall (V.may_leave v) }
    ensures framed { LogIsFramed }
{}

/// Files go on to be spelled whatever is written to the file of the image that the anchor doesn't name. So they do with
/// more batches, where the log has them, and with that other image, where the anchor has one gate more and the file
/// spells it.
pub fn a_disk_is_read_behind_a_change()
    ensures other { SpellsBeside }
    ensures log { SpellsLonger }
    ensures grown { SpellsGrown }
    ensures anchor { SpellsTurned }
{}

/// Let the logs of all disks that a crash may leave be one row of batches. Behind a flush each disk spells whatever one from
/// before spelled, with the batch of the frame; at each moment of the flush, and behind a fault in it, with that batch or
/// without it. Neither a core nor a run is asked for: so who holds the vault alone, while others log, may say it.
pub fn a_flush_is_read_without_a_core<V: Store>()
    ensures flush { (v : V) → FlushSpells (V.may_leave v) }
    ensures fault { (v : V) → FaultSpells (V.may_leave v) }
{}

/// In both image files each place that was written since the load reads the words that the point says: from a start on,
/// whatever bytes the files have there, behind each write of a checkpoint, and behind every other step. So where a
/// region's flag for a side is clear, the file of that side has its place.
pub fn what_was_written_since_the_load_is_read()
    ensures start { StartReads }
    ensures header { HeaderReads }
    ensures copy { CopyReads }
    ensures table { TableReads }
    ensures quiet { QuietReads }
    ensures places { HasPlaces }
{}

/// A checkpoint over an image file of any bytes, such as a crash cut inside a place: its header alone is a step, then each
/// region in order, skipped where its flag is clear, and at last its table alone. No write begins behind the file's end,
/// and behind the table the file reads the words and the head that the point says.
pub fn a_checkpoint_writes_a_new_file_in_order()
    ensures header { HeaderBegins }
    ensures copy { CopyContinues }
    ensures skip { SkipContinues }
    ensures quiet { QuietContinues }
    ensures table { TableEnds }
{}
