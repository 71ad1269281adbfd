//! Laws of vaults over any store, each the contract of a function that does nothing.
ghost use Rattle.dali_core.specs.Steps.Called.{FlushGoes, FlushFaults, FlushIsRight, CopyGoes, CopyFaults, SkipGoes, WriteIsRight, HeaderGoes, TableGoes, HeadFaults, SyncGoes, SyncFaults, TurnGoes, TurnFaults, TurnIsRight, ReadStays, ReadFaults, QuietGoes, QuietKeeps, RunBegins, CrashIsRight, AcknowledgedStands, PlacesAreSmall, PlacesStand};
ghost use Rattle.dali_core.specs.Steps.Courses.{QuietCourse};

use dali_store::Store;

/// A vault over whose store a core is made is at the start of a run.
pub fn a_run_begins<V: Store>()
    ensures { RunBegins V.Store }
{}

/// A flush of what was taken is a step, and so is a fault in one; and each disk that a crash inside one leaves restarts
/// right.
pub fn a_flush_is_a_step<V: Store>()
    ensures ok { FlushGoes V.Store }
    ensures fault { FlushFaults V.Store }
    ensures inside { FlushIsRight V.Store }
{}

/// So is the write of a region to the next image, without the updates of an open operation; and a region whose flag is
/// clear is skipped, for the file has its place. Each disk that a crash inside a write to that file leaves restarts right.
pub fn a_copy_is_a_step<V: Store>()
    ensures ok { CopyGoes V.Store }
    ensures skip { SkipGoes V.Store }
    ensures fault { CopyFaults V.Store }
    ensures inside { WriteIsRight V.Store }
{}

/// So is the write of its header, over whatever bytes the file has, and that of its table: behind all regions the file
/// reads the head and the words that the point says.
pub fn a_heads_write_is_a_step<V: Store>()
    ensures header { HeaderGoes V.Store }
    ensures table { TableGoes V.Store }
    ensures fault { HeadFaults V.Store }
{}

/// So is its sync: then each disk that a crash may leave holds the image. A crash inside it leaves what it left before.
pub fn an_images_sync_is_a_step<V: Store>()
    ensures ok { SyncGoes V.Store }
    ensures fault { SyncFaults V.Store }
{}

/// So is the anchor's move, where each disk holds the image; and each disk that a crash inside it leaves restarts right.
pub fn the_anchors_move_is_a_step<V: Store>()
    ensures ok { TurnGoes V.Store }
    ensures fault { TurnFaults V.Store }
    ensures inside { TurnIsRight V.Store }
{}

/// A read of the log is no step, and one that fails is the step that counts its fault; both leave what is read and held of
/// the next image.
pub fn a_read_of_the_log_leaves_the_files<V: Store>()
    ensures ok { ReadStays V.Store }
    ensures fault { ReadFaults V.Store }
{}

/// A step that calls no store leaves the vault, and what is read and held of the next image.
pub fn other_steps_leave_the_vault<V: Store>()
    ensures goes { QuietGoes V.Store }
    ensures keeps { QuietKeeps V.Store }
{}

/// So does each list of steps of a core that call no store and are none of a checkpoint.
pub fn a_course_that_calls_no_store_leaves_the_vault<V: Store>()
    ensures { QuietCourse V.Store }
{}

/// Each disk that a crash may leave has the flushed records, fits, and restarts right, and what was acknowledged is
/// committed there.
pub fn what_a_crash_leaves_of_a_vault_is_right<V: Store>()
    ensures right { CrashIsRight V.Store }
    ensures acknowledged { AcknowledgedStands V.Store }
{}

/// A vault of a run may be asked for a flush and for the anchor's move: its log's end and its current number are below 2^62.
/// And while it runs, where a region's flag for a side is clear, the file of that side has its place.
pub fn the_places_of_a_vault_may_be_asked_for<V: Store>()
    ensures small { PlacesAreSmall V.Store }
    ensures stand { PlacesStand V.Store }
{}
