//! Which file.
use std::fmt;

/// How many segments a log may have: their numbers are below this one.
pub const SEGMENTS: u32 = 4096;

/// A file of a store whose log is kept in segments.
#[derive(Clone, Copy, Debug, PartialEq, Eq)]
pub enum FileKey {
    /// The image that the checkpoints of odd number write.
    ImageA,
    /// The image that the checkpoints of even number write.
    ImageB,
    /// The anchor: one gate for each completed checkpoint or image of a restart.
    Anchor,
    /// A segment of the log.
    Segment {
        /// Its number: 0 is the log's begin.
        number: u32,
    },
}

impl fmt::Display for FileKey {
    ghost use Rattle.std.specs.Prelude.{Some};
    ghost use Rattle.dali_files.specs.Keys.{name_of};

    ghost output = { λ f. Some (name_of f) };

    fn fmt<W: fmt::Write>(&self, f: &mut fmt::Formatter<W>) -> fmt::Result {
        match self {
            FileKey::ImageA => f.write_str("a"),
            FileKey::ImageB => f.write_str("b"),
            FileKey::Anchor => f.write_str("anchor"),
            FileKey::Segment { number: 0 } => f.write_str("log"),
            FileKey::Segment { number } => write!(f, "log.{number}"),
        }
    }
}
