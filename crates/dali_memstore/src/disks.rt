//! The four files of a store in memory.
ghost use Rattle.std.specs.Prelude.{◌≡◌, ◌≤◌, length, OnOk, OnErr, not, ◌==◌};
ghost use Rattle.dali_memstore.specs.Sound.{AllSound};
ghost use Rattle.dali_memstore.specs.Memory.{disk_of, with_disk, apply, waits_of};
ghost use Rattle.dali_memstore.specs.State.{wrote, kept, waits};
ghost use Rattle.dali_memstore.specs.declared.event.Event.TheVariants.{Cut};

use crate::disk::Disk;
use dali_store::FileName;
use std::alloc::{AllocError, Global};

/// The four files.
#[derive(Drop)]
pub struct Disks {
    pub log: Disk,
    pub a: Disk,
    pub b: Disk,
    pub anchor: Disk,
}

impl Disks {
    /// One of the files.
    pub fn disk(&self, file: FileName) -> &Disk
        ensures { result.now ≡ disk_of file self.now }
    {
        match file {
            FileName::Log => &self.log,
            FileName::ImageA => &self.a,
            FileName::ImageB => &self.b,
            FileName::Anchor => &self.anchor,
        }
    }

    /// Writes to one of the files. Unchanged where memory is refused.
    pub fn write(
        &mut self,
        alloc: Global,
        file: FileName,
        at: usize,
        bytes: &[u8],
    ) -> Result<(), AllocError>
        requires { at ≤ length (disk_of file self.old).seen }
        ensures ok { OnOk result (self.new ≡ with_disk file (wrote at bytes.now (disk_of file self.old)) self.old) }
        ensures err { OnErr result (self.new ≡ self.old) }
    {
        match file {
            FileName::Log => self.log.write(alloc, at, bytes),
            FileName::ImageA => self.a.write(alloc, at, bytes),
            FileName::ImageB => self.b.write(alloc, at, bytes),
            FileName::Anchor => self.anchor.write(alloc, at, bytes),
        }
    }

    /// Keeps what was written to one of the files.
    pub fn sync(&mut self, file: FileName)
        requires { AllSound self.old }
        ensures { self.new ≡ with_disk file (kept (disk_of file self.old)) self.old }
    {
        match file {
            FileName::Log => self.log.sync(),
            FileName::ImageA => self.a.sync(),
            FileName::ImageB => self.b.sync(),
            FileName::Anchor => self.anchor.sync(),
        }
    }

    /// Whether a file waits for a sync.
    pub fn is_pending(&self) -> bool
        ensures { result ≡ not (waits_of self.now == 0) }
    {
        self.log.is_pending()
            || self.a.is_pending()
            || self.b.is_pending()
            || self.anchor.is_pending()
    }

    /// A crash.
    pub fn cut(&mut self, choice: u32)
        requires { AllSound self.old }
        ensures { self.new ≡ apply (Cut choice) self.old }
    {
        self.log.cut(choice, 0);
        self.a.cut(choice, 1);
        self.b.cut(choice, 2);
        self.anchor.cut(choice, 3);
    }
}
