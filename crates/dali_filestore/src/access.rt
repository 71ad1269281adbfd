//! What a store may do with its files.
ghost use Rattle.std.specs.Prelude.{◌≡◌};
ghost use Rattle.dali_filestore.specs.Access.{options_of};

use std::fs::OpenOptions;

/// What a store may do with its files.
#[derive(Clone, Copy, PartialEq, Eq)]
pub enum Access {
    /// Read and write. Files that are absent are made.
    Writing,
    /// Read alone. Nothing is made or changed, and an absent file counts as empty.
    Reading,
}

impl Access {
    // How the files are opened.
    pub(crate) fn options(self) -> OpenOptions
        ensures { result ≡ options_of self }
    {
        let mut options = OpenOptions::new();
        options.read(true);
        if self == Access::Writing {
            options.write(true);
            options.create(true);
        }
        options
    }
}
