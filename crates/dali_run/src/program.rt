//! What a run holds between two commands.
ghost use Rattle.std.specs.Prelude.{◌≡◌};
ghost use Rattle.dali_run.specs.Program.{IsDown, store_of};

use dali_core::Core;
use dali_fuse::Fuse;
use dali_store::Store;

/// The database in memory over its store, or the store alone. The store stands behind a fuse.
#[derive(Drop)]
pub enum Program<V: Store> {
    /// The program is up, or stopped where the core's engine is.
    Up { core: Core<Fuse<V>> },
    Down { store: Fuse<V> },
}

impl<V: Store> Program<V> {
    /// The program is down, and no fuse is set.
    pub fn down(store: V) -> Self
        ensures { IsDown result store }
    {
        Program::Down {
            store: Fuse::new(store, None),
        }
    }

    /// The store behind its fuse; the memory is given up.
    pub fn into_store(self) -> Fuse<V>
        ensures { result ≡ store_of self }
    {
        match self {
            Program::Up { core } => core.into_store(),
            Program::Down { store } => store,
        }
    }
}
