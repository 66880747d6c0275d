//! Why work on files was not done.
ghost use Rattle.std.specs.Prelude.{◌≡◌};
ghost use Rattle.ts_folder.specs.declared.trouble.Trouble.TheVariants.{Device, Memory};

use std::alloc::AllocError;
use std::io;
use ts_base::OutOfMemory;

/// Why work on files was not done.
#[derive(Clone, Copy, Debug)]
pub(crate) enum Trouble {
    /// The file system answered an error.
    Device,
    /// There was no memory, and no object was changed.
    Memory,
}

impl From<io::Error> for Trouble {
    ghost from_gives = { λ _ trouble. trouble ≡ Device };

    fn from(_error: io::Error) -> Trouble {
        Trouble::Device
    }
}

impl From<AllocError> for Trouble {
    ghost from_gives = { λ _ trouble. trouble ≡ Memory };

    fn from(_error: AllocError) -> Trouble {
        Trouble::Memory
    }
}

impl From<OutOfMemory> for Trouble {
    ghost from_gives = { λ _ trouble. trouble ≡ Memory };

    fn from(_error: OutOfMemory) -> Trouble {
        Trouble::Memory
    }
}
