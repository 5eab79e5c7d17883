ghost use Rattle.std.specs.Prelude.{◌≡◌};

use std::alloc::AllocError;
use thiserror::Error;

/// Why a litmus test has no list of sites.
#[derive(Clone, Copy, Debug, Error)]
pub enum SitesFault {
    /// The events and the sites behind the calls up to the one in this line, counted from 1, are more than 128.
    #[error("too many events")]
    TooManyEvents { line: u32 },
    /// Memory was refused.
    #[error("out of memory")]
    OutOfMemory,
}

impl From<AllocError> for SitesFault {
    ghost use Rattle.sync_sites.specs.declared.fault.SitesFault.TheVariants.{OutOfMemory};

    ghost from_gives = { λ _ e. e ≡ OutOfMemory };

    fn from(_error: AllocError) -> SitesFault {
        SitesFault::OutOfMemory
    }
}
