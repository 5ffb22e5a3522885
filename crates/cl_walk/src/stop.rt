use cl_ground::NoMemory;
use cl_value::Trap;
use std::alloc::AllocError;

/// Why a walk stops before the end of its process.
#[derive(Clone, Copy, Debug, PartialEq, Eq)]
pub enum Stop {
    /// The process can't go on.
    Trapped(Trap),
    /// The world paused.
    Paused,
    /// The allocator refused memory.
    NoMemory,
}

impl From<Trap> for Stop {
    ghost use Rattle.std.specs.Prelude.{◌≡◌};
    ghost use Rattle.cl_walk.specs.declared.stop.Stop.TheVariants.{Trapped};

    ghost from_gives = { λ trap r. r ≡ Trapped trap };

    fn from(trap: Trap) -> Self {
        Stop::Trapped(trap)
    }
}

impl From<NoMemory> for Stop {
    ghost use Rattle.std.specs.Prelude.{◌≡◌};
    ghost use Rattle.cl_walk.specs.declared.stop.Stop.TheVariants.{NoMemory};

    ghost from_gives = { λ _ r. r ≡ NoMemory };

    fn from(_: NoMemory) -> Self {
        Stop::NoMemory
    }
}

impl From<AllocError> for Stop {
    ghost use Rattle.std.specs.Prelude.{◌≡◌};
    ghost use Rattle.cl_walk.specs.declared.stop.Stop.TheVariants.{NoMemory};

    ghost from_gives = { λ _ r. r ≡ NoMemory };

    fn from(_: AllocError) -> Self {
        Stop::NoMemory
    }
}
