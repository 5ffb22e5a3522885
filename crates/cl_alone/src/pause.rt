use cl_ground::NoMemory;
use cl_value::Request;

/// Why a process goes no further at an operation.
#[derive(Clone, Copy, Debug, PartialEq, Eq)]
pub enum Why {
    /// It is an `in` or `rd` that no tuple matches.
    Waits,
    /// The history has as many acts as it may have.
    Full,
    /// The allocator refused memory for its act.
    NoMemory,
    /// It is none that a run of one process does: an `eval`, a landing, or one of another text.
    Refused,
}

impl From<NoMemory> for Why {
    ghost use Rattle.std.specs.Prelude.{◌≡◌};
    ghost use Rattle.cl_alone.specs.declared.pause.Why.TheVariants.{NoMemory};

    ghost from_gives = { λ _ r. r ≡ NoMemory };

    fn from(_: NoMemory) -> Self {
        Why::NoMemory
    }
}

/// Where a process goes no further.
#[derive(Drop)]
pub struct Pause {
    /// The operation.
    pub request: Request,
    /// Why it wasn't done.
    pub why: Why,
}
