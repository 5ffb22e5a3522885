use crate::program::Program;
use crate::stop::Stop;
use std::alloc::Global;

/// What stays the same all over a function that is active.
#[derive(Clone, Copy)]
pub struct Context<'w, 'a> {
    /// Where memory comes from.
    pub alloc: Global,
    /// The program.
    pub program: &'w Program<'a>,
    /// How many `eval`s led to the process.
    pub depth: u32,
    /// How many more functions may be active.
    pub calls: u32,
}

impl<'w, 'a> Context<'w, 'a> {
    ghost use Rattle.std.specs.Prelude.{◌≡◌, ◌-◌, ◌<◌};

    /// That of a function which is called from here.
    pub fn called(&self) -> Context<'w, 'a>
        requires { 0 < self.now.calls }
        ensures { result ≡ record self.now { calls = self.now.calls - 1 } }
    {
        Context {
            alloc: self.alloc,
            program: self.program,
            depth: self.depth,
            calls: self.calls - 1,
        }
    }
}

ghost use Rattle.std.specs.Prelude.{◌≡◌, ◌+◌, MatchResult};

/// How many parts may be walked inside one another, in all functions that are active together, so that the host's
/// stack has a bound. One function alone never comes there: each of the at most 64 constructs that the parser takes
/// inside one another gives no more than eight levels of the tree.
pub const MAX_NESTING: u32 = 10_000;

/// One part deeper. `NoMemory` comes where no more may be.
pub fn deeper(nesting: u32) -> Result<u32, Stop>
    ensures { MatchResult result (λ inner. inner + 1 ≡ nesting) (λ stop. stop ≡ Stop.NoMemory) }
{
    if nesting == 0 {
        return Err(Stop::NoMemory);
    }
    Ok(nesting - 1)
}
