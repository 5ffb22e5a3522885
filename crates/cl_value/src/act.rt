use crate::{Live, Template, Tuple};
use cl_ground::NoMemory;
use std::alloc::Global;

/// A tuple operation that was done (Gelernter 1985; Carriero and Gelernter, "How to Write Parallel
/// Programs"), with what it took, read or missed.
#[derive(Drop)]
pub enum What {
    /// Added the tuple.
    Out(Tuple),
    /// Took the tuple, which the template matches.
    In(Template, Tuple),
    /// Read the tuple, which the template matches, and left it.
    Rd(Template, Tuple),
    /// As `In`, by an `inp`.
    InpHit(Template, Tuple),
    /// An `inp` for which nothing matched.
    InpMiss(Template),
    /// As `Rd`, by an `rdp`.
    RdpHit(Template, Tuple),
    /// An `rdp` for which nothing matched.
    RdpMiss(Template),
    /// Made a process that computes the live tuple.
    Eval(Live),
    /// Added the tuple that a process has computed from its live tuple, as its last act.
    Land(Tuple),
}

impl What {
    ghost use Rattle.std.specs.Prelude.{◌≡◌, IfOk};
    ghost use Rattle.cl_value.specs.Views.{plain_what};

    /// An equal operation. `NoMemory` comes where the allocator refused its room.
    pub fn copy(&self, alloc: Global) -> Result<What, NoMemory>
        ensures { IfOk result (λ what. plain_what what ≡ plain_what self.now) }
    {
        match self {
            What::Out(tuple) => Ok(What::Out(tuple.copy(alloc)?)),
            What::In(template, tuple) => { Ok(What::In(template.copy(alloc)?, tuple.copy(alloc)?)) }
            What::Rd(template, tuple) => { Ok(What::Rd(template.copy(alloc)?, tuple.copy(alloc)?)) }
            What::InpHit(template, tuple) => {
                Ok(What::InpHit(template.copy(alloc)?, tuple.copy(alloc)?))
            }
            What::InpMiss(template) => Ok(What::InpMiss(template.copy(alloc)?)),
            What::RdpHit(template, tuple) => {
                Ok(What::RdpHit(template.copy(alloc)?, tuple.copy(alloc)?))
            }
            What::RdpMiss(template) => Ok(What::RdpMiss(template.copy(alloc)?)),
            What::Eval(live) => Ok(What::Eval(live.copy(alloc)?)),
            What::Land(tuple) => Ok(What::Land(tuple.copy(alloc)?)),
        }
    }
}

/// One step of a run: an operation that was done by a process.
#[derive(Drop)]
pub struct Act {
    /// Its place among all acts of the run, from 1.
    pub ticket: u64,
    /// The name of the process: 0, or the ticket of the `eval` that made it.
    pub proc: u64,
    /// The number of the operation in the text, from 0. A landing has the site of its `eval`.
    pub site: u32,
    /// The operation.
    pub what: What,
}

impl Act {
    ghost use Rattle.std.specs.Prelude.{◌≡◌, IfOk};
    ghost use Rattle.cl_value.specs.Views.{plain_act};

    /// An equal act. `NoMemory` comes where the allocator refused its room.
    pub fn copy(&self, alloc: Global) -> Result<Act, NoMemory>
        ensures { IfOk result (λ act. plain_act act ≡ plain_act self.now) }
    {
        let what = self.what.copy(alloc)?;
        Ok(Act {
            ticket: self.ticket,
            proc: self.proc,
            site: self.site,
            what,
        })
    }
}
