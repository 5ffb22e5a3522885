use crate::{Live, Template, Tuple};
use cl_ground::NoMemory;
use std::alloc::Global;

/// A tuple operation (Gelernter 1985; Carriero and Gelernter, "How to Write Parallel Programs"), or the
/// landing of a live tuple.
#[derive(Drop)]
pub enum Ask {
    /// Adds the tuple.
    Out(Tuple),
    /// Waits for a matching tuple and takes it away.
    In(Template),
    /// Waits for a matching tuple and leaves it.
    Rd(Template),
    /// As `In`, but never waits: it misses where nothing matches.
    Inp(Template),
    /// As `Rd`, but never waits: it misses where nothing matches.
    Rdp(Template),
    /// Makes a process that computes the live tuple.
    Eval(Live),
    /// Adds the tuple that a process has computed from its live tuple, which is its last act.
    Land(Tuple),
}

impl Ask {
    ghost use Rattle.std.specs.Prelude.{◌≡◌, IfOk};
    ghost use Rattle.cl_value.specs.Views.{plain_ask};

    /// An equal operation. `NoMemory` comes where the allocator refused its room.
    pub fn copy(&self, alloc: Global) -> Result<Ask, NoMemory>
        ensures { IfOk result (λ ask. plain_ask ask ≡ plain_ask self.now) }
    {
        match self {
            Ask::Out(tuple) => Ok(Ask::Out(tuple.copy(alloc)?)),
            Ask::In(template) => Ok(Ask::In(template.copy(alloc)?)),
            Ask::Rd(template) => Ok(Ask::Rd(template.copy(alloc)?)),
            Ask::Inp(template) => Ok(Ask::Inp(template.copy(alloc)?)),
            Ask::Rdp(template) => Ok(Ask::Rdp(template.copy(alloc)?)),
            Ask::Eval(live) => Ok(Ask::Eval(live.copy(alloc)?)),
            Ask::Land(tuple) => Ok(Ask::Land(tuple.copy(alloc)?)),
        }
    }
}

/// An operation with the number of its site.
#[derive(Drop)]
pub struct Request {
    /// The number of the operation in the text, from 0. A landing has the site of its `eval`.
    pub site: u32,
    /// The operation.
    pub ask: Ask,
}

impl Request {
    ghost use Rattle.std.specs.Prelude.{◌≡◌, IfOk};
    ghost use Rattle.cl_value.specs.Views.{plain_request};

    /// An equal request. `NoMemory` comes where the allocator refused its room.
    pub fn copy(&self, alloc: Global) -> Result<Request, NoMemory>
        ensures { IfOk result (λ request. plain_request request ≡ plain_request self.now) }
    {
        let ask = self.ask.copy(alloc)?;
        Ok(Request {
            site: self.site,
            ask,
        })
    }
}
