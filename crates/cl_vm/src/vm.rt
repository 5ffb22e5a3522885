use crate::starting::widest_of;
use crate::{Buffers, Engine};
use cl_code::{Program, each_process_is_right};
use cl_ground::{Items, MOST_FIELDS, NoMemory};
use cl_value::{Ask, FieldType, Limits, LiveField, Request, Start, Trap, Tuple, Value};
use std::alloc::Global;

/// What a process is told: that it begins, or what came of the operation at which it stands. A tuple stays with its owner.
#[derive(Clone, Copy)]
pub enum Reply<'a> {
    /// It begins.
    Begin,
    /// Its `out` or `eval` was done.
    Done,
    /// Its operation took or read this tuple.
    Got(&'a Tuple),
    /// Nothing matched its `inp` or `rdp`.
    Miss,
}

/// What a process demands.
#[derive(Clone, Copy, Debug, PartialEq, Eq)]
pub enum Demand {
    /// The operation of the standing request.
    Op,
    /// Nothing more: it finished with its values. One that an `eval` made wants to land then.
    Finished,
    /// Nothing more: it can't go on.
    Trapped(Trap),
}

/// A process of a program, which goes on by one reply after another. (This project.)
///
/// Contracts say for which past it stands: how the process began, with how many ticks, and what it was told since.
#[derive(Drop)]
pub struct Vm {
    pub(crate) engine: Engine,
    pub(crate) buffers: Buffers,
    // The site of the `eval` that made it; process 0 has none.
    pub(crate) origin: Option<u32>,
    // The fields of its live tuple; process 0 has none.
    pub(crate) fields: Items<LiveField>,
    // How many of them were begun.
    pub(crate) next: usize,
    // The values of those that are computed, or the result of process 0.
    pub(crate) values: Items<Value>,
    // How many cells the function claimed that nothing waits for, and the type of what it gives.
    pub(crate) claimed: u32,
    pub(crate) gives: Option<FieldType>,
    // The site of the operation at which it stands.
    pub(crate) site: u32,
}

impl Vm {
    ghost use Rattle.std.specs.Prelude.{◌≡◌, ◌≤◌, [], length, map, IfOk, IsSome, IsTrue, None, Some};
    ghost use Rattle.cl_value.specs.LiveViews.{plain_part};
    ghost use Rattle.cl_value.specs.Views.{plain_start};
    ghost use Rattle.cl_code.specs.Plain.{plain_program};
    ghost use Rattle.cl_code.specs.Starts.{start_fits};
    ghost use Rattle.cl_vm.specs.Begins.{IsFresh};
    ghost use Rattle.cl_vm.specs.Processes.{AllFit, Answers, FitsPast, IsHeld, Past, StandsFor, demand_now, printed_by, request_of, told_more, values_of};
    ghost use Rattle.cl_ground.specs.declared.limits.TheConstants.{MOST_FIELDS};

    /// A machine for a process of the program that begins so, with room for all that it will need. The ticks are those
    /// of the limits. `NoMemory` comes where the allocator refused the room.
    pub fn start(
        alloc: Global,
        program: &Program,
        start: &Start,
        limits: &Limits,
    ) -> Result<Vm, NoMemory>
        requires { IsTrue (start_fits (plain_program program.now) (plain_start start.now)) }
        ensures { IfOk result (StandsFor (plain_program program.now) (record { steps = limits.now.steps; start = plain_start start.now; told = None })) }
    {
        let _parts = program.parts();
        match start {
            Start::Main => Vm::make(alloc, program, None, Items::new(alloc), limits.steps, 0),
            Start::Live { site, live, depth } => {
                let fields = live.copy(alloc)?.into_items();
                Vm::make(alloc, program, Some(*site), fields, limits.steps, *depth)
            }
        }
    }

    // A machine for a process with these fields.
    fn make(
        alloc: Global,
        program: &Program,
        origin: Option<u32>,
        fields: Items<LiveField>,
        steps: u64,
        depth: u32,
    ) -> Result<Vm, NoMemory>
        requires fits { AllFit (plain_program program.now) (map plain_part fields.items) }
        requires few { length fields.items ≤ MOST_FIELDS }
        ensures fresh { IfOk result (λ vm. IsFresh (plain_program program.now) steps depth vm.engine) }
        ensures held { IfOk result (IsHeld (plain_program program.now) 0) }
        ensures same { IfOk result (λ vm. (vm.origin ≡ origin) × (vm.fields ≡ fields) × (vm.next ≡ 0) × (vm.values.items ≡ [])) }
    {
        let widest = widest_of(program.functions());
        let engine = Engine::new(alloc, program, steps, depth)?;
        let buffers = Buffers::new(alloc, widest)?;
        let mut values = Items::new(alloc);
        values.reserve(MOST_FIELDS)?;
        Ok(Vm {
            engine,
            buffers,
            origin,
            fields,
            next: 0,
            values,
            claimed: 0,
            gives: None,
            site: 0,
        })
    }

    /// Goes on with this reply up to the next operation or its end. The program is the one with which it was started.
    /// It copies no tuple, and takes no memory.
    pub fn resume(&mut self, program: &Program, reply: &Reply<'_>) -> Demand
        requires { (past : Past) × StandsFor (plain_program program.now) past self.old × FitsPast (plain_program program.now) past reply.now }
        ensures stands { (past : Past) → StandsFor (plain_program program.now) past self.old → FitsPast (plain_program program.now) past reply.now → StandsFor (plain_program program.now) (told_more past reply.now) self.new }
        ensures answers { (past : Past) → StandsFor (plain_program program.now) past self.old → FitsPast (plain_program program.now) past reply.now → Answers past.start (demand_now (plain_program program.now) (told_more past reply.now)) result self.new }
    {
        each_process_is_right();
        let _parts = program.parts();
        match reply {
            Reply::Begin => self.begin(program),
            _ => self.hear(program, reply),
        }
    }

    /// The request of the operation at which it stands, or of its landing.
    pub fn request(&self) -> &Request
        requires { IsSome (request_of self.now) }
        ensures { request_of self.now ≡ Some result.now }
    {
        match &self.buffers.request {
            Some(request) => request,
            None => unreachable!(),
        }
    }

    /// The values with which it finished.
    pub fn values(&self) -> &Tuple
        requires { IsSome (values_of self.now) }
        ensures { values_of self.now ≡ Some result.now }
    {
        match &self.request().ask {
            Ask::Land(tuple) => tuple,
            _ => unreachable!(),
        }
    }

    /// What it printed so far.
    pub fn output(&self) -> &[u8]
        ensures { result.now ≡ printed_by self.now }
    {
        self.engine.output.as_slice()
    }
}
