//! How a process goes from field to field of its live tuple, and from operation to operation. (Live tuples: Gelernter
//! 1985.)

ghost use Rattle.cl_ground.specs.declared.limits.TheConstants.{MOST_FIELDS};
ghost use Rattle.std.specs.Prelude.{◌≡◌, ◌<◌, ◌≤◌, [], length, slice_get, suc, ℕ, List, Some};
ghost use Rattle.cl_code.specs.Plain.{PlainFunction, PlainProgram, plain_program};
ghost use Rattle.cl_code.specs.Process.{CodeDemand, code_demand};
ghost use Rattle.cl_value.specs.Plain.{PlainReply, PlainStart};
ghost use Rattle.cl_vm.specs.Hears.{plain_reply};
ghost use Rattle.cl_vm.specs.Buffers.{IsReady};
ghost use Rattle.cl_vm.specs.Outermost.{IsFine, IsIdle};
ghost use Rattle.cl_vm.specs.Processes.{FitsRequest, HasClaimed, IsHeld, IsNew, SoundAt, Stood, before_field, before_main, behind_reply, came_of, landing_site};
ghost use Rattle.cl_vm.specs.declared.starting.Progress.{Progress as Reached};

use crate::outermost::function_of;
use crate::vm::{Demand, Reply, Vm};
use crate::{Flow, Progress};
use cl_code::{Program, each_process_is_right};
use cl_value::LiveField;

// The site of the landing of a process that was made by the `eval` of this site.
fn landing_site(origin: Option<u32>) -> u32
    ensures { result ≡ landing_site origin }
{
    match origin {
        Some(site) => site,
        None => 0,
    }
}

// The number of the main function.
fn main_number(program: &Program) -> u32
    ensures value { result ≡ (plain_program program.now).main }
    ensures there { (f : PlainFunction) × (slice_get (plain_program program.now).functions result ≡ Some f) }
{
    program.parts().main
}

impl Vm {
    // Does the next field, which is there, up to an operation or its end.
    fn begin_field(&mut self, program: &Program) -> Progress
        requires held { IsHeld (plain_program program.now) 0 self.old }
        requires there { self.old.next < length self.old.fields.items }
        requires idle { IsIdle (plain_program program.now) self.old.engine }
        requires fine { IsFine (before_field (plain_program program.now) self.old) }
        ensures held { IsHeld (plain_program program.now) 1 self.new }
        ensures sound { SoundAt (plain_program program.now) result self.new }
        ensures leads { (replies : List PlainReply) → before_field (plain_program program.now) self.old replies ≡ came_of (plain_program program.now) result self.new replies }
        ensures next { self.new.next ≡ suc self.old.next }
        ensures same { (self.new.fields ≡ self.old.fields) × (self.new.origin ≡ self.old.origin) }
    {
        let field = self.fields.at(self.next);
        self.next += 1;
        match field {
            LiveField::Ready(value) => Progress::Finished(*value),
            LiveField::Call {
                function,
                arguments,
                gives,
            } => {
                self.claimed = function_of(program, *function).cells;
                self.gives = Some(*gives);
                self.engine
                    .begin_call(program, *function, arguments.as_slice(), *gives)
            }
        }
    }

    // Stands at the operation of this site, or traps.
    fn stand(&mut self, program: &Program, site: u32) -> Demand
        requires held { IsHeld (plain_program program.now) 1 self.old }
        requires sound { SoundAt (plain_program program.now) (Reached.Op site) self.old }
        ensures stood { Stood (plain_program program.now) (came_of (plain_program program.now) (Reached.Op site) self.old) result self.new }
        ensures same { self.new.origin ≡ self.old.origin }
    {
        match self.engine.ask(program, site, &mut self.buffers) {
            Ok(()) => {
                self.site = site;
                Demand::Op
            }
            Err(trap) => Demand::Trapped(trap),
        }
    }

    // Asks for its landing, where all fields are computed.
    fn finish(&mut self) -> Demand
        requires ready { (widest : ℕ) × IsReady widest self.old.buffers }
        requires some { 0 < length self.old.values.items }
        requires few { length self.old.values.items ≤ MOST_FIELDS }
        requires all { length self.old.fields.items ≤ self.old.next }
        ensures stood { (p : PlainProgram) → Stood p (before_field p self.old) result self.new }
        ensures same { self.new.origin ≡ self.old.origin }
    {
        let site = landing_site(self.origin);
        self.buffers.land(site, self.values.as_slice());
        Demand::Finished
    }

    // Goes on behind what the active function came to.
    fn go_on(&mut self, program: &Program, first: Progress) -> Demand
        requires held { IsHeld (plain_program program.now) 1 self.old }
        requires sound { SoundAt (plain_program program.now) first self.old }
        requires fine { IsFine (came_of (plain_program program.now) first self.old) }
        ensures stood { Stood (plain_program program.now) (came_of (plain_program program.now) first self.old) result self.new }
        ensures same { self.new.origin ≡ self.old.origin }
    {
        let mut progress = first;
        'fields: loop {
            match progress {
                Progress::Op(site) => return self.stand(program, site),
                Progress::Trapped(trap) => return Demand::Trapped(trap),
                Progress::Finished(value) => {
                    self.values.push(value);
                    if self.next >= self.fields.len() {
                        return self.finish();
                    }
                    progress = self.begin_field(program);
                }
            }
        }
    }

    // Begins at the main function.
    fn begin_main(&mut self, program: &Program) -> Progress
        requires held { IsHeld (plain_program program.now) 0 self.old }
        requires empty { (self.old.fields.items ≡ []) × (self.old.values.items ≡ []) }
        requires idle { IsIdle (plain_program program.now) self.old.engine }
        requires fine { IsFine (before_main (plain_program program.now) self.old) }
        ensures held { IsHeld (plain_program program.now) 1 self.new }
        ensures sound { SoundAt (plain_program program.now) result self.new }
        ensures leads { (replies : List PlainReply) → before_main (plain_program program.now) self.old replies ≡ came_of (plain_program program.now) result self.new replies }
        ensures same { self.new.origin ≡ self.old.origin }
    {
        let main = main_number(program);
        let function = function_of(program, main);
        self.claimed = function.cells;
        self.gives = function.gives;
        self.engine
            .begin_function(program, main, &[], function.gives)
    }

    // Begins behind its globals.
    fn begin_first(&mut self, program: &Program) -> Demand
        requires { (demanded : List PlainReply → CodeDemand) × HasClaimed (plain_program program.now) demanded self.old }
        ensures stood { (demanded : List PlainReply → CodeDemand) → HasClaimed (plain_program program.now) demanded self.old → Stood (plain_program program.now) demanded result self.new }
        ensures same { self.new.origin ≡ self.old.origin }
    {
        match self.origin {
            None => {
                let first = self.begin_main(program);
                self.go_on(program, first)
            }
            Some(_) => {
                let first = self.begin_field(program);
                self.go_on(program, first)
            }
        }
    }

    /// Begins.
    pub(crate) fn begin(&mut self, program: &Program) -> Demand
        requires { (steps : ℕ) × (start : PlainStart) × IsNew (plain_program program.now) steps start self.old }
        ensures stood { (steps : ℕ) (start : PlainStart) → IsNew (plain_program program.now) steps start self.old → Stood (plain_program program.now) (code_demand (plain_program program.now) steps start) result self.new }
        ensures same { self.new.origin ≡ self.old.origin }
    {
        each_process_is_right();
        let _parts = program.parts();
        match self.engine.claim_globals(program) {
            Flow::On => self.begin_first(program),
            Flow::Stop(trap) => Demand::Trapped(trap),
            Flow::Over(_) | Flow::Ask(_) => unreachable!(),
        }
    }

    /// Goes on behind the operation at which it stands, with this reply.
    pub(crate) fn hear(&mut self, program: &Program, reply: &Reply<'_>) -> Demand
        requires { (demanded : List PlainReply → CodeDemand) × IsFine demanded × Stood (plain_program program.now) demanded Demand.Op self.old × (told : PlainReply) × (plain_reply reply.now ≡ Some told) × FitsRequest told self.old }
        ensures stood { (demanded : List PlainReply → CodeDemand) (told : PlainReply) → Stood (plain_program program.now) demanded Demand.Op self.old → plain_reply reply.now ≡ Some told → FitsRequest told self.old → Stood (plain_program program.now) (behind_reply told demanded) result self.new }
        ensures same { self.new.origin ≡ self.old.origin }
    {
        self.engine.hear(program, self.site, reply);
        let first = self.engine.run_function(program, self.claimed, self.gives);
        self.go_on(program, first)
    }
}
