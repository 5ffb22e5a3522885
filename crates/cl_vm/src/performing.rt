//! What an engine does at an operation. (The operations: Gelernter 1985.)

ghost use Rattle.cl_ground.specs.declared.limits.TheConstants.{MOST_FIELDS};
ghost use Rattle.std.specs.Prelude.{◌≡◌, ◌*◌, ◌<◌, ◌≤◌, IsTrue, OnOk, Some, length, map, slice_get};
ghost use Rattle.std.specs.List.{list_all};
ghost use Rattle.cl_code.specs.Plain.{PlainProgram, plain_function, plain_program};
ghost use Rattle.cl_code.specs.Sites.{none_or, places, takes};
ghost use Rattle.cl_code.specs.Valid.{Valid, function_is_short};
ghost use Rattle.cl_sig.specs.Views.{plain_signature};
ghost use Rattle.cl_vm.specs.Asks.{AsksAt, StandsAt};
ghost use Rattle.cl_vm.specs.Buffers.{IsReady};
ghost use Rattle.cl_value.specs.Plain.{PlainReply};
ghost use Rattle.cl_vm.specs.Hears.{Fits, Heard, plain_reply};
ghost use Rattle.cl_vm.specs.Parts.{widest_of};
ghost use Rattle.cl_vm.specs.Runs.{Runs};

use crate::Engine;
use crate::asking::{first_call, parameters_of};
use crate::buffers::Buffers;
use crate::hearing::push_told;
use crate::vm::Reply;
use cl_code::{Function, Program, each_height_is_met, each_instruction_leads_on};
use cl_sig::{Mark, Signature};
use cl_value::Trap;

// How many numbers these fields take.
fn count_of(functions: &[Function], marks: &[Mark], calls: &[Option<u32>]) -> usize
    requires few { length marks.now ≤ MOST_FIELDS }
    requires short { IsTrue (list_all function_is_short (map plain_function functions.now)) }
    ensures value { (p : PlainProgram) → p.functions ≡ map plain_function functions.now → result ≡ takes p (places marks.now calls.now) }
    ensures few { result ≤ length marks.now * 4294967296 }
{
    match marks {
        [] => 0,
        [mark, rest @ ..] => {
            let (call, others) = first_call(calls);
            match (*mark, call) {
                (Mark::Actual(_), None) => 1 + count_of(functions, rest, others),
                (Mark::Actual(_), Some(function)) => {
                    let own = parameters_of(functions, function).len();
                    own + count_of(functions, rest, others)
                }
                (Mark::Constant(_), _) => count_of(functions, rest, others),
                (Mark::Formal(_), _) => count_of(functions, rest, others),
            }
        }
    }
}

// The functions of a site's fields, where they are calls.
fn calls_of(program: &Program, site: u32) -> &[Option<u32>]
    ensures { result.now ≡ none_or (slice_get (plain_program program.now).calls site) }
{
    let parts = program.parts();
    let k = site as usize;
    if k >= parts.calls.len() {
        return &[];
    }
    parts.calls.at(k).as_slice()
}

impl Engine {
    // The signature of the site at whose operation it stands.
    fn site_of<'a>(&self, program: &'a Program, site: u32) -> &'a Signature
        requires runs { Runs (plain_program program.now) self.now }
        requires here { StandsAt (plain_program program.now) site self.now }
        ensures valid { Valid (plain_program program.now) }
        ensures is { slice_get (plain_program program.now).sites site ≡ Some (plain_signature result.now) }
    {
        each_height_is_met();
        each_instruction_leads_on();
        let parts = program.parts();
        parts.sites.at(site as usize)
    }

    /// Asks for the operation at which it stands, or traps.
    pub(crate) fn ask(
        &self,
        program: &Program,
        site: u32,
        buffers: &mut Buffers,
    ) -> Result<(), Trap>
        requires runs { Runs (plain_program program.now) self.now }
        requires here { StandsAt (plain_program program.now) site self.now }
        requires ready { IsReady (widest_of (plain_program program.now).functions) buffers.old }
        ensures asks { AsksAt (plain_program program.now) site self.now result buffers.new }
        ensures ready { OnOk result (IsReady (widest_of (plain_program program.now).functions) buffers.new) }
    {
        each_height_is_met();
        each_instruction_leads_on();
        let signature = self.site_of(program, site);
        let functions = program.functions();
        let calls = calls_of(program, site);
        let count = count_of(functions, signature.fields.as_slice(), calls);
        let numbers = self.memory.top(count);
        buffers.ask(self.depth, functions, site, signature, calls, numbers)
    }

    /// Goes on behind the operation at which it stands, with what this reply gives.
    pub(crate) fn hear(&mut self, program: &Program, site: u32, reply: &Reply<'_>)
        requires runs { Runs (plain_program program.now) self.old }
        requires here { StandsAt (plain_program program.now) site self.old }
        ensures runs { (told : PlainReply) → plain_reply reply.now ≡ Some told → Fits (plain_program program.now) site told self.old → Runs (plain_program program.now) self.new }
        ensures stands { (told : PlainReply) → plain_reply reply.now ≡ Some told → Heard (plain_program program.now) site told self.old self.new }
    {
        each_height_is_met();
        each_instruction_leads_on();
        let signature = self.site_of(program, site);
        let marks = signature.fields.as_slice();
        let count = count_of(program.functions(), marks, calls_of(program, site));
        self.memory.drop_top(count);
        push_told(&mut self.memory, signature.kind, marks, reply);
        self.place += 1;
    }
}
