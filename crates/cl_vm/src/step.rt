//! One instruction after another. (This project.)

ghost use Rattle.std.specs.Prelude.{◌≡◌, ◌<◌, ◌≤◌, ◌+◌, ◌-◌, ◌^◌, length, slice_get, Some};
ghost use Rattle.cl_ground.specs.declared.limits.TheConstants.{MOST_CELLS};
ghost use Rattle.cl_code.specs.Plain.{plain_program};
ghost use Rattle.cl_code.specs.Sites.{parameters_at};
ghost use Rattle.cl_code.specs.Valid.{Valid};
ghost use Rattle.cl_vm.specs.Engine.{Acted};
ghost use Rattle.cl_vm.specs.Runs.{CanCall, HasNeeds, Ran, Runs, Stepped};

use crate::{Engine, Flow};
use cl_code::{Instr, Program, each_height_is_met, each_instruction_leads_on};
use core::mem::replace_with;

impl Engine {
    // The next instruction.
    #[inline(always)]
    fn fetch<'a>(&self, program: &'a Program) -> &'a Instr
        requires { Runs (plain_program program.now) self.now }
        ensures here { slice_get (plain_program program.now).code self.now.place ≡ Some result.now }
        ensures needs { HasNeeds (plain_program program.now) result.now self.now }
        ensures place { self.now.place + 1 < 2 ^ 32 }
        ensures valid { Valid (plain_program program.now) }
    {
        each_height_is_met();
        each_instruction_leads_on();
        let parts = program.parts();
        parts.code.at(self.place)
    }

    // Calls the function of this number.
    #[inline(always)]
    fn call_number(&mut self, program: &Program, k: u32) -> Flow
        requires function { CanCall (plain_program program.now) k (record self.old { place = self.old.place - 1 }) }
        requires operands { length (parameters_at (plain_program program.now) k) ≤ length self.old.memory.stack }
        requires place { self.old.place < 2 ^ 32 }
        requires limit { self.old.cells ≤ MOST_CELLS }
        ensures { Acted (plain_program program.now) (Instr.Call k) self.old result self.new }
    {
        let functions = program.functions();
        let function = &functions[k as usize];
        self.call(function)
    }

    // Does an instruction of the program, behind which it stands.
    #[inline(always)]
    #[tactic(auto, unfolding(cl_code::specs::Machine::effect))]
    fn perform(&mut self, program: &Program, i: &Instr) -> Flow
        requires needs { HasNeeds (plain_program program.now) i.now (record self.old { place = self.old.place - 1 }) }
        requires place { (0 < self.old.place) × (self.old.place < 2 ^ 32) }
        ensures { Acted (plain_program program.now) i.now self.old result self.new }
    {
        match *i {
            Instr::PushInt(n) => self.push_number(i64::from(n)),
            Instr::PushLong(n) => self.push_number(n),
            Instr::LoadLocal(k) => self.load_local(k),
            Instr::LoadGlobal(k) => self.load_global(k),
            Instr::StoreLocal(k) => self.store_local(k),
            Instr::StoreGlobal(k) => self.store_global(k),
            Instr::LoadLocalAt(base, count) => self.load_local_at(base, count),
            Instr::LoadGlobalAt(base, count) => self.load_global_at(base, count),
            Instr::StoreLocalAt(base, count) => self.store_local_at(base, count),
            Instr::StoreGlobalAt(base, count) => self.store_global_at(base, count),
            Instr::CheckIndex(count) => self.check_index(count),
            Instr::Clear(base, count) => self.clear(base, count),
            Instr::AddInt => self.add_int(),
            Instr::SubInt => self.sub_int(),
            Instr::MulInt => self.mul_int(),
            Instr::DivInt => self.div_int(),
            Instr::RemInt => self.rem_int(),
            Instr::NegInt => self.neg_int(),
            Instr::AddLong => self.add_long(),
            Instr::SubLong => self.sub_long(),
            Instr::MulLong => self.mul_long(),
            Instr::DivLong => self.div_long(),
            Instr::RemLong => self.rem_long(),
            Instr::NegLong => self.neg_long(),
            Instr::Less => self.less(),
            Instr::LessEqual => self.less_equal(),
            Instr::Greater => self.greater(),
            Instr::GreaterEqual => self.greater_equal(),
            Instr::Equal => self.equal(),
            Instr::NotEqual => self.not_equal(),
            Instr::Not => self.invert(),
            Instr::Narrow => self.narrow(),
            Instr::ToChar => self.to_char(),
            Instr::Jump(to) => self.jump(to),
            Instr::JumpZero(to) => self.jump_zero(to),
            Instr::Tick => self.tick(),
            Instr::Call(k) => self.call_number(program, k),
            Instr::Return => self.give_back(),
            Instr::Pop => self.drop_number(),
            Instr::Print(format) => self.show(program, format),
            Instr::Perform(site) => {
                self.place -= 1;
                Flow::Ask(site)
            }
        }
    }

    /// Does one instruction.
    #[inline(always)]
    pub(crate) fn step(&mut self, program: &Program) -> Flow
        requires { Runs (plain_program program.now) self.old }
        ensures { Stepped (plain_program program.now) self.old result self.new }
    {
        each_height_is_met();
        each_instruction_leads_on();
        let i = self.fetch(program);
        self.place += 1;
        self.perform(program, i)
    }

    // Does instructions up to a trap, an end, an operation or an output. The place and the height of the stack of an
    // engine that is owned stay in registers; behind a reference they are loaded and stored at each instruction.
    fn run_on(mut self, program: &Program) -> (Engine, Flow)
        requires { Runs (plain_program program.now) self }
        ensures { Ran (plain_program program.now) self result.1 result.0 }
    {
        'steps: loop {
            match self.step(program) {
                Flow::On => {}
                flow => return (self, flow),
            }
        }
    }

    /// Does instructions up to a trap, an end, an operation or an output.
    pub(crate) fn run(&mut self, program: &Program) -> Flow
        requires { Runs (plain_program program.now) self.old }
        ensures { Ran (plain_program program.now) self.old result self.new }
    {
        replace_with(self, program, Engine::run_on)
    }
}
