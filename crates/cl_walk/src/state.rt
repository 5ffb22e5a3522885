//! What a process works on, and the limits that it meets.

use crate::stop::Stop;
use cl_ast::TypeName;
use cl_ground::{Items, MOST_CELLS, MOST_PRINTED};
use cl_state::{Globals, Locals, Variable, converted, zero_of};
use cl_value::{Trap, Value};
use std::alloc::Global;
use std::marker::Model;
use std::mem;

/// What a process works on. Contracts see its variables and what is left of its limits, and what it printed.
#[derive(Drop)]
pub struct State<'a> {
    globals: Globals<'a>,
    locals: Locals<'a>,
    ticks: u64,
    cells: u64,
    output: Items<u8>,
}

impl<'a> Model for State<'a> {
    ghost use Rattle.std.specs.Prelude.{◌≤◌, length};
    ghost use Rattle.cl_ground.specs.declared.limits.TheConstants.{MOST_CELLS, MOST_PRINTED};
    ghost use Rattle.cl_walk.specs.Walks.{Shown};

    ghost Value = { Shown };

    ghost view = { λ s. record { state = record { variables = record { globals = s.globals; locals = s.locals }; ticks = s.ticks; cells = s.cells; printed = length s.output.items }; output = s.output.items } };

    ghost invariant = { λ s. (s.cells ≤ MOST_CELLS) × (length s.output.items ≤ MOST_PRINTED) };
}

impl<'a> State<'a> {
    ghost use Rattle.std.specs.Prelude.{ℕ, ◌≡◌, [], length, Ok, OnOk, IfErr};
    ghost use Rattle.cl_model.specs.Doing as doing;
    ghost use Rattle.cl_meaning.specs.Variables as plain;
    ghost use Rattle.cl_meaning.specs.Variables.{found, element, entered, left, back_in, called_with, declared};
    ghost use Rattle.cl_meaning.specs.Operations as meaning;
    ghost use Rattle.cl_state.specs.Views.{variable_of, found_or};
    ghost use Rattle.cl_walk.specs.Numbers.{capped};
    ghost use Rattle.cl_walk.specs.Walks.{Said, point, Comes, same};

    /// A process that has done nothing, with these globals and so many ticks.
    pub fn new(alloc: Global, globals: Globals<'a>, ticks: u64) -> State<'a>
        ensures state { result.state ≡ record { variables = record { globals = globals.entry; locals = [] }; ticks = ticks; cells = 0; printed = 0 } }
        ensures output { result.output ≡ [] }
    {
        State {
            globals,
            locals: Locals::new(alloc),
            ticks,
            cells: 0,
            output: Items::new(alloc),
        }
    }

    /// What it printed.
    pub fn into_output(self) -> Items<u8>
        ensures { result.items ≡ self.entry.output }
    {
        self.output
    }

    // The innermost variable of a name.
    fn find(&self, name: &[u8]) -> Option<&Variable<'a>>
        ensures { found_or plain.nowhere result ≡ found name.now self.now.state.variables }
    {
        match self.locals.find(name) {
            Some(variable) => Some(variable),
            None => self.globals.find(name),
        }
    }

    /// How many values a variable has.
    pub fn length(&self, name: &[u8]) -> usize
        ensures { result ≡ length (found name.now self.now.state.variables).values }
    {
        match self.find(name) {
            Some(variable) => variable.values.len(),
            None => 0,
        }
    }

    /// The type of a variable.
    pub fn type_of(&self, name: &[u8]) -> TypeName
        ensures { result ≡ (found name.now self.now.state.variables).of }
    {
        match self.find(name) {
            Some(variable) => variable.of,
            None => TypeName::Int,
        }
    }

    /// A value of a variable.
    pub fn value_at(&self, name: &[u8], at: usize) -> Value
        ensures { result ≡ element at (found name.now self.now.state.variables) }
    {
        match self.find(name) {
            Some(variable) => match variable.values.get(at) {
                Some(value) => *value,
                None => zero_of(variable.of),
            },
            None => Value::Int(0),
        }
    }

    // Gives an element of the innermost variable of a name a value.
    fn assign(&mut self, name: &[u8], at: usize, value: Value)
        ensures state { self.new.state ≡ record self.old.state { variables = plain.changed name.now (plain.with_element at value) self.old.state.variables } }
        ensures output { self.new.output ≡ self.old.output }
    {
        if !self.locals.assign(name, at, value) {
            self.globals.assign(name, at, value);
        }
    }

    /// Converts a value and stores it.
    pub fn store(&mut self, name: &[u8], at: usize, value: Value) -> Result<(), Stop>
        ensures { (said : Said) → Comes same (meaning.store name.now at value) (point self.old said) result (point self.new said) }
    {
        let value = converted(self.type_of(name), value)?;
        self.assign(name, at, value);
        Ok(())
    }

    /// How many ticks are left.
    pub fn ticks(&self) -> u64
        ensures { result ≡ self.now.state.ticks }
    {
        self.ticks
    }

    /// One tick of those that are left.
    pub fn tick(&mut self) -> Result<(), Stop>
        ensures { (said : Said) → Comes same doing.tick (point self.old said) result (point self.new said) }
    {
        if self.ticks == 0 {
            return Err(Stop::Trapped(Trap::StepLimit));
        }
        self.ticks -= 1;
        Ok(())
    }

    /// So many cells more. The number may be one that is capped.
    pub fn claim(&mut self, cells: u64) -> Result<(), Stop>
        ensures { (said : Said) (n : ℕ) → cells ≡ capped n → Comes same (doing.claim n) (point self.old said) result (point self.new said) }
    {
        let all = self.cells.saturating_add(cells);
        if all > MOST_CELLS as u64 {
            return Err(Stop::Trapped(Trap::CellLimit));
        }
        self.cells = all;
        Ok(())
    }

    /// So many cells less. The number may be one that is capped.
    pub fn release(&mut self, cells: u64)
        ensures { (said : Said) (n : ℕ) → cells ≡ capped n → Comes same (doing.release n) (point self.old said) (Ok tt) (point self.new said) }
    {
        self.cells = self.cells.saturating_sub(cells);
    }

    /// Prints all of the bytes, or none where they would be too many.
    pub fn print(&mut self, bytes: &[u8]) -> Result<(), Stop>
        ensures { (said : Said) → Comes same (doing.print bytes.now) (point self.old said) result (point self.new said) }
    {
        if bytes.len() > MOST_PRINTED - self.output.len() {
            return Err(Stop::Trapped(Trap::OutputLimit));
        }
        self.output.reserve(bytes.len())?;
        self.output.push_all(bytes);
        Ok(())
    }

    /// Begins a scope.
    pub fn enter(&mut self, alloc: Global) -> Result<(), Stop>
        ensures state { OnOk result (self.new.state ≡ record self.old.state { variables = entered self.old.state.variables }) }
        ensures output { OnOk result (self.new.output ≡ self.old.output) }
        ensures memory { IfErr result (λ stop. stop ≡ Stop.NoMemory) }
    {
        self.locals.enter(alloc)?;
        Ok(())
    }

    /// Ends the innermost scope.
    pub fn leave(&mut self)
        ensures state { self.new.state ≡ record self.old.state { variables = left self.old.state.variables } }
        ensures output { self.new.output ≡ self.old.output }
    {
        self.locals.leave();
    }

    /// Puts a variable into the innermost scope.
    pub fn declare(&mut self, variable: Variable<'a>) -> Result<(), Stop>
        ensures state { OnOk result (self.new.state ≡ record self.old.state { variables = declared (variable_of variable.entry) self.old.state.variables }) }
        ensures output { OnOk result (self.new.output ≡ self.old.output) }
        ensures memory { IfErr result (λ stop. stop ≡ Stop.NoMemory) }
    {
        self.locals.declare(variable)?;
        Ok(())
    }

    /// Other locals take the place of those that stand, which are given back.
    pub fn with_locals(&mut self, locals: Locals<'a>) -> Locals<'a>
        ensures locals { result ≡ self.old.state.variables.locals }
        ensures state { self.new.state ≡ record self.old.state { variables = back_in locals.entry self.old.state.variables } }
        ensures output { self.new.output ≡ self.old.output }
    {
        mem::replace(&mut self.locals, locals)
    }
}
