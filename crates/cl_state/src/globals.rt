use crate::Variable;
use crate::scope::Scope;
use cl_value::Value;
use std::alloc::{AllocError, Global};
use std::marker::Model;

/// The variables of a process that all its functions share, and the defined constants. Contracts see them as one scope. A look-up hashes the name
/// once at most. (ISO/IEC 9899:1999, 6.9.2.)
#[derive(Drop)]
pub struct Globals<'a> {
    scope: Scope<'a>,
}

impl<'a> Model for Globals<'a> {
    ghost use Rattle.cl_meaning.specs.Variables as plain;

    ghost Value = { plain.Scope };

    ghost view = { λ g. g.scope };
}

impl<'a> Globals<'a> {
    ghost use Rattle.std.specs.Prelude.{◌≡◌, [], ◌∷◌, ◌++◌, OnOk};
    ghost use Rattle.cl_meaning.specs.Variables as plain;
    ghost use Rattle.cl_meaning.specs.Variables.{in_scope, set_in, with_element};
    ghost use Rattle.cl_state.specs.Views.{variable_of, found_or};

    /// No variable.
    pub fn new(alloc: Global) -> Globals<'a>
        ensures { result ≡ [] }
    {
        Globals {
            scope: Scope::new(alloc),
        }
    }

    /// The first variable of a name.
    pub fn find(&self, name: &[u8]) -> Option<&Variable<'a>>
        ensures { (outer : plain.Variable) → in_scope name.now self.now outer ≡ found_or outer result }
    {
        match self.scope.place_of(name) {
            Some(place) => Some(self.scope.variable_at(place)),
            None => None,
        }
    }

    /// Gives an element of the first variable of a name a value; where there is none nothing happens.
    pub fn assign(&mut self, name: &[u8], at: usize, value: Value)
        ensures { self.new ≡ set_in name.now (with_element at value) self.old }
    {
        if let Some(place) = self.scope.place_of(name) {
            self.scope.set(place, at, value);
        }
    }

    /// Puts a variable behind the others. At want of memory nothing is known of the variables.
    pub fn add(&mut self, variable: Variable<'a>) -> Result<(), AllocError>
        ensures added { OnOk result (self.new ≡ self.old ++ variable_of variable.entry ∷ []) }
    {
        self.scope.add(variable)
    }
}
