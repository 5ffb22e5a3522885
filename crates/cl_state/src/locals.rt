use crate::Variable;
use crate::scope::Scope;
use cl_value::Value;
use std::alloc::{AllocError, Global};
use std::marker::Model;

/// The scopes of a function that is active. Contracts see each scope, the innermost last. A look-up hashes the name at most once for each scope.
/// (ISO/IEC 9899:1999, 6.2.1.)
#[derive(Drop)]
pub struct Locals<'a> {
    scopes: Vec<Scope<'a>>,
}

impl<'a> Model for Locals<'a> {
    ghost use Rattle.std.specs.Prelude.{List};
    ghost use Rattle.cl_meaning.specs.Variables as plain;

    ghost Value = { List plain.Scope };

    ghost view = { λ l. l.scopes.items };
}

ghost use Rattle.std.specs.Prelude.{◌≡◌};
ghost use Rattle.cl_state.specs.Views.{innermost};

/// The place of the innermost variable of a name: the number of its scope, and its own in that.
fn innermost_in(scopes: &[Scope<'_>], name: &[u8]) -> Option<(usize, usize)>
    ensures { result ≡ innermost name.now scopes.now }
{
    let mut inner = scopes.len();
    while inner > 0 {
        inner -= 1;
        if let Some(index) = scopes[inner].place_of(name) {
            return Some((inner, index));
        }
    }
    None
}

impl<'a> Locals<'a> {
    ghost use Rattle.std.specs.Prelude.{◌≡◌, [], ◌∷◌, ◌++◌, OnOk, if◌then◌else◌};
    ghost use Rattle.std.specs.List.{list_any};
    ghost use Rattle.cl_meaning.specs.Variables as plain;
    ghost use Rattle.cl_meaning.specs.Variables.{has, found_from, set_from, with_element, declared_in, without_innermost};
    ghost use Rattle.cl_state.specs.Views.{variable_of, found_or};

    /// No scope.
    pub fn new(alloc: Global) -> Locals<'a>
        ensures { result ≡ [] }
    {
        Locals {
            scopes: Vec::new(alloc),
        }
    }

    /// The innermost variable of a name.
    pub fn find(&self, name: &[u8]) -> Option<&Variable<'a>>
        ensures { (outer : plain.Variable) → found_from name.now self.now outer ≡ found_or outer result }
    {
        match innermost_in(&self.scopes, name) {
            Some((scope, index)) => Some(self.scopes[scope].variable_at(index)),
            None => None,
        }
    }

    /// Gives an element of the innermost variable of a name a value, and tells whether there is one.
    pub fn assign(&mut self, name: &[u8], at: usize, value: Value) -> bool
        ensures told { result ≡ list_any (has name.now) self.old }
        ensures changed { self.new ≡ (if result then set_from name.now (with_element at value) self.old else self.old) }
    {
        match innermost_in(&self.scopes, name) {
            Some((scope, index)) => {
                self.scopes[scope].set(index, at, value);
                true
            }
            None => false,
        }
    }

    /// Begins a scope. At want of memory nothing is known of the scopes.
    pub fn enter(&mut self, alloc: Global) -> Result<(), AllocError>
        ensures entered { OnOk result (self.new ≡ self.old ++ [] ∷ []) }
    {
        self.scopes.reserve(1)?;
        self.scopes.push_reserved(Scope::new(alloc));
        Ok(())
    }

    /// Ends the innermost scope.
    pub fn leave(&mut self)
        ensures { self.new ≡ without_innermost self.old }
    {
        self.scopes.pop();
    }

    /// Puts a variable into the innermost scope; where there is none it is left out. At want of memory nothing is known of the scopes.
    pub fn declare(&mut self, variable: Variable<'a>) -> Result<(), AllocError>
        ensures declared { OnOk result (self.new ≡ declared_in (variable_of variable.entry) self.old) }
    {
        let count = self.scopes.len();
        if count > 0 {
            self.scopes[count - 1].add(variable)?;
        }
        Ok(())
    }
}
