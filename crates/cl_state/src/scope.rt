//! One scope: variables in the order of their declarations, of which the first of a name counts. (ISO/IEC 9899:1999, 6.2.1.)

use crate::Variable;
use cl_value::Value;
use indexmap::IndexMap;
use std::alloc::{AllocError, Global};
use std::marker::Model;

/// How many variables of a scope are looked up by their names alone, without a table.
pub const FEW: usize = 8;

/// The variables of a scope. A look-up compares a name with those of the first few variables, and where there are more it hashes the name once.
#[derive(Drop)]
pub struct Scope<'a> {
    variables: Vec<Variable<'a>>,
    // the place of the first of each name behind the first few
    places: IndexMap<&'a [u8], usize>,
}

impl<'a> Model for Scope<'a> {
    ghost use Rattle.std.specs.Prelude.{ℕ, ◌≡◌, List, nat_eq};
    ghost use Rattle.std.specs.Borrow.{Bor};
    ghost use Rattle.std.specs.Cmp.Lexicographic.{pointwise};
    ghost use Rattle.indexmap.specs.IndexMap.{get};
    ghost use Rattle.cl_meaning.specs.Variables as plain;
    ghost use Rattle.cl_state.specs.Views.{scope_of, place_behind};

    ghost Value = { plain.Scope };

    ghost view = { λ s. scope_of s.variables.items };

    ghost invariant = { λ s. (name : Bor (List ℕ)) → get (λ a b. pointwise nat_eq a.now b.now) s.places name ≡ place_behind name.now s.variables.items };
}

ghost use Rattle.std.specs.Prelude.{ℕ, ◌≡◌, nat_eq, OnOk, OnErr, List};
ghost use Rattle.std.specs.Borrow.{Bor};
ghost use Rattle.std.specs.Cmp.Lexicographic.{pointwise};
ghost use Rattle.indexmap.specs.IndexMap.{get};
ghost use Rattle.cl_meaning.specs.Variables.{with_element};
ghost use Rattle.cl_state.specs.Views.{variable_of, scope_of, place_in, first_or};

/// The place of the first variable of a name among these.
fn position_in(variables: &[Variable<'_>], name: &[u8]) -> Option<usize>
    ensures { result ≡ place_in name.now (scope_of variables.now) }
{
    for index in 0..variables.len() {
        if name == variables[index].name {
            return Some(index);
        }
    }
    None
}

/// The place that is kept of a name.
fn kept_place(places: &IndexMap<&[u8], usize>, name: &[u8]) -> Option<usize>
    ensures { result ≡ get (λ a b. pointwise nat_eq a.now b.now) places.now name.entry }
{
    places.get(name).copied()
}

/// Keeps the place of a name, unless one is kept. At want of memory nothing changes.
fn note<'a>(
    places: &mut IndexMap<&'a [u8], usize>,
    name: &'a [u8],
    place: usize,
) -> Result<(), AllocError>
    ensures kept { OnOk result ((q : Bor (List ℕ)) → get (λ a b. pointwise nat_eq a.now b.now) places.new q ≡ first_or name.now place q.now (get (λ a b. pointwise nat_eq a.now b.now) places.old q)) }
    ensures same { OnErr result ((q : Bor (List ℕ)) → get (λ a b. pointwise nat_eq a.now b.now) places.new q ≡ get (λ a b. pointwise nat_eq a.now b.now) places.old q) }
{
    match kept_place(places, name) {
        Some(_) => Ok(()),
        None => {
            places.insert(name, place)?;
            Ok(())
        }
    }
}

/// Gives an element of a variable a value; a place behind the last is left out.
fn set_element(variable: &mut Variable<'_>, at: usize, value: Value)
    ensures { variable_of variable.new ≡ with_element at value (variable_of variable.old) }
{
    if let Some(element) = variable.values.get_mut(at) {
        *element = value;
    }
}

impl<'a> Scope<'a> {
    ghost use Rattle.std.specs.Prelude.{◌≡◌, ◌<◌, [], ◌∷◌, ◌++◌, length, slice_get, slice_set, Some, OnOk};
    ghost use Rattle.cl_meaning.specs.Variables as plain;
    ghost use Rattle.cl_meaning.specs.Variables.{with_element};
    ghost use Rattle.cl_state.specs.Views.{variable_of, place_in};

    /// No variable. It takes no memory.
    pub fn new(alloc: Global) -> Scope<'a>
        ensures { result ≡ [] }
    {
        Scope {
            variables: Vec::new(alloc),
            places: IndexMap::new(alloc),
        }
    }

    /// The place of the first variable of a name.
    pub fn place_of(&self, name: &[u8]) -> Option<usize>
        ensures { result ≡ place_in name.now self.now }
    {
        if self.variables.len() <= FEW {
            return position_in(&self.variables, name);
        }
        match position_in(&self.variables[..FEW], name) {
            Some(place) => Some(place),
            None => kept_place(&self.places, name),
        }
    }

    /// The variable at a place.
    pub fn variable_at(&self, place: usize) -> &Variable<'a>
        requires { place < length self.now }
        ensures { slice_get self.now place ≡ Some (variable_of result.now) }
    {
        &self.variables[place]
    }

    /// Gives an element of the variable at a place a value.
    pub fn set(&mut self, place: usize, at: usize, value: Value)
        requires { place < length self.old }
        ensures { (v : plain.Variable) → slice_get self.old place ≡ Some v → self.new ≡ slice_set self.old place (with_element at value v) }
    {
        set_element(&mut self.variables[place], at, value);
    }

    /// Puts a variable behind the others. At want of memory nothing is known of the variables.
    pub fn add(&mut self, variable: Variable<'a>) -> Result<(), AllocError>
        ensures added { OnOk result (self.new ≡ self.old ++ variable_of variable.entry ∷ []) }
    {
        self.variables.reserve(1)?;
        let place = self.variables.len();
        if place >= FEW {
            note(&mut self.places, variable.name, place)?;
        }
        self.variables.push_reserved(variable);
        Ok(())
    }
}
