use crate::Declared;
use indexmap::IndexMap;
use std::alloc::{AllocError, Global};
use std::marker::Model;

/// A declaration in the table.
#[derive(Drop)]
pub struct Entry<'a> {
    /// The name.
    pub name: &'a [u8],
    /// What it is declared as.
    pub what: Declared,
    /// The place of the next older declaration of the name that is known, if there is one.
    pub older: Option<usize>,
}

/// The names that are known at a place of a tree.
///
/// Contracts see the declarations of the scope itself and of those round it, newest first, and the functions
/// of the whole text. A look-up hashes the name once.
#[derive(Drop)]
pub struct Scopes<'a> {
    entries: Vec<Entry<'a>>,
    newest: IndexMap<&'a [u8], Option<usize>>,
    functions: IndexMap<&'a [u8], Declared>,
    start: usize,
}

impl<'a> Model for Scopes<'a> {
    ghost use Rattle.std.specs.Prelude.{ℕ, ◌≡◌, ◌≤◌, List, ◌∷◌, ◌++◌, map, reverse, take, drop, length, nat_eq};
    ghost use Rattle.std.specs.Borrow.{Bor};
    ghost use Rattle.std.specs.Cmp.Lexicographic.{pointwise};
    ghost use Rattle.indexmap.specs.IndexMap.{get};
    ghost use Rattle.cl_types.specs.declared.scopes.Entry.{Entry};
    ghost use Rattle.cl_types.specs.Declarations.{Known};
    ghost use Rattle.cl_types.specs.Newest.{looked_up};
    ghost use Rattle.cl_types.specs.Tables.{declaration_of, place_of, function_of};

    ghost Value = { Known };

    ghost view = { λ s. record {
      here = map declaration_of (reverse (drop s.start s.entries.items));
      around = map declaration_of (reverse (take s.start s.entries.items));
      functions = map function_of s.functions.entries;
    } };

    ghost invariant = { λ s. (s.start ≤ length s.entries.items)
        × ((name : Bor (List ℕ)) → looked_up (get (λ a b. pointwise nat_eq a.now b.now) s.newest name) ≡ place_of name.now (reverse s.entries.items))
        × ((newer : List Entry) (e : Entry) (older : List Entry) → reverse s.entries.items ≡ newer ++ e ∷ older → e.older ≡ place_of e.name.now older) };
}

ghost use Rattle.std.specs.Prelude.{◌≡◌, nat_eq};
ghost use Rattle.std.specs.Cmp.Lexicographic.{pointwise};
ghost use Rattle.indexmap.specs.IndexMap.{get};
ghost use Rattle.cl_types.specs.Newest.{looked_up};

/// The place of the newest declaration of a name, if it is declared.
fn newest_of(newest: &IndexMap<&[u8], Option<usize>>, name: &[u8]) -> Option<usize>
    ensures { result ≡ looked_up (get (λ a b. pointwise nat_eq a.now b.now) newest.now name.entry) }
{
    *newest.get(name)?
}

/// The place at which a name was looked up, if it was declared.
fn looked_up(place: Option<Option<usize>>) -> Option<usize>
    ensures { result ≡ looked_up place }
{
    place?
}

impl<'a> Scopes<'a> {
    ghost use Rattle.std.specs.Prelude.{◌≡◌, ◌≤◌, [], ◌∷◌, ◌++◌, length, is_some, None, OnOk, OnErr};
    ghost use Rattle.std.specs.Option.{option_copied};
    ghost use Rattle.cl_types.specs.Declarations.{Known, look_up, is_declared_here, declare, enter, declaration_in};
    ghost use Rattle.cl_types.specs.Tables.{left, forgotten};

    /// Nothing is known.
    pub fn new(alloc: Global) -> Scopes<'a>
        ensures { result ≡ record { here = []; around = []; functions = [] } }
    {
        Scopes {
            entries: Vec::new(alloc),
            newest: IndexMap::new(alloc),
            functions: IndexMap::new(alloc),
            start: 0,
        }
    }

    /// What a name is, where it is known.
    pub fn look_up(&self, name: &[u8]) -> Option<&Declared>
        ensures { option_copied result ≡ look_up name.now self.now }
    {
        match newest_of(&self.newest, name) {
            Some(place) => Some(&self.entries[place].what),
            None => self.functions.get(name),
        }
    }

    /// Whether this very scope has declared the name.
    pub fn is_declared_here(&self, name: &[u8]) -> bool
        ensures { result ≡ is_declared_here name.now self.now }
    {
        match newest_of(&self.newest, name) {
            Some(place) => self.start <= place,
            None => false,
        }
    }

    /// Declares a name, unless this scope has it. At want of memory nothing is known of what is known then.
    pub fn declare(&mut self, name: &'a [u8], what: Declared) -> Result<(), AllocError>
        ensures declared { OnOk result (self.new ≡ declare name.now what self.old) }
    {
        if self.is_declared_here(name) {
            return Ok(());
        }
        self.entries.reserve(1)?;
        let place = self.entries.len();
        let older = looked_up(self.newest.insert(name, Some(place))?);
        self.entries.push_reserved(Entry { name, what, older });
        Ok(())
    }

    /// Begins a scope. The answer is told to `leave`.
    pub fn enter(&mut self) -> usize
        ensures known { self.new ≡ enter self.old }
        ensures outer { result ≡ length self.old.around }
    {
        let outer = self.start;
        self.start = self.entries.len();
        outer
    }

    /// Ends a scope, with all that it declared. `outer` is what `enter` told at its beginning.
    pub fn leave(&mut self, outer: usize)
        requires { outer ≤ length self.old.around }
        ensures { self.new ≡ left outer self.old }
    {
        while self.entries.len() > self.start {
            self.forget();
        }
        self.start = outer;
    }

    /// Forgets the newest declaration of this scope.
    fn forget(&mut self)
        ensures { self.new ≡ forgotten self.old }
    {
        if self.entries.len() <= self.start {
            return;
        }
        if let Some(
            Entry {
                name,
                what: _,
                older,
            },
        ) = self.entries.pop()
        {
            let _ = self.newest.insert(name, older);
        }
    }

    /// Whether a function of the text has the name.
    pub fn has_function(&self, name: &[u8]) -> bool
        ensures { result ≡ is_some (declaration_in self.now.functions name.now) }
    {
        self.functions.get(name).is_some()
    }

    /// Puts a function behind those of the text, none of which has its name.
    pub fn add_function(&mut self, name: &'a [u8], function: Declared) -> Result<(), AllocError>
        requires { declaration_in self.old.functions name.now ≡ None }
        ensures { OnOk result (self.new ≡ record self.old { functions = self.old.functions ++ record { name = name.now; what = function } ∷ [] }) }
    {
        self.functions.insert(name, function)?;
        Ok(())
    }
}
