use crate::{Function, Instr, ProgramParts};
use cl_ground::Items;
use cl_sig::{Class, Sets, Signature};
use std::marker::Model;

/// A valid program (`specs/Valid.antt`): it keeps the rules, its sets are those of its sites, and its
/// classes those of its sets. (This project.)
///
/// Contracts see its parts.
#[derive(Drop)]
pub struct Program {
    parts: ProgramParts,
}

impl Model for Program {
    ghost use Rattle.cl_code.specs.declared.parts.ProgramParts.{ProgramParts};
    ghost use Rattle.cl_code.specs.Plain.{plain_program};
    ghost use Rattle.cl_code.specs.Valid.{Valid};

    ghost Value = { ProgramParts };

    ghost view = { λ p. p.parts };

    ghost invariant = { λ p. Valid (plain_program p.parts) };
}

impl Program {
    ghost use Rattle.std.specs.Prelude.{◌≡◌, ◌<◌, length, slice_get, Some};
    ghost use Rattle.cl_sig.specs.Classes.{members, class};
    ghost use Rattle.cl_sig.specs.Numbers.{count_of};
    ghost use Rattle.cl_code.specs.Plain.{plain_program};
    ghost use Rattle.cl_code.specs.Valid.{Valid};

    /// The program of these parts. It takes no memory.
    pub fn new(parts: ProgramParts) -> Program
        requires valid { Valid (plain_program parts) }
        ensures { result ≡ parts }
    {
        Program { parts }
    }

    /// The parts again, with their room. It takes no memory.
    pub fn into_parts(self) -> ProgramParts
        ensures same { result ≡ self }
        ensures valid { Valid (plain_program result) }
    {
        let Program { parts } = self;
        parts
    }

    /// What it holds, all in one.
    pub fn parts(&self) -> &ProgramParts
        ensures same { result.now ≡ self.now }
        ensures valid { Valid (plain_program result.now) }
    {
        &self.parts
    }

    /// The instructions of all functions, in order.
    pub fn code(&self) -> &[Instr]
        ensures { result.now ≡ self.now.code.items }
    {
        self.parts.code.as_slice()
    }

    /// The functions, in order of their entries.
    pub fn functions(&self) -> &[Function]
        ensures { result.now ≡ self.now.functions.items }
    {
        self.parts.functions.as_slice()
    }

    /// The signature of each tuple operation, its site.
    pub fn sites(&self) -> &Items<Signature>
        ensures { result.now ≡ self.now.sites }
    {
        &self.parts.sites
    }

    /// The sets into which the sites fall.
    pub fn sets(&self) -> &Sets
        ensures { result.now ≡ self.now.sets }
    {
        &self.parts.sets
    }

    /// The distinct string literals that stand as fields, in order of first use.
    pub fn texts(&self) -> &Items<Items<u8>>
        ensures { result.now ≡ self.now.texts }
    {
        &self.parts.texts
    }

    /// The class of a set.
    pub fn class(&self, set: u32) -> Class
        requires exists { set < count_of self.now.sets }
        ensures value { slice_get self.now.classes.items set ≡ Some result }
        ensures class { let p = plain_program self.now in result ≡ class (members p.sites p.sets set) }
    {
        *self.parts.classes.at(set as usize)
    }
}
