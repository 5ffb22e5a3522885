use crate::fields::sites;
use crate::item::walk;
use crate::{Fault, Site, TypeKind};
use cl_ast::{Item, Unit};
use sqlite_items::Items;
use std::alloc::{AllocError, Global};
use std::marker::Model;

/// Why a tree isn't typed.
#[derive(Clone, Copy, Debug, PartialEq, Eq)]
pub enum TypeEnd {
    /// Its first fault.
    Fault {
        /// The byte offset in the source.
        place: u32,
        /// What is wrong there.
        kind: TypeKind,
    },
    /// The allocator refused memory.
    NoMemory,
}

impl From<AllocError> for TypeEnd {
    ghost use Rattle.std.specs.Prelude.{◌≡◌};
    ghost use Rattle.cl_types.specs.declared.public.TypeEnd.TheVariants.{NoMemory};

    ghost from_gives = { λ _ r. r ≡ NoMemory };

    fn from(_: AllocError) -> Self {
        TypeEnd::NoMemory
    }
}

/// A tree without faults.
///
/// Contracts see the tree, and its type keeps that there are none.
#[derive(Drop)]
pub struct Typed {
    tree: Unit,
}

impl Model for Typed {
    ghost use Rattle.std.specs.Prelude.{◌≡◌, []};
    ghost use Rattle.cl_ast.specs.declared.statement.Unit.{Unit};
    ghost use Rattle.cl_types.specs.Unit.{faults};
    ghost use Rattle.cl_ast.specs.contracts.statement.Unit as unit;

    ghost Value = { Unit };

    ghost coded = { unit.the_row.coded };

    ghost view = { λ t. t.tree };

    ghost invariant = { λ t. faults t.tree.items ≡ [] };
}

impl Typed {
    ghost use Rattle.std.specs.Prelude.{◌≡◌, ◌≤◌, [], length, IfOk};
    ghost use Rattle.cl_types.specs.Unit.{faults};
    ghost use Rattle.cl_types.specs.Found.{findings, sites_of};
    ghost use Rattle.cl_types.specs.Findings.{seen};
    ghost use Rattle.cl_types.specs.EachTyped.{EachTyped, EachNarrow};
    ghost use Rattle.cl_ground.specs.declared.limits.TheConstants.{MOST_SITES};

    /// The tree. It takes no memory.
    pub fn unit(&self) -> &Unit
        ensures unit { result.now ≡ self.now }
        ensures faultless { faults result.now.items ≡ [] }
    {
        &self.tree
    }

    /// The operations of the tree, each with what its fields are, in the order of the text. An operation in a
    /// field of another stands behind it. There are at most 1,024, of at most 16 fields. `AllocError` comes where
    /// the allocator refused memory.
    pub fn sites(&self, alloc: Global) -> Result<Items<Site<'_>>, AllocError>
        ensures sites { IfOk result (λ sites. seen sites ≡ sites_of self.now.items) }
        ensures typed { EachTyped (findings self.now.items) }
        ensures narrow { EachNarrow (sites_of self.now.items) }
        ensures few { IfOk result (λ sites. length sites ≤ MOST_SITES) }
    {
        sites(self.tree.items.as_slice(), alloc)
    }
}

ghost use Rattle.std.specs.Prelude.{◌≡◌, ◌↔◌, true, [], IfOk};
ghost use Rattle.cl_types.specs.declared.fault.Fault.{Fault};
ghost use Rattle.cl_types.specs.Faults.{Among, first, rises};
ghost use Rattle.cl_types.specs.Unit.{collected, faults};
ghost use Rattle.cl_types.specs.Ends.{IsEndOf};

/// The first fault of a whole source, if it has one.
fn first_fault(parts: &[Item], alloc: Global) -> Result<Option<Fault>, AllocError>
    ensures { IfOk result (λ found. found ≡ first (faults parts.now)) }
{
    let journal = walk(parts, alloc)?;
    Ok(journal.least)
}

/// How the judging of a whole source ends.
#[tactic(auto, using(crate::proofs::Firsts::end_none, crate::proofs::Firsts::end_some))]
fn judge_parts(parts: &[Item], alloc: Global) -> Result<(), TypeEnd>
    ensures { IsEndOf (faults parts.now) result }
{
    match first_fault(parts, alloc) {
        Ok(None) => Ok(()),
        Ok(Some(Fault { place, kind })) => Err(TypeEnd::Fault { place, kind }),
        Err(_) => Err(TypeEnd::NoMemory),
    }
}

/// Judges a tree: whether it has no faults.
///
/// `Fault` tells the first of its faults, by place and kind; it comes exactly where there is one. `NoMemory`
/// comes where the allocator refused memory. The tree is given up then.
#[tactic(auto, using(crate::proofs::Firsts::end_typed, crate::proofs::Firsts::end_carried))]
pub fn check(alloc: Global, unit: Unit) -> Result<Typed, TypeEnd>
    ensures typed { IfOk result (λ typed. typed ≡ unit) }
    ensures faultless { IfOk result (λ typed. faults typed.items ≡ []) }
    ensures refused { IsEndOf (faults unit.items) result }
    ensures order { rises (faults unit.items) ≡ true }
    ensures members { (fault : Fault) → Among fault (faults unit.items) ↔ Among fault (collected unit.items) }
{
    match judge_parts(unit.items.as_slice(), alloc) {
        Ok(()) => Ok(Typed { tree: unit }),
        Err(end) => Err(end),
    }
}
