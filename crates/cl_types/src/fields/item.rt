ghost use Rattle.std.specs.Prelude.{◌≡◌, OnOk, IfOk};
ghost use Rattle.cl_types.specs.Found.{function_forms, item_forms, item_behind, sites_of};
ghost use Rattle.cl_types.specs.Findings.{seen};
ghost use Rattle.cl_types.specs.Items.{function_known};
ghost use Rattle.cl_types.specs.Adds.{Adds};

use super::Site;
use super::statement::{block, variables};
use crate::Journal;
use crate::item::{declare_function, define, known_first, parameters};
use crate::scopes::Scopes;
use cl_ast::{Define, Function, Item};
use sqlite_items::Items;
use std::alloc::{AllocError, Global};

/// Makes a constant known.
fn constant<'a>(part: &'a Define, scopes: &mut Scopes<'a>) -> Result<(), AllocError>
    ensures { OnOk result (scopes.new ≡ (define_walked part.now scopes.old).known) }
{
    // What is noted here was judged before.
    let mut journal = Journal::new();
    define(part, scopes, &mut journal)
}

ghost use Rattle.cl_types.specs.Items.{define_walked};

/// Puts the operations in a function, each with what its fields are, behind those that are there, and makes the
/// function known.
fn function<'a>(
    part: &'a Function,
    alloc: Global,
    scopes: &mut Scopes<'a>,
    sites: &mut Items<Site<'a>>,
) -> Result<(), AllocError>
    ensures { OnOk result (Adds (function_forms part.now scopes.old) (function_known part.now scopes.old) scopes.new (seen sites.old) (seen sites.new)) }
{
    declare_function(part, alloc, scopes)?;
    let outer = scopes.enter();
    // What is noted of parameters was judged before.
    let mut journal = Journal::new();
    parameters(part.parameters.as_slice(), scopes, &mut journal)?;
    block(&part.body, alloc, scopes, sites)?;
    scopes.leave(outer);
    Ok(())
}

/// The same of a part of a source outside all others.
fn item<'a>(
    part: &'a Item,
    alloc: Global,
    scopes: &mut Scopes<'a>,
    sites: &mut Items<Site<'a>>,
) -> Result<(), AllocError>
    ensures { OnOk result (Adds (item_forms part.now scopes.old) (item_behind part.now scopes.old) scopes.new (seen sites.old) (seen sites.new)) }
{
    match part {
        Item::Define(part) => constant(part, scopes),
        Item::Variables(part) => variables(part, alloc, scopes, sites),
        Item::Function(part) => function(part, alloc, scopes, sites),
    }
}

/// The operations of a source, each with what its fields are, in the order of the text.
pub fn sites(parts: &[Item], alloc: Global) -> Result<Items<Site<'_>>, AllocError>
    ensures { IfOk result (λ sites. seen sites ≡ sites_of parts.now) }
{
    let mut scopes = known_first(parts, alloc)?;
    let mut sites = Items::new(alloc);
    for part in parts {
        item(part, alloc, &mut scopes, &mut sites)?;
    }
    Ok(sites)
}
