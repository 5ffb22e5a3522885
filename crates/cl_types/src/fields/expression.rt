ghost use Rattle.std.specs.Prelude.{◌≡◌, OnOk};
ghost use Rattle.cl_types.specs.Findings.{adds, seen};
ghost use Rattle.cl_types.specs.Fields.{expr_forms, place_forms, call_forms, operation_forms, inner_forms, chain_forms};
ghost use Rattle.cl_types.specs.Gathered.{each, maybe_forms};

use super::Site;
use super::form::own_forms;
use crate::scopes::Scopes;
use cl_ast::{Call, Chain, Expr, Field, Operation, Place};
use sqlite_items::{Boxed, Items};
use std::alloc::{AllocError, Global};

/// Puts the operations in an expression, each with what its fields are, behind those that are there.
#[cycle(gathering)]
pub fn expr<'a>(
    e: &'a Expr,
    alloc: Global,
    scopes: &Scopes<'_>,
    sites: &mut Items<Site<'a>>,
) -> Result<(), AllocError>
    ensures { OnOk result (seen sites.new ≡ adds (seen sites.old) (expr_forms e.now scopes.now)) }
{
    match e {
        Expr::Literal(_) => Ok(()),
        Expr::Place(part) => place(part, alloc, scopes, sites),
        Expr::Call(part) => call(part, alloc, scopes, sites),
        Expr::Operation(part) => operation(part, alloc, scopes, sites),
        Expr::Chain(part) => chain(part, alloc, scopes, sites),
        Expr::Negate(part) => expr(part.operand.get(), alloc, scopes, sites),
        Expr::Not(part) => expr(part.operand.get(), alloc, scopes, sites),
    }
}

/// The same of an index.
#[cycle(gathering)]
fn index<'a>(
    part: &'a Option<Boxed<Expr>>,
    alloc: Global,
    scopes: &Scopes<'_>,
    sites: &mut Items<Site<'a>>,
) -> Result<(), AllocError>
    ensures { OnOk result (seen sites.new ≡ adds (seen sites.old) (maybe_forms part.now scopes.now)) }
{
    match part {
        None => Ok(()),
        Some(e) => expr(e.get(), alloc, scopes, sites),
    }
}

/// The same of a place.
#[cycle(gathering)]
pub fn place<'a>(
    part: &'a Place,
    alloc: Global,
    scopes: &Scopes<'_>,
    sites: &mut Items<Site<'a>>,
) -> Result<(), AllocError>
    ensures { OnOk result (seen sites.new ≡ adds (seen sites.old) (place_forms part.now scopes.now)) }
{
    index(&part.index, alloc, scopes, sites)
}

/// The same of a call.
#[cycle(gathering)]
pub fn call<'a>(
    part: &'a Call,
    alloc: Global,
    scopes: &Scopes<'_>,
    sites: &mut Items<Site<'a>>,
) -> Result<(), AllocError>
    ensures { OnOk result (seen sites.new ≡ adds (seen sites.old) (call_forms part.now scopes.now)) }
{
    arguments(part.arguments.as_slice(), alloc, scopes, sites)
}

/// The same of arguments, one after the other.
#[cycle(gathering)]
fn arguments<'a>(
    parts: &'a [Expr],
    alloc: Global,
    scopes: &Scopes<'_>,
    sites: &mut Items<Site<'a>>,
) -> Result<(), AllocError>
    ensures { OnOk result (seen sites.new ≡ adds (seen sites.old) (each expr_forms parts.now scopes.now)) }
{
    for i in 0..parts.len() {
        expr(&parts[i], alloc, scopes, sites)?;
    }
    Ok(())
}

/// The same of an operation, which stands before those in its fields.
#[cycle(gathering)]
pub fn operation<'a>(
    part: &'a Operation,
    alloc: Global,
    scopes: &Scopes<'_>,
    sites: &mut Items<Site<'a>>,
) -> Result<(), AllocError>
    ensures { OnOk result (seen sites.new ≡ adds (seen sites.old) (operation_forms part.now scopes.now)) }
{
    let own = own_forms(alloc, part.fields.as_slice(), scopes)?;
    sites.push(Site {
        operation: part,
        forms: own,
    })?;
    fields(part.fields.as_slice(), alloc, scopes, sites)
}

/// The same of fields, one after the other.
#[cycle(gathering)]
fn fields<'a>(
    parts: &'a [Field],
    alloc: Global,
    scopes: &Scopes<'_>,
    sites: &mut Items<Site<'a>>,
) -> Result<(), AllocError>
    ensures { OnOk result (seen sites.new ≡ adds (seen sites.old) (each inner_forms parts.now scopes.now)) }
{
    for i in 0..parts.len() {
        field(&parts[i], alloc, scopes, sites)?;
    }
    Ok(())
}

/// The same of what stands in a field.
#[cycle(gathering)]
fn field<'a>(
    part: &'a Field,
    alloc: Global,
    scopes: &Scopes<'_>,
    sites: &mut Items<Site<'a>>,
) -> Result<(), AllocError>
    ensures { OnOk result (seen sites.new ≡ adds (seen sites.old) (inner_forms part.now scopes.now)) }
{
    match part {
        Field::Text(_) => Ok(()),
        Field::Formal(part) => place(&part.target, alloc, scopes, sites),
        Field::Plain(e) => expr(e, alloc, scopes, sites),
    }
}

/// The same of operands with operators between them, from the left.
#[cycle(gathering)]
fn chain<'a>(
    part: &'a Chain,
    alloc: Global,
    scopes: &Scopes<'_>,
    sites: &mut Items<Site<'a>>,
) -> Result<(), AllocError>
    ensures { OnOk result (seen sites.new ≡ adds (seen sites.old) (chain_forms part.now scopes.now)) }
{
    expr(part.first.get(), alloc, scopes, sites)?;
    let links = part.others.as_slice();
    for i in 0..links.len() {
        expr(&links[i].operand, alloc, scopes, sites)?;
    }
    Ok(())
}
