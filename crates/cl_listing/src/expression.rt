ghost use Rattle.std.specs.Prelude.{◌≡◌, OnOk, map};
ghost use Rattle.cl_listing.specs.Listing.{joined, in_expr, in_place, in_call, in_operation, in_maybe};
ghost use Rattle.cl_listing.specs.Listed.{listed_all};
ghost use Rattle.cl_listing.specs.Walks.{in_field, in_chain};

use crate::Listing;
use cl_ast::{Call, Chain, Expr, Field, Operation, Place};
use sqlite_items::Boxed;
use std::alloc::AllocError;

/// Lists what stands in an expression.
#[cycle(listing)]
pub fn expr<'a>(e: &'a Expr, listing: &mut Listing<'a>) -> Result<(), AllocError>
    ensures { OnOk result (listing.new ≡ listed_all (in_expr e.now) listing.old) }
{
    match e {
        Expr::Literal(_) => Ok(()),
        Expr::Place(part) => place(part, listing),
        Expr::Call(part) => call(part, listing),
        Expr::Operation(part) => operation(part, listing),
        Expr::Chain(part) => chain(part, listing),
        Expr::Negate(part) => expr(part.operand.get(), listing),
        Expr::Not(part) => expr(part.operand.get(), listing),
    }
}

/// Lists what stands in an index.
#[cycle(listing)]
fn index<'a>(part: &'a Option<Boxed<Expr>>, listing: &mut Listing<'a>) -> Result<(), AllocError>
    ensures { OnOk result (listing.new ≡ listed_all (in_maybe part.now) listing.old) }
{
    match part {
        None => Ok(()),
        Some(e) => expr(e.get(), listing),
    }
}

/// Lists what stands in a place that is read or written.
#[cycle(listing)]
pub fn place<'a>(part: &'a Place, listing: &mut Listing<'a>) -> Result<(), AllocError>
    ensures { OnOk result (listing.new ≡ listed_all (in_place part.now) listing.old) }
{
    index(&part.index, listing)
}

/// Lists what stands in a call.
#[cycle(listing)]
pub fn call<'a>(part: &'a Call, listing: &mut Listing<'a>) -> Result<(), AllocError>
    ensures { OnOk result (listing.new ≡ listed_all (in_call part.now) listing.old) }
{
    arguments(part.arguments.as_slice(), listing)
}

/// Lists what stands in arguments, one after the other.
#[cycle(listing)]
fn arguments<'a>(parts: &'a [Expr], listing: &mut Listing<'a>) -> Result<(), AllocError>
    ensures { OnOk result (listing.new ≡ listed_all (joined (map in_expr parts.now)) listing.old) }
{
    for i in 0..parts.len() {
        expr(&parts[i], listing)?;
    }
    Ok(())
}

/// Lists an operation, and behind it what stands in its fields.
#[cycle(listing)]
pub fn operation<'a>(part: &'a Operation, listing: &mut Listing<'a>) -> Result<(), AllocError>
    ensures { OnOk result (listing.new ≡ listed_all (in_operation part.now) listing.old) }
{
    listing.add_site(part.span.start)?;
    fields(part.fields.as_slice(), listing)
}

/// Lists what stands in fields, one after the other.
#[cycle(listing)]
fn fields<'a>(parts: &'a [Field], listing: &mut Listing<'a>) -> Result<(), AllocError>
    ensures { OnOk result (listing.new ≡ listed_all (joined (map in_field parts.now)) listing.old) }
{
    for i in 0..parts.len() {
        field(&parts[i], listing)?;
    }
    Ok(())
}

/// Lists a text that is a field, or what stands in another field.
#[cycle(listing)]
fn field<'a>(part: &'a Field, listing: &mut Listing<'a>) -> Result<(), AllocError>
    ensures { OnOk result (listing.new ≡ listed_all (in_field part.now) listing.old) }
{
    match part {
        Field::Text(text) => listing.add_text(text.bytes.as_slice()),
        Field::Formal(part) => place(&part.target, listing),
        Field::Plain(e) => expr(e, listing),
    }
}

/// Lists what stands in operands with operators between them, from the left.
#[cycle(listing)]
fn chain<'a>(part: &'a Chain, listing: &mut Listing<'a>) -> Result<(), AllocError>
    ensures { OnOk result (listing.new ≡ listed_all (in_chain part.now) listing.old) }
{
    expr(part.first.get(), listing)?;
    let links = part.others.as_slice();
    for i in 0..links.len() {
        expr(&links[i].operand, listing)?;
    }
    Ok(())
}
