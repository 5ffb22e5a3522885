ghost use Rattle.std.specs.Prelude.{◌≡◌, OnOk};
ghost use Rattle.cl_listing.specs.Listing.{in_maybe, in_change, in_form, in_declarators, in_arguments, in_block};
ghost use Rattle.cl_listing.specs.Listed.{listed_all};
ghost use Rattle.cl_listing.specs.Walks.{in_stmt, in_maybe_stmt, in_if, in_while, in_do, in_for, in_assign};

use crate::Listing;
use crate::expression::{call, expr, operation, place};
use cl_ast::{Assign, Block, Change, Declarator, Do, Expr, For, Form, If, Spanned, Stmt, While};
use sqlite_items::Boxed;
use std::alloc::AllocError;

/// Lists what stands in an expression that may be left out.
fn maybe_expr<'a>(part: &'a Option<Expr>, listing: &mut Listing<'a>) -> Result<(), AllocError>
    ensures { OnOk result (listing.new ≡ listed_all (in_maybe part.now) listing.old) }
{
    match part {
        None => Ok(()),
        Some(e) => expr(e, listing),
    }
}

/// Lists what stands in a change of a variable.
fn change<'a>(part: &'a Change, listing: &mut Listing<'a>) -> Result<(), AllocError>
    ensures { OnOk result (listing.new ≡ listed_all (in_change part.now) listing.old) }
{
    match part {
        Change::Set(e) | Change::Add(e) | Change::Subtract(e) | Change::Multiply(e) => {
            expr(e, listing)
        }
        Change::Increment | Change::Decrement => Ok(()),
    }
}

/// Lists what stands in what is changed, and behind it what stands in its change.
fn assign<'a>(part: &'a Assign, listing: &mut Listing<'a>) -> Result<(), AllocError>
    ensures { OnOk result (listing.new ≡ listed_all (in_assign part.now) listing.old) }
{
    place(&part.place, listing)?;
    change(&part.change, listing)
}

/// Lists what stands in an initial value.
fn form<'a>(part: &'a Form, listing: &mut Listing<'a>) -> Result<(), AllocError>
    ensures { OnOk result (listing.new ≡ listed_all (in_form part.now) listing.old) }
{
    match part {
        Form::Bare | Form::Array(_) => Ok(()),
        Form::Value(value) => expr(&value.expr, listing),
    }
}

/// Lists what stands in variables that are declared, one after the other.
pub fn declarators<'a>(parts: &'a [Declarator], listing: &mut Listing<'a>) -> Result<(), AllocError>
    ensures { OnOk result (listing.new ≡ listed_all (in_declarators parts.now) listing.old) }
{
    for part in parts {
        form(&part.form, listing)?;
    }
    Ok(())
}

/// Lists what stands in the arguments of `printf`, one after the other.
fn printed<'a>(parts: &'a [Spanned], listing: &mut Listing<'a>) -> Result<(), AllocError>
    ensures { OnOk result (listing.new ≡ listed_all (in_arguments parts.now) listing.old) }
{
    for part in parts {
        expr(&part.expr, listing)?;
    }
    Ok(())
}

/// Lists what stands in a statement.
#[cycle(walking)]
fn statement<'a>(part: &'a Stmt, listing: &mut Listing<'a>) -> Result<(), AllocError>
    ensures { OnOk result (listing.new ≡ listed_all (in_stmt part.now) listing.old) }
{
    match part {
        Stmt::Block(part) => block(part, listing),
        Stmt::Empty(_) => Ok(()),
        Stmt::Variables(part) => declarators(part.declarators.as_slice(), listing),
        Stmt::Assign(part) => assign(part, listing),
        Stmt::Call(part) => call(part, listing),
        Stmt::Operation(part) => operation(part, listing),
        Stmt::Print(part) => printed(part.arguments.as_slice(), listing),
        Stmt::If(part) => choose(part, listing),
        Stmt::While(part) => repeat(part, listing),
        Stmt::Do(part) => repeat_first(part, listing),
        Stmt::For(part) => count(part, listing),
        Stmt::Break(_) => Ok(()),
        Stmt::Continue(_) => Ok(()),
        Stmt::Return(part) => maybe_expr(&part.value, listing),
    }
}

/// Lists what stands in an `if`.
#[cycle(walking)]
fn choose<'a>(part: &'a If, listing: &mut Listing<'a>) -> Result<(), AllocError>
    ensures { OnOk result (listing.new ≡ listed_all (in_if part.now) listing.old) }
{
    expr(&part.test, listing)?;
    statement(part.yes.get(), listing)?;
    maybe(&part.no, listing)
}

/// Lists what stands in a `while`.
#[cycle(walking)]
fn repeat<'a>(part: &'a While, listing: &mut Listing<'a>) -> Result<(), AllocError>
    ensures { OnOk result (listing.new ≡ listed_all (in_while part.now) listing.old) }
{
    expr(&part.test, listing)?;
    statement(part.body.get(), listing)
}

/// Lists what stands in a `do`.
#[cycle(walking)]
fn repeat_first<'a>(part: &'a Do, listing: &mut Listing<'a>) -> Result<(), AllocError>
    ensures { OnOk result (listing.new ≡ listed_all (in_do part.now) listing.old) }
{
    statement(part.body.get(), listing)?;
    expr(&part.test, listing)
}

/// Lists what stands in a `for`: its head before its statement.
#[cycle(walking)]
fn count<'a>(part: &'a For, listing: &mut Listing<'a>) -> Result<(), AllocError>
    ensures { OnOk result (listing.new ≡ listed_all (in_for part.now) listing.old) }
{
    maybe(&part.first, listing)?;
    maybe_expr(&part.test, listing)?;
    maybe(&part.step, listing)?;
    statement(part.body.get(), listing)
}

/// Lists what stands in a statement that may be left out.
#[cycle(walking)]
fn maybe<'a>(part: &'a Option<Boxed<Stmt>>, listing: &mut Listing<'a>) -> Result<(), AllocError>
    ensures { OnOk result (listing.new ≡ listed_all (in_maybe_stmt part.now) listing.old) }
{
    match part {
        None => Ok(()),
        Some(part) => statement(part.get(), listing),
    }
}

/// Lists what stands in the statements of a block, one after the other.
#[cycle(walking)]
pub fn block<'a>(part: &'a Block, listing: &mut Listing<'a>) -> Result<(), AllocError>
    ensures { OnOk result (listing.new ≡ listed_all (in_block part.now) listing.old) }
{
    let parts = part.statements.as_slice();
    for i in 0..parts.len() {
        statement(&parts[i], listing)?;
    }
    Ok(())
}
