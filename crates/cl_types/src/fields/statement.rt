ghost use Rattle.std.specs.Prelude.{◌≡◌, OnOk};
ghost use Rattle.cl_types.specs.Findings.{adds, seen};
ghost use Rattle.cl_types.specs.Declarations.{enter};
ghost use Rattle.cl_types.specs.Gathered.{maybe_forms};
ghost use Rattle.cl_types.specs.Found.{change_forms, assign_forms, initial_forms, declarator_forms, variable_behind, variables_forms, printed_forms, known_behind, stmt_forms, block_forms};
ghost use Rattle.cl_types.specs.Adds.{Adds, behind_all, alone_forms, maybe_stmt_forms, if_parts, while_parts, do_parts, for_parts};
ghost use Rattle.cl_types.specs.Walks.{Keeps};

use super::Site;
use super::expression::{call, expr, operation, place};
use crate::declare::declared;
use crate::scopes::Scopes;
use cl_ast::{
    Assign, Block, Change, Declarator, Do, Expr, For, Form, If, Spanned, Stmt, TypeName, Variables,
    While,
};
use sqlite_items::{Boxed, Items};
use std::alloc::{AllocError, Global};

/// Puts the operations in an expression that may be left out, each with what its fields are, behind those that
/// are there.
fn maybe_expr<'a>(
    part: &'a Option<Expr>,
    alloc: Global,
    scopes: &Scopes<'_>,
    sites: &mut Items<Site<'a>>,
) -> Result<(), AllocError>
    ensures { OnOk result (seen sites.new ≡ adds (seen sites.old) (maybe_forms part.now scopes.now)) }
{
    match part {
        None => Ok(()),
        Some(e) => expr(e, alloc, scopes, sites),
    }
}

/// The same of a change of a variable.
fn change<'a>(
    part: &'a Change,
    alloc: Global,
    scopes: &Scopes<'_>,
    sites: &mut Items<Site<'a>>,
) -> Result<(), AllocError>
    ensures { OnOk result (seen sites.new ≡ adds (seen sites.old) (change_forms part.now scopes.now)) }
{
    match part {
        Change::Set(e) | Change::Add(e) | Change::Subtract(e) | Change::Multiply(e) => {
            expr(e, alloc, scopes, sites)
        }
        Change::Increment | Change::Decrement => Ok(()),
    }
}

/// The same of what is changed, and behind it of its change.
fn assign<'a>(
    part: &'a Assign,
    alloc: Global,
    scopes: &Scopes<'_>,
    sites: &mut Items<Site<'a>>,
) -> Result<(), AllocError>
    ensures { OnOk result (seen sites.new ≡ adds (seen sites.old) (assign_forms part.now scopes.now)) }
{
    place(&part.place, alloc, scopes, sites)?;
    change(&part.change, alloc, scopes, sites)
}

/// The same of an initial value.
fn initial<'a>(
    part: &'a Form,
    alloc: Global,
    scopes: &Scopes<'_>,
    sites: &mut Items<Site<'a>>,
) -> Result<(), AllocError>
    ensures { OnOk result (seen sites.new ≡ adds (seen sites.old) (initial_forms part.now scopes.now)) }
{
    match part {
        Form::Bare | Form::Array(_) => Ok(()),
        Form::Value(value) => expr(&value.expr, alloc, scopes, sites),
    }
}

/// The same of a variable, which is known behind its initial value.
fn declarator<'a>(
    type_name: TypeName,
    part: &'a Declarator,
    alloc: Global,
    scopes: &mut Scopes<'a>,
    sites: &mut Items<Site<'a>>,
) -> Result<(), AllocError>
    ensures adds { OnOk result (Adds (declarator_forms part.now scopes.old) (variable_behind type_name part.now scopes.old) scopes.new (seen sites.old) (seen sites.new)) }
    ensures keeps { OnOk result (Keeps scopes.old scopes.new) }
{
    initial(&part.form, alloc, scopes, sites)?;
    scopes.declare(part.name.bytes.as_slice(), declared(type_name, &part.form))
}

/// The same of variables, one after the other.
pub fn variables<'a>(
    part: &'a Variables,
    alloc: Global,
    scopes: &mut Scopes<'a>,
    sites: &mut Items<Site<'a>>,
) -> Result<(), AllocError>
    ensures adds { OnOk result (Adds (variables_forms part.now scopes.old) (behind_all (variable_behind part.now.type_name) part.now.declarators scopes.old) scopes.new (seen sites.old) (seen sites.new)) }
    ensures keeps { OnOk result (Keeps scopes.old scopes.new) }
{
    for next in part.declarators.as_slice() {
        declarator(part.type_name, next, alloc, scopes, sites)?;
    }
    Ok(())
}

/// The same of the arguments of `printf`, one after the other.
fn printed<'a>(
    parts: &'a [Spanned],
    alloc: Global,
    scopes: &Scopes<'_>,
    sites: &mut Items<Site<'a>>,
) -> Result<(), AllocError>
    ensures { OnOk result (seen sites.new ≡ adds (seen sites.old) (printed_forms parts.now scopes.now)) }
{
    for part in parts {
        expr(&part.expr, alloc, scopes, sites)?;
    }
    Ok(())
}

/// The same of a statement.
#[cycle(walking)]
fn statement<'a>(
    part: &'a Stmt,
    alloc: Global,
    scopes: &mut Scopes<'a>,
    sites: &mut Items<Site<'a>>,
) -> Result<(), AllocError>
    ensures adds { OnOk result (Adds (stmt_forms part.now scopes.old) (known_behind part.now scopes.old) scopes.new (seen sites.old) (seen sites.new)) }
    ensures keeps { OnOk result (Keeps scopes.old scopes.new) }
{
    match part {
        Stmt::Block(part) => block_alone(part, alloc, scopes, sites),
        Stmt::Empty(_) => Ok(()),
        Stmt::Variables(part) => variables(part, alloc, scopes, sites),
        Stmt::Assign(part) => assign(part, alloc, scopes, sites),
        Stmt::Call(part) => call(part, alloc, scopes, sites),
        Stmt::Operation(part) => operation(part, alloc, scopes, sites),
        Stmt::Print(part) => printed(part.arguments.as_slice(), alloc, scopes, sites),
        Stmt::If(part) => choose(part, alloc, scopes, sites),
        Stmt::While(part) => repeat(part, alloc, scopes, sites),
        Stmt::Do(part) => repeat_first(part, alloc, scopes, sites),
        Stmt::For(part) => count(part, alloc, scopes, sites),
        Stmt::Break(_) => Ok(()),
        Stmt::Continue(_) => Ok(()),
        Stmt::Return(part) => maybe_expr(&part.value, alloc, scopes, sites),
    }
}

/// The same of an `if`.
#[cycle(walking)]
fn choose<'a>(
    part: &'a If,
    alloc: Global,
    scopes: &mut Scopes<'a>,
    sites: &mut Items<Site<'a>>,
) -> Result<(), AllocError>
    ensures { OnOk result (Adds (if_parts part.now scopes.old) scopes.old scopes.new (seen sites.old) (seen sites.new)) }
{
    expr(&part.test, alloc, scopes, sites)?;
    alone(part.yes.get(), alloc, scopes, sites)?;
    maybe(&part.no, alloc, scopes, sites)
}

/// The same of a `while`.
#[cycle(walking)]
fn repeat<'a>(
    part: &'a While,
    alloc: Global,
    scopes: &mut Scopes<'a>,
    sites: &mut Items<Site<'a>>,
) -> Result<(), AllocError>
    ensures { OnOk result (Adds (while_parts part.now scopes.old) scopes.old scopes.new (seen sites.old) (seen sites.new)) }
{
    expr(&part.test, alloc, scopes, sites)?;
    alone(part.body.get(), alloc, scopes, sites)
}

/// The same of a `do`.
#[cycle(walking)]
fn repeat_first<'a>(
    part: &'a Do,
    alloc: Global,
    scopes: &mut Scopes<'a>,
    sites: &mut Items<Site<'a>>,
) -> Result<(), AllocError>
    ensures { OnOk result (Adds (do_parts part.now scopes.old) scopes.old scopes.new (seen sites.old) (seen sites.new)) }
{
    alone(part.body.get(), alloc, scopes, sites)?;
    expr(&part.test, alloc, scopes, sites)
}

/// The same of a `for`: of its head, then of its statement.
#[cycle(walking)]
fn count<'a>(
    part: &'a For,
    alloc: Global,
    scopes: &mut Scopes<'a>,
    sites: &mut Items<Site<'a>>,
) -> Result<(), AllocError>
    ensures { OnOk result (Adds (for_parts part.now scopes.old) scopes.old scopes.new (seen sites.old) (seen sites.new)) }
{
    maybe(&part.first, alloc, scopes, sites)?;
    maybe_expr(&part.test, alloc, scopes, sites)?;
    maybe(&part.step, alloc, scopes, sites)?;
    alone(part.body.get(), alloc, scopes, sites)
}

/// The same of a statement in a scope of its own.
#[cycle(walking)]
fn alone<'a>(
    part: &'a Stmt,
    alloc: Global,
    scopes: &mut Scopes<'a>,
    sites: &mut Items<Site<'a>>,
) -> Result<(), AllocError>
    ensures { OnOk result (Adds (alone_forms part.now scopes.old) scopes.old scopes.new (seen sites.old) (seen sites.new)) }
{
    let outer = scopes.enter();
    statement(part, alloc, scopes, sites)?;
    scopes.leave(outer);
    Ok(())
}

/// The same of a statement that may be left out, in a scope of its own.
#[cycle(walking)]
fn maybe<'a>(
    part: &'a Option<Boxed<Stmt>>,
    alloc: Global,
    scopes: &mut Scopes<'a>,
    sites: &mut Items<Site<'a>>,
) -> Result<(), AllocError>
    ensures { OnOk result (Adds (maybe_stmt_forms part.now scopes.old) scopes.old scopes.new (seen sites.old) (seen sites.new)) }
{
    match part {
        None => Ok(()),
        Some(part) => alone(part.get(), alloc, scopes, sites),
    }
}

/// The same of a block in a scope of its own.
#[cycle(walking)]
fn block_alone<'a>(
    part: &'a Block,
    alloc: Global,
    scopes: &mut Scopes<'a>,
    sites: &mut Items<Site<'a>>,
) -> Result<(), AllocError>
    ensures { OnOk result (Adds (block_forms part.now (enter scopes.old)) scopes.old scopes.new (seen sites.old) (seen sites.new)) }
{
    let outer = scopes.enter();
    block(part, alloc, scopes, sites)?;
    scopes.leave(outer);
    Ok(())
}

/// The same of the statements of a block, in the scope that is there.
#[cycle(walking)]
pub fn block<'a>(
    part: &'a Block,
    alloc: Global,
    scopes: &mut Scopes<'a>,
    sites: &mut Items<Site<'a>>,
) -> Result<(), AllocError>
    ensures found { OnOk result (seen sites.new ≡ adds (seen sites.old) (block_forms part.now scopes.old)) }
    ensures keeps { OnOk result (Keeps scopes.old scopes.new) }
{
    let parts = part.statements.as_slice();
    for i in 0..parts.len() {
        statement(&parts[i], alloc, scopes, sites)?;
    }
    Ok(())
}
