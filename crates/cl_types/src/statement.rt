ghost use Rattle.std.specs.Prelude.{◌≡◌, OnOk, IfOk, map};
ghost use Rattle.std.specs.Prelude.{option_map};
ghost use Rattle.cl_types.specs.Notes.{found_all, found};
ghost use Rattle.cl_types.specs.Journals.{noted_all};
ghost use Rattle.cl_types.specs.Statements.{change_notes, assign_notes, argument_faults, argument_notes, arguments_notes, print_parts, print_notes, leave_notes, value_return_faults, value_notes, return_notes, in_loop, scoped, maybe_notes, test_notes, walked, block_walked, stays, behind};
ghost use Rattle.cl_types.specs.Walks.{Keeps, Does};
ghost use Rattle.cl_types.specs.Loops.{if_notes, while_notes, do_notes, for_notes};

use crate::declare::variables;
use crate::expression::report_count;
use crate::format::{directives, takes};
use crate::judge::{call, expr, operation, place};
use crate::scopes::Scopes;
use crate::{Access, Context, Directive, Journal, Purpose, Reach, TypeKind};
use cl_ast::{
    Assign, Block, Change, Do, Expr, For, If, Print, Return, Span, Spanned, Stmt, TypeName, While,
};
use sqlite_items::{Boxed, Items, at};
use std::alloc::{AllocError, Global};

/// Judges a change of a variable.
fn change(part: &Change, scopes: &Scopes<'_>, journal: &mut Journal)
    ensures { journal.new ≡ noted_all (change_notes scopes.now part.now) journal.old }
{
    match part {
        Change::Set(e) | Change::Add(e) | Change::Subtract(e) | Change::Multiply(e) => {
            expr(e, scopes, journal);
        }
        Change::Increment | Change::Decrement => {}
    }
}

/// Judges a change and what is changed.
fn assign(part: &Assign, scopes: &Scopes<'_>, journal: &mut Journal)
    ensures { journal.new ≡ noted_all (assign_notes scopes.now part.now) journal.old }
{
    place(&part.place, Access::Write, scopes, journal);
    change(&part.change, scopes, journal);
}

/// Reports an argument that its directive doesn't take.
fn report_argument(directive: Directive, found: Option<TypeName>, place: u32, journal: &mut Journal)
    ensures { journal.new ≡ noted_all (found_all (argument_faults directive found) place) journal.old }
{
    match found {
        None => {}
        Some(type_name) => {
            if !takes(directive, type_name) {
                journal.report(TypeKind::WrongType, place);
            }
        }
    }
}

/// Judges an argument of `printf`.
fn argument(
    directive: Option<Directive>,
    part: &Spanned,
    scopes: &Scopes<'_>,
    journal: &mut Journal,
)
    ensures { journal.new ≡ noted_all (argument_notes scopes.now directive part.now) journal.old }
{
    let found = expr(&part.expr, scopes, journal);
    match directive {
        None => {}
        Some(directive) => report_argument(directive, found, part.span.start, journal),
    }
}

/// Judges the arguments of `printf`, each with its directive where there is one.
fn arguments(
    directives: &[Directive],
    parts: &[Spanned],
    scopes: &Scopes<'_>,
    journal: &mut Journal,
)
    ensures { journal.new ≡ noted_all (arguments_notes scopes.now directives.now parts.now) journal.old }
{
    for i in 0..parts.len() {
        argument(at(directives, i).copied(), &parts[i], scopes, journal);
    }
}

/// Judges a `printf` by the directives of its text.
fn print_parts(
    found: Option<Items<Directive>>,
    part: &Print,
    scopes: &Scopes<'_>,
    journal: &mut Journal,
)
    ensures { journal.new ≡ noted_all (print_parts scopes.now found part.now) journal.old }
{
    match found {
        None => {
            journal.report(TypeKind::BadFormat, part.format.span.start);
            arguments(&[], part.arguments.as_slice(), scopes, journal);
        }
        Some(found) => {
            report_count(found.len(), part.arguments.len(), part.span.start, journal);
            arguments(found.as_slice(), part.arguments.as_slice(), scopes, journal);
        }
    }
}

/// Judges a `printf`.
fn print(
    alloc: Global,
    part: &Print,
    scopes: &Scopes<'_>,
    journal: &mut Journal,
) -> Result<(), AllocError>
    ensures { OnOk result (journal.new ≡ noted_all (print_notes scopes.now part.now) journal.old) }
{
    let found = directives(alloc, part.format.bytes.as_slice())?;
    print_parts(found, part, scopes, journal);
    Ok(())
}

/// Reports a `break` or `continue` outside of loops.
fn leave(context: Context, span: Span, journal: &mut Journal)
    ensures { journal.new ≡ noted_all (leave_notes context span.start) journal.old }
{
    if !context.is_in_loop {
        journal.report(TypeKind::NoLoop, span.start);
    }
}

/// Reports a value that a `void` function gives back.
fn report_return(gives: Option<TypeName>, place: u32, journal: &mut Journal)
    ensures { journal.new ≡ noted_all (found_all (value_return_faults gives) place) journal.old }
{
    if gives.is_none() {
        journal.report(TypeKind::WrongType, place);
    }
}

/// Judges a `return`.
fn give_back(context: Context, part: &Return, scopes: &Scopes<'_>, journal: &mut Journal)
    ensures { journal.new ≡ noted_all (return_notes context scopes.now part.now) journal.old }
{
    match &part.value {
        None => {}
        Some(e) => {
            report_return(context.result, part.span.start, journal);
            expr(e, scopes, journal);
        }
    }
}

/// Judges a condition that may be left out.
fn test(part: &Option<Expr>, scopes: &Scopes<'_>, journal: &mut Journal)
    ensures { journal.new ≡ noted_all (test_notes part.now scopes.now) journal.old }
{
    match part {
        None => {}
        Some(e) => {
            expr(e, scopes, journal);
        }
    }
}

/// The same in a loop.
fn in_loop(context: Context) -> Context
    ensures { result ≡ in_loop context }
{
    Context {
        result: context.result,
        is_in_loop: true,
    }
}

/// Walks a statement.
#[cycle(walking)]
fn statement<'a>(
    part: &'a Stmt,
    alloc: Global,
    context: Context,
    scopes: &mut Scopes<'a>,
    journal: &mut Journal,
) -> Result<(), AllocError>
    ensures does { OnOk result (Does (walked part.now context scopes.old) scopes.new journal.old journal.new) }
    ensures keeps { OnOk result (Keeps scopes.old scopes.new) }
{
    match part {
        Stmt::Block(part) => block_alone(part, alloc, context, scopes, journal),
        Stmt::Empty(_) => Ok(()),
        Stmt::Variables(part) => variables(Reach::Local, part, scopes, journal),
        Stmt::Assign(part) => {
            assign(part, scopes, journal);
            Ok(())
        }
        Stmt::Call(part) => {
            call(part, Purpose::Statement, scopes, journal);
            Ok(())
        }
        Stmt::Operation(part) => {
            operation(part, scopes, journal);
            Ok(())
        }
        Stmt::Print(part) => print(alloc, part, scopes, journal),
        Stmt::If(part) => choose(part, alloc, context, scopes, journal),
        Stmt::While(part) => repeat(part, alloc, context, scopes, journal),
        Stmt::Do(part) => repeat_first(part, alloc, context, scopes, journal),
        Stmt::For(part) => count(part, alloc, context, scopes, journal),
        Stmt::Break(span) => {
            leave(context, *span, journal);
            Ok(())
        }
        Stmt::Continue(span) => {
            leave(context, *span, journal);
            Ok(())
        }
        Stmt::Return(part) => {
            give_back(context, part, scopes, journal);
            Ok(())
        }
    }
}

/// Walks an `if`.
#[cycle(walking)]
fn choose<'a>(
    part: &'a If,
    alloc: Global,
    context: Context,
    scopes: &mut Scopes<'a>,
    journal: &mut Journal,
) -> Result<(), AllocError>
    ensures { OnOk result (Does (stays scopes.old (if_notes part.now context scopes.old)) scopes.new journal.old journal.new) }
{
    expr(&part.test, scopes, journal);
    alone(part.yes.get(), alloc, context, scopes, journal)?;
    maybe(&part.no, alloc, context, scopes, journal)
}

/// Walks a `while`.
#[cycle(walking)]
fn repeat<'a>(
    part: &'a While,
    alloc: Global,
    context: Context,
    scopes: &mut Scopes<'a>,
    journal: &mut Journal,
) -> Result<(), AllocError>
    ensures { OnOk result (Does (stays scopes.old (while_notes part.now context scopes.old)) scopes.new journal.old journal.new) }
{
    expr(&part.test, scopes, journal);
    alone(part.body.get(), alloc, in_loop(context), scopes, journal)
}

/// Walks a `do`.
#[cycle(walking)]
fn repeat_first<'a>(
    part: &'a Do,
    alloc: Global,
    context: Context,
    scopes: &mut Scopes<'a>,
    journal: &mut Journal,
) -> Result<(), AllocError>
    ensures { OnOk result (Does (stays scopes.old (do_notes part.now context scopes.old)) scopes.new journal.old journal.new) }
{
    alone(part.body.get(), alloc, in_loop(context), scopes, journal)?;
    expr(&part.test, scopes, journal);
    Ok(())
}

/// Walks a `for`.
#[cycle(walking)]
fn count<'a>(
    part: &'a For,
    alloc: Global,
    context: Context,
    scopes: &mut Scopes<'a>,
    journal: &mut Journal,
) -> Result<(), AllocError>
    ensures { OnOk result (Does (stays scopes.old (for_notes part.now context scopes.old)) scopes.new journal.old journal.new) }
{
    maybe(&part.first, alloc, context, scopes, journal)?;
    test(&part.test, scopes, journal);
    maybe(&part.step, alloc, context, scopes, journal)?;
    alone(part.body.get(), alloc, in_loop(context), scopes, journal)
}

/// Walks a statement in a scope of its own.
#[cycle(walking)]
fn alone<'a>(
    part: &'a Stmt,
    alloc: Global,
    context: Context,
    scopes: &mut Scopes<'a>,
    journal: &mut Journal,
) -> Result<(), AllocError>
    ensures { OnOk result (Does (scoped (walked part.now) context scopes.old) scopes.new journal.old journal.new) }
{
    let outer = scopes.enter();
    statement(part, alloc, context, scopes, journal)?;
    scopes.leave(outer);
    Ok(())
}

/// Walks a statement that may be left out, in a scope of its own.
#[cycle(walking)]
fn maybe<'a>(
    part: &'a Option<Boxed<Stmt>>,
    alloc: Global,
    context: Context,
    scopes: &mut Scopes<'a>,
    journal: &mut Journal,
) -> Result<(), AllocError>
    ensures { OnOk result (Does (stays scopes.old (maybe_notes (option_map walked part.now) context scopes.old)) scopes.new journal.old journal.new) }
{
    match part {
        None => Ok(()),
        Some(part) => alone(part.get(), alloc, context, scopes, journal),
    }
}

/// Walks a block in a scope of its own.
#[cycle(walking)]
fn block_alone<'a>(
    part: &'a Block,
    alloc: Global,
    context: Context,
    scopes: &mut Scopes<'a>,
    journal: &mut Journal,
) -> Result<(), AllocError>
    ensures { OnOk result (Does (scoped (block_walked part.now) context scopes.old) scopes.new journal.old journal.new) }
{
    let outer = scopes.enter();
    block(part, alloc, context, scopes, journal)?;
    scopes.leave(outer);
    Ok(())
}

/// Walks the statements of a block, in the scope that is there.
#[cycle(walking)]
pub fn block<'a>(
    part: &'a Block,
    alloc: Global,
    context: Context,
    scopes: &mut Scopes<'a>,
    journal: &mut Journal,
) -> Result<(), AllocError>
    ensures does { OnOk result (Does (block_walked part.now context scopes.old) scopes.new journal.old journal.new) }
    ensures keeps { OnOk result (Keeps scopes.old scopes.new) }
{
    let parts = part.statements.as_slice();
    for i in 0..parts.len() {
        statement(&parts[i], alloc, context, scopes, journal)?;
    }
    Ok(())
}
