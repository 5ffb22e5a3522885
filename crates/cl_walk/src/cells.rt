//! How many cells globals and frames take. A number that 64 bits don't hold is the greatest that they do.

ghost use Rattle.std.specs.Prelude.{◌≡◌, [], ◌∷◌, map, Option, option_map};
ghost use Rattle.cl_meaning.specs.Outer as outside;
ghost use Rattle.cl_meaning.specs.Outer.{size_in};
ghost use Rattle.cl_walk.specs.Numbers.{capped};
ghost use Rattle.cl_walk.specs.Cells.{cells_of_stmt, cells_of_block, cells_of_maybe};

use crate::outer::length_of;
use cl_ast::{Block, Declarator, Form, Function, Item, Stmt};
use cl_state::Globals;
use sqlite_items::Boxed;

fn form_cells(scope: &Globals<'_>, form: &Form) -> u64
    ensures { result ≡ capped (outside.form_cells (size_in scope.now) form.now) }
{
    match form {
        Form::Array(size) => length_of(scope, size),
        Form::Bare | Form::Value(_) => 1,
    }
}

fn declarator_cells(scope: &Globals<'_>, declarators: &[Declarator]) -> u64
    ensures { result ≡ capped (outside.declarator_cells (size_in scope.now) declarators.now) }
{
    let mut all: u64 = 0;
    for declarator in declarators {
        all = all.saturating_add(form_cells(scope, &declarator.form));
    }
    all
}

fn item_cells(scope: &Globals<'_>, item: &Item) -> u64
    ensures { result ≡ capped (outside.global_cells (size_in scope.now) (item.now ∷ [])) }
{
    match item {
        Item::Variables(variables) => declarator_cells(scope, variables.declarators.as_slice()),
        Item::Define(_) | Item::Function(_) => 0,
    }
}

/// The cells of the globals.
pub fn global_cells(scope: &Globals<'_>, items: &[Item]) -> u64
    ensures { result ≡ capped (outside.global_cells (size_in scope.now) items.now) }
{
    let mut all: u64 = 0;
    for item in items {
        all = all.saturating_add(item_cells(scope, item));
    }
    all
}

#[cycle(cells)]
fn maybe_cells(scope: &Globals<'_>, statement: &Option<Boxed<Stmt>>) -> u64
    ensures { result ≡ capped (cells_of_maybe (size_in scope.now) statement.now) }
{
    match statement {
        Some(statement) => stmt_cells(scope, statement.get()),
        None => 0,
    }
}

#[cycle(cells)]
fn stmt_cells(scope: &Globals<'_>, statement: &Stmt) -> u64
    ensures { result ≡ capped (cells_of_stmt (size_in scope.now) statement.now) }
{
    match statement {
        Stmt::Block(block) => block_cells(scope, block),
        Stmt::Variables(variables) => declarator_cells(scope, variables.declarators.as_slice()),
        Stmt::If(choice) => {
            let yes = stmt_cells(scope, choice.yes.get());
            yes.saturating_add(maybe_cells(scope, &choice.no))
        }
        Stmt::While(found) => stmt_cells(scope, found.body.get()),
        Stmt::Do(found) => stmt_cells(scope, found.body.get()),
        Stmt::For(found) => {
            let first = maybe_cells(scope, &found.first);
            let step = maybe_cells(scope, &found.step);
            let body = stmt_cells(scope, found.body.get());
            first.saturating_add(step.saturating_add(body))
        }
        _ => 0,
    }
}

#[cycle(cells)]
fn block_cells(scope: &Globals<'_>, block: &Block) -> u64
    ensures { result ≡ capped (cells_of_block (size_in scope.now) block.now) }
{
    let mut all: u64 = 0;
    let statements = block.statements.as_slice();
    for i in 0..statements.len() {
        all = all.saturating_add(stmt_cells(scope, &statements[i]));
    }
    all
}

/// The cells of a frame: its parameters and all locals of all its blocks.
pub fn frame_cells(scope: &Globals<'_>, function: &Function) -> u64
    ensures { result ≡ capped (outside.frame_cells (size_in scope.now) function.now) }
{
    let parameters = function.parameters.as_slice().len() as u64;
    parameters.saturating_add(block_cells(scope, &function.body))
}
