//! The tokens of statements and declarations, in their order.

ghost use Rattle.std.specs.Prelude.{◌≡◌, ◌++◌, [], map, option_map, OnOk};
ghost use Rattle.cl_ast.specs.declared.mark.Mark.TheVariants as marks;
ghost use Rattle.cl_ast.specs.declared.word.Word.TheVariants as words;
ghost use Rattle.cl_print.specs.Spelling.{after, one};
ghost use Rattle.cl_print.specs.Expressions.{mark, word, behind_commas, listed, expr_said};
ghost use Rattle.cl_print.specs.Statements.{expr_kinds, spanned_kinds, type_word, size_kind, form_kinds, declarator_kinds, variables_kinds, change_kinds, assign_kinds, print_kinds, closed, condition, maybe_expr, maybe_simple, otherwise, in_order, head, stmt_line, block_kinds, do_kinds, for_kinds, if_kinds, while_kinds};

use crate::writer::Writer;
use cl_ast::{
    Assign, Block, Change, Declarator, Do, Expr, For, Form, If, Mark, Print, Return, Size, Spanned,
    Stmt, TypeName, Variables, While, Word,
};
use cl_ground::NoMemory;
use sqlite_items::Boxed;

/// The word of a type.
pub fn type_word(type_name: TypeName) -> Word
    ensures { result ≡ type_word type_name }
{
    match type_name {
        TypeName::Int => Word::Int,
        TypeName::Long => Word::Long,
        TypeName::Char => Word::Char,
    }
}

/// Whether a statement ends by a `;`.
#[tactic(auto, using(crate::proofs::StatementEquations::line_block, crate::proofs::StatementEquations::line_empty, crate::proofs::StatementEquations::line_variables, crate::proofs::StatementEquations::line_assign, crate::proofs::StatementEquations::line_call, crate::proofs::StatementEquations::line_operation, crate::proofs::StatementEquations::line_print, crate::proofs::StatementEquations::line_if, crate::proofs::StatementEquations::line_while, crate::proofs::StatementEquations::line_do, crate::proofs::StatementEquations::line_for, crate::proofs::StatementEquations::line_break, crate::proofs::StatementEquations::line_continue, crate::proofs::StatementEquations::line_return))]
fn ends(stmt: &Stmt) -> bool
    ensures { result ≡ (stmt_line stmt.now).ends }
{
    match stmt {
        Stmt::Block(_) => false,
        Stmt::Empty(_) => true,
        Stmt::Variables(_) => true,
        Stmt::Assign(_) => true,
        Stmt::Call(_) => true,
        Stmt::Operation(_) => true,
        Stmt::Print(_) => true,
        Stmt::If(_) => false,
        Stmt::While(_) => false,
        Stmt::Do(_) => true,
        Stmt::For(_) => false,
        Stmt::Break(_) => true,
        Stmt::Continue(_) => true,
        Stmt::Return(_) => true,
    }
}

impl Writer {
    /// Puts a size at the end.
    fn size(&mut self, size: &Size) -> Result<(), NoMemory>
        ensures { OnOk result (self.new ≡ after self.old (one (size_kind size.now))) }
    {
        match size {
            Size::Number(literal) => self.constant(literal.value),
            Size::Name(name) => self.name(name),
        }
    }

    /// Puts what a declaration says of a variable besides its name at the end.
    #[tactic(auto, using(crate::proofs::Lines::after_both, crate::proofs::Lines::after_none))]
    fn form(&mut self, form: &Form) -> Result<(), NoMemory>
        ensures { OnOk result (self.new ≡ after self.old (form_kinds form.now)) }
    {
        match form {
            Form::Bare => Ok(()),
            Form::Array(size) => {
                self.mark(Mark::OpenSquare)?;
                self.size(size)?;
                self.mark(Mark::CloseSquare)
            }
            Form::Value(value) => {
                self.mark(Mark::Assign)?;
                self.expr(&value.expr)
            }
        }
    }

    /// Puts a declarator at the end.
    #[tactic(auto, using(crate::proofs::Lines::after_both), unfolding(crate::specs::Statements::declarator_kinds))]
    fn declarator(&mut self, declarator: &Declarator) -> Result<(), NoMemory>
        ensures { OnOk result (self.new ≡ after self.old (declarator_kinds declarator.now)) }
    {
        self.name(&declarator.name)?;
        self.form(&declarator.form)
    }

    /// Puts declarators with commas between them at the end.
    fn declarators(&mut self, declarators: &[Declarator]) -> Result<(), NoMemory>
        ensures { OnOk result (self.new ≡ after self.old (listed (map declarator_kinds declarators.now))) }
    {
        let mut is_first = true;
        for declarator in declarators {
            self.comma(is_first)?;
            self.declarator(declarator)?;
            is_first = false;
        }
        Ok(())
    }

    /// Puts a declaration at the end, without its `;`.
    #[tactic(auto, using(crate::proofs::Lines::after_both), unfolding(crate::specs::Statements::variables_kinds))]
    pub fn variables(&mut self, variables: &Variables) -> Result<(), NoMemory>
        ensures { OnOk result (self.new ≡ after self.old (variables_kinds variables.now)) }
    {
        self.word(type_word(variables.type_name))?;
        self.declarators(variables.declarators.as_slice())
    }

    /// Puts a mark and a value at the end.
    #[tactic(auto, using(crate::proofs::Lines::after_both))]
    fn changed(&mut self, operator: Mark, value: &Expr) -> Result<(), NoMemory>
        ensures { OnOk result (self.new ≡ after self.old (mark operator ++ expr_kinds value.now)) }
    {
        self.mark(operator)?;
        self.expr(value)
    }

    /// Puts how a variable is changed at the end.
    fn change(&mut self, change: &Change) -> Result<(), NoMemory>
        ensures { OnOk result (self.new ≡ after self.old (change_kinds change.now)) }
    {
        match change {
            Change::Set(value) => self.changed(Mark::Assign, value),
            Change::Add(value) => self.changed(Mark::PlusAssign, value),
            Change::Subtract(value) => self.changed(Mark::MinusAssign, value),
            Change::Multiply(value) => self.changed(Mark::TimesAssign, value),
            Change::Increment => self.mark(Mark::Increment),
            Change::Decrement => self.mark(Mark::Decrement),
        }
    }

    /// Puts a change of a variable at the end, without its `;`.
    #[tactic(auto, using(crate::proofs::Lines::after_both), unfolding(crate::specs::Statements::assign_kinds))]
    fn assign(&mut self, assign: &Assign) -> Result<(), NoMemory>
        ensures { OnOk result (self.new ≡ after self.old (assign_kinds assign.now)) }
    {
        self.place(&assign.place)?;
        self.change(&assign.change)
    }

    /// Puts arguments at the end, each behind a comma.
    fn more_arguments(&mut self, arguments: &[Spanned]) -> Result<(), NoMemory>
        ensures { OnOk result (self.new ≡ after self.old (behind_commas (map spanned_kinds arguments.now))) }
    {
        for argument in arguments {
            self.mark(Mark::Comma)?;
            self.expr(&argument.expr)?;
        }
        Ok(())
    }

    /// Puts a `printf` at the end, without its `;`.
    #[tactic(auto, using(crate::proofs::Lines::after_both), unfolding(crate::specs::Statements::print_kinds))]
    fn print(&mut self, print: &Print) -> Result<(), NoMemory>
        ensures { OnOk result (self.new ≡ after self.old (print_kinds print.now)) }
    {
        self.word(Word::Printf)?;
        self.mark(Mark::OpenBracket)?;
        self.text(&print.format)?;
        self.more_arguments(print.arguments.as_slice())?;
        self.mark(Mark::CloseBracket)
    }

    /// Puts a condition in its brackets at the end.
    #[tactic(auto, using(crate::proofs::Lines::after_both))]
    fn condition(&mut self, test: &Expr) -> Result<(), NoMemory>
        ensures { OnOk result (self.new ≡ after self.old (condition test.now)) }
    {
        self.mark(Mark::OpenBracket)?;
        self.expr(test)?;
        self.mark(Mark::CloseBracket)
    }

    /// Puts an expression at the end, where there is one.
    #[tactic(auto, using(crate::proofs::Lines::after_none))]
    fn maybe_expr(&mut self, expr: &Option<Expr>) -> Result<(), NoMemory>
        ensures { OnOk result (self.new ≡ after self.old (maybe_expr expr.now)) }
    {
        match expr {
            Some(expr) => self.expr(expr),
            None => Ok(()),
        }
    }

    /// Puts a `return` at the end, without its `;`.
    #[tactic(auto, using(crate::proofs::Lines::after_both))]
    fn give_back(&mut self, give_back: &Return) -> Result<(), NoMemory>
        ensures { OnOk result (self.new ≡ after self.old (word words.Return ++ maybe_expr give_back.now.value)) }
    {
        self.word(Word::Return)?;
        self.maybe_expr(&give_back.value)
    }

    /// Puts a statement at the end.
    #[cycle(statements)]
    #[tactic(auto, using(crate::proofs::StatementEquations::after_closed, crate::proofs::StatementEquations::after_open))]
    fn statement(&mut self, stmt: &Stmt) -> Result<(), NoMemory>
        ensures { OnOk result (self.new ≡ after self.old (closed (stmt_line stmt.now))) }
    {
        self.unclosed(stmt)?;
        if ends(stmt) {
            self.mark(Mark::Semicolon)
        } else {
            Ok(())
        }
    }

    /// Puts a statement at the end, without the `;` at its end.
    #[cycle(statements)]
    #[tactic(auto, using(crate::proofs::Lines::after_none, crate::proofs::StatementEquations::line_block, crate::proofs::StatementEquations::line_empty, crate::proofs::StatementEquations::line_variables, crate::proofs::StatementEquations::line_assign, crate::proofs::StatementEquations::line_call, crate::proofs::StatementEquations::line_operation, crate::proofs::StatementEquations::line_print, crate::proofs::StatementEquations::line_if, crate::proofs::StatementEquations::line_while, crate::proofs::StatementEquations::line_do, crate::proofs::StatementEquations::line_for, crate::proofs::StatementEquations::line_break, crate::proofs::StatementEquations::line_continue, crate::proofs::StatementEquations::line_return))]
    fn unclosed(&mut self, stmt: &Stmt) -> Result<(), NoMemory>
        ensures { OnOk result (self.new ≡ after self.old (stmt_line stmt.now).kinds) }
    {
        match stmt {
            Stmt::Block(block) => self.block(block),
            Stmt::Empty(_) => Ok(()),
            Stmt::Variables(variables) => self.variables(variables),
            Stmt::Assign(assign) => self.assign(assign),
            Stmt::Call(call) => self.call(call),
            Stmt::Operation(operation) => self.operation(operation),
            Stmt::Print(print) => self.print(print),
            Stmt::If(choice) => self.choice(choice),
            Stmt::While(repeat) => self.while_loop(repeat),
            Stmt::Do(repeat) => self.do_loop(repeat),
            Stmt::For(repeat) => self.for_loop(repeat),
            Stmt::Break(_) => self.word(Word::Break),
            Stmt::Continue(_) => self.word(Word::Continue),
            Stmt::Return(give_back) => self.give_back(give_back),
        }
    }

    /// Puts statements in their braces at the end.
    #[cycle(statements)]
    #[tactic(auto, using(crate::proofs::Lines::after_both, crate::proofs::StatementEquations::block_is))]
    pub fn block(&mut self, block: &Block) -> Result<(), NoMemory>
        ensures { OnOk result (self.new ≡ after self.old (block_kinds block.now)) }
    {
        self.mark(Mark::OpenBrace)?;
        self.statements(block.statements.as_slice())?;
        self.mark(Mark::CloseBrace)
    }

    /// Puts statements at the end.
    #[cycle(statements)]
    fn statements(&mut self, statements: &[Stmt]) -> Result<(), NoMemory>
        ensures { OnOk result (self.new ≡ after self.old (in_order (map stmt_line statements.now))) }
    {
        for stmt in statements {
            self.statement(stmt)?;
        }
        Ok(())
    }

    /// Puts an `if` at the end.
    #[cycle(statements)]
    #[tactic(auto, using(crate::proofs::Lines::after_both, crate::proofs::Lines::after_none, crate::proofs::StatementEquations::if_is))]
    fn choice(&mut self, choice: &If) -> Result<(), NoMemory>
        ensures { OnOk result (self.new ≡ after self.old (if_kinds choice.now)) }
    {
        self.word(Word::If)?;
        self.condition(&choice.test)?;
        self.statement(choice.yes.get())?;
        match &choice.no {
            Some(no) => self.otherwise(no.get()),
            None => Ok(()),
        }
    }

    /// Puts an `else` and its statement at the end.
    #[cycle(statements)]
    #[tactic(auto, using(crate::proofs::Lines::after_both))]
    fn otherwise(&mut self, stmt: &Stmt) -> Result<(), NoMemory>
        ensures { OnOk result (self.new ≡ after self.old (word words.Else ++ closed (stmt_line stmt.now))) }
    {
        self.word(Word::Else)?;
        self.statement(stmt)
    }

    /// Puts a `while` at the end.
    #[cycle(statements)]
    #[tactic(auto, using(crate::proofs::Lines::after_both, crate::proofs::StatementEquations::while_is))]
    fn while_loop(&mut self, repeat: &While) -> Result<(), NoMemory>
        ensures { OnOk result (self.new ≡ after self.old (while_kinds repeat.now)) }
    {
        self.word(Word::While)?;
        self.condition(&repeat.test)?;
        self.statement(repeat.body.get())
    }

    /// Puts a `do` at the end, without its `;`.
    #[cycle(statements)]
    #[tactic(auto, using(crate::proofs::Lines::after_both, crate::proofs::StatementEquations::do_is))]
    fn do_loop(&mut self, repeat: &Do) -> Result<(), NoMemory>
        ensures { OnOk result (self.new ≡ after self.old (do_kinds repeat.now)) }
    {
        self.word(Word::Do)?;
        self.statement(repeat.body.get())?;
        self.word(Word::While)?;
        self.condition(&repeat.test)
    }

    /// Puts a `for` at the end.
    #[cycle(statements)]
    #[tactic(auto, using(crate::proofs::Lines::after_both, crate::proofs::StatementEquations::for_is))]
    fn for_loop(&mut self, repeat: &For) -> Result<(), NoMemory>
        ensures { OnOk result (self.new ≡ after self.old (for_kinds repeat.now)) }
    {
        self.word(Word::For)?;
        self.mark(Mark::OpenBracket)?;
        self.maybe_simple(&repeat.first)?;
        self.mark(Mark::Semicolon)?;
        self.maybe_expr(&repeat.test)?;
        self.mark(Mark::Semicolon)?;
        self.maybe_simple(&repeat.step)?;
        self.mark(Mark::CloseBracket)?;
        self.statement(repeat.body.get())
    }

    /// Puts a statement of the head of a `for` at the end, where there is one.
    #[cycle(statements)]
    #[tactic(auto, using(crate::proofs::Lines::after_none))]
    fn maybe_simple(&mut self, stmt: &Option<Boxed<Stmt>>) -> Result<(), NoMemory>
        ensures { OnOk result (self.new ≡ after self.old (maybe_simple (option_map stmt_line stmt.now))) }
    {
        match stmt {
            Some(stmt) => self.unclosed(stmt.get()),
            None => Ok(()),
        }
    }
}
