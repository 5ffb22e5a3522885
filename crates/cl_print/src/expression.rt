//! The tokens of expressions, in their order.

ghost use Rattle.std.specs.Prelude.{◌≡◌, ◌++◌, [], map, option_map, OnOk};
ghost use Rattle.cl_print.specs.Spelling.{after};
ghost use Rattle.cl_print.specs.Expressions.{mark, verb_word, operator_mark, operator_rank, operand, links, chain_rank, comma, listed, all_kinds, indexed, expr_said, field_kinds, call_kinds, chain_said, formal_kinds, link_joined, operation_kinds, place_kinds, prefix_kinds};
ghost use Rattle.cl_ast.specs.declared.mark.Mark.TheVariants as marks;

use crate::writer::Writer;
use cl_ast::{
    Call, Chain, Expr, Field, Formal, Link, Mark, Operation, Operator, Place, Prefix, Verb, Word,
};
use cl_ground::NoMemory;
use sqlite_items::Boxed;

/// The word of an operation.
fn verb_word(verb: Verb) -> Word
    ensures { result ≡ verb_word verb }
{
    match verb {
        Verb::Out => Word::Out,
        Verb::In => Word::In,
        Verb::Rd => Word::Rd,
        Verb::Inp => Word::Inp,
        Verb::Rdp => Word::Rdp,
        Verb::Eval => Word::Eval,
    }
}

/// The mark of an operator.
fn operator_mark(operator: Operator) -> Mark
    ensures { result ≡ operator_mark operator }
{
    match operator {
        Operator::Or => Mark::Or,
        Operator::And => Mark::And,
        Operator::Equal => Mark::Equal,
        Operator::NotEqual => Mark::NotEqual,
        Operator::Less => Mark::Less,
        Operator::LessEqual => Mark::LessEqual,
        Operator::Greater => Mark::Greater,
        Operator::GreaterEqual => Mark::GreaterEqual,
        Operator::Add => Mark::Plus,
        Operator::Subtract => Mark::Minus,
        Operator::Multiply => Mark::Times,
        Operator::Divide => Mark::Divide,
        Operator::Remainder => Mark::Remainder,
    }
}

/// How loosely a chain of the operator binds.
fn operator_rank(operator: Operator) -> u8
    ensures { result ≡ operator_rank operator }
{
    match operator {
        Operator::Or => 7,
        Operator::And => 6,
        Operator::Equal => 5,
        Operator::NotEqual => 5,
        Operator::Less => 4,
        Operator::LessEqual => 4,
        Operator::Greater => 4,
        Operator::GreaterEqual => 4,
        Operator::Add => 3,
        Operator::Subtract => 3,
        Operator::Multiply => 2,
        Operator::Divide => 2,
        Operator::Remainder => 2,
    }
}

/// How loosely a chain with these operators binds.
#[tactic(auto, using(crate::proofs::Equations::no_links_rank, crate::proofs::Equations::links_rank))]
fn links_rank(others: &[Link]) -> u8
    ensures { result ≡ chain_rank (map link_joined others.now) }
{
    match others {
        [] => 7,
        [link, ..] => operator_rank(link.operator),
    }
}

/// How loosely an expression binds.
#[tactic(auto, using(crate::proofs::Equations::said_literal, crate::proofs::Equations::said_place, crate::proofs::Equations::said_call, crate::proofs::Equations::said_operation, crate::proofs::Equations::said_chain, crate::proofs::Equations::chain_is, crate::proofs::Equations::said_negate, crate::proofs::Equations::said_not))]
fn rank(expr: &Expr) -> u8
    ensures { result ≡ (expr_said expr.now).rank }
{
    match expr {
        Expr::Literal(_) | Expr::Place(_) | Expr::Call(_) | Expr::Operation(_) => 0,
        Expr::Negate(_) | Expr::Not(_) => 1,
        Expr::Chain(chain) => links_rank(chain.others.as_slice()),
    }
}

impl Writer {
    /// Puts an expression at the end.
    #[cycle(expressions)]
    #[tactic(auto, using(crate::proofs::Equations::said_literal, crate::proofs::Equations::said_place, crate::proofs::Equations::said_call, crate::proofs::Equations::said_operation, crate::proofs::Equations::said_chain, crate::proofs::Equations::said_negate, crate::proofs::Equations::said_not))]
    pub fn expr(&mut self, expr: &Expr) -> Result<(), NoMemory>
        ensures { OnOk result (self.new ≡ after self.old (expr_said expr.now).kinds) }
    {
        match expr {
            Expr::Literal(literal) => self.constant(literal.value),
            Expr::Place(place) => self.place(place),
            Expr::Call(call) => self.call(call),
            Expr::Operation(operation) => self.operation(operation),
            Expr::Chain(chain) => self.chain(chain),
            Expr::Negate(prefix) => self.prefixed(Mark::Minus, prefix),
            Expr::Not(prefix) => self.prefixed(Mark::Not, prefix),
        }
    }

    /// Puts a comma at the end, but none before the first of a list.
    #[tactic(auto, using(crate::proofs::Lines::after_none))]
    pub fn comma(&mut self, is_first: bool) -> Result<(), NoMemory>
        ensures { OnOk result (self.new ≡ after self.old (comma is_first)) }
    {
        if is_first {
            Ok(())
        } else {
            self.mark(Mark::Comma)
        }
    }

    /// Puts an operand at the end, in brackets unless it binds closer than this.
    #[cycle(expressions)]
    #[tactic(auto, using(crate::proofs::Lines::after_both))]
    fn operand(&mut self, limit: u8, expr: &Expr) -> Result<(), NoMemory>
        ensures { OnOk result (self.new ≡ after self.old (operand limit (expr_said expr.now))) }
    {
        if rank(expr) < limit {
            self.expr(expr)
        } else {
            self.mark(Mark::OpenBracket)?;
            self.expr(expr)?;
            self.mark(Mark::CloseBracket)
        }
    }

    /// Puts a prefix operator and its operand at the end.
    #[cycle(expressions)]
    #[tactic(auto, using(crate::proofs::Lines::after_both, crate::proofs::Equations::prefix_is))]
    fn prefixed(&mut self, operator: Mark, prefix: &Prefix) -> Result<(), NoMemory>
        ensures { OnOk result (self.new ≡ after self.old (mark operator ++ prefix_kinds prefix.now)) }
    {
        self.mark(operator)?;
        self.operand(2, prefix.operand.get())
    }

    /// Puts operands with operators between them at the end.
    #[cycle(expressions)]
    #[tactic(auto, using(crate::proofs::Lines::after_both, crate::proofs::Equations::chain_is))]
    fn chain(&mut self, chain: &Chain) -> Result<(), NoMemory>
        ensures { OnOk result (self.new ≡ after self.old (chain_said chain.now).kinds) }
    {
        let limit = links_rank(chain.others.as_slice());
        self.operand(limit, chain.first.get())?;
        self.links(limit, chain.others.as_slice())
    }

    /// Puts operators, each with the operand behind it, at the end.
    #[cycle(expressions)]
    #[tactic(auto, using(crate::proofs::Lines::after_both, crate::proofs::Lines::after_none))]
    fn links(&mut self, limit: u8, others: &[Link]) -> Result<(), NoMemory>
        ensures { OnOk result (self.new ≡ after self.old (links limit (map link_joined others.now))) }
    {
        for link in others {
            self.link(limit, link)?;
        }
        Ok(())
    }

    /// Puts an operator with the operand behind it at the end.
    #[cycle(expressions)]
    #[tactic(auto, using(crate::proofs::Lines::after_both, crate::proofs::Equations::link_is))]
    fn link(&mut self, limit: u8, link: &Link) -> Result<(), NoMemory>
        ensures { OnOk result (self.new ≡ after self.old (mark (operator_mark (link_joined link.now).operator) ++ operand limit (link_joined link.now).operand)) }
    {
        self.mark(operator_mark(link.operator))?;
        self.operand(limit, &link.operand)
    }

    /// Puts a variable or an element at the end.
    #[cycle(expressions)]
    #[tactic(auto, using(crate::proofs::Lines::after_both, crate::proofs::Lines::after_none, crate::proofs::Equations::place_is))]
    pub fn place(&mut self, place: &Place) -> Result<(), NoMemory>
        ensures { OnOk result (self.new ≡ after self.old (place_kinds place.now)) }
    {
        self.name(&place.name)?;
        match &place.index {
            Some(index) => self.index(index.get()),
            None => Ok(()),
        }
    }

    /// Puts an index in its brackets at the end.
    #[cycle(expressions)]
    #[tactic(auto, using(crate::proofs::Lines::after_both))]
    fn index(&mut self, index: &Expr) -> Result<(), NoMemory>
        ensures { OnOk result (self.new ≡ after self.old (mark marks.OpenSquare ++ ((expr_said index.now).kinds ++ mark marks.CloseSquare))) }
    {
        self.mark(Mark::OpenSquare)?;
        self.expr(index)?;
        self.mark(Mark::CloseSquare)
    }

    /// Puts a call at the end.
    #[cycle(expressions)]
    #[tactic(auto, using(crate::proofs::Lines::after_both, crate::proofs::Equations::call_is))]
    pub fn call(&mut self, call: &Call) -> Result<(), NoMemory>
        ensures { OnOk result (self.new ≡ after self.old (call_kinds call.now)) }
    {
        self.name(&call.name)?;
        self.mark(Mark::OpenBracket)?;
        self.arguments(call.arguments.as_slice())?;
        self.mark(Mark::CloseBracket)
    }

    /// Puts expressions with commas between them at the end.
    #[cycle(expressions)]
    #[tactic(auto, using(crate::proofs::Lines::after_both, crate::proofs::Lines::after_none))]
    fn arguments(&mut self, arguments: &[Expr]) -> Result<(), NoMemory>
        ensures { OnOk result (self.new ≡ after self.old (listed (all_kinds (map expr_said arguments.now)))) }
    {
        let mut is_first = true;
        for argument in arguments {
            self.comma(is_first)?;
            self.expr(argument)?;
            is_first = false;
        }
        Ok(())
    }

    /// Puts an operation at the end.
    #[cycle(expressions)]
    #[tactic(auto, using(crate::proofs::Lines::after_both, crate::proofs::Equations::operation_is))]
    pub fn operation(&mut self, operation: &Operation) -> Result<(), NoMemory>
        ensures { OnOk result (self.new ≡ after self.old (operation_kinds operation.now)) }
    {
        self.word(verb_word(operation.verb))?;
        self.mark(Mark::OpenBracket)?;
        self.fields(operation.fields.as_slice())?;
        self.mark(Mark::CloseBracket)
    }

    /// Puts fields with commas between them at the end.
    #[cycle(expressions)]
    #[tactic(auto, using(crate::proofs::Lines::after_both, crate::proofs::Lines::after_none))]
    fn fields(&mut self, fields: &[Field]) -> Result<(), NoMemory>
        ensures { OnOk result (self.new ≡ after self.old (listed (map field_kinds fields.now))) }
    {
        let mut is_first = true;
        for field in fields {
            self.comma(is_first)?;
            self.field(field)?;
            is_first = false;
        }
        Ok(())
    }

    /// Puts a field at the end.
    #[cycle(expressions)]
    #[tactic(auto, using(crate::proofs::Equations::field_text, crate::proofs::Equations::field_formal, crate::proofs::Equations::field_plain))]
    fn field(&mut self, field: &Field) -> Result<(), NoMemory>
        ensures { OnOk result (self.new ≡ after self.old (field_kinds field.now)) }
    {
        match field {
            Field::Text(text) => self.text(text),
            Field::Formal(formal) => self.formal(formal),
            Field::Plain(expr) => self.expr(expr),
        }
    }

    /// Puts a formal at the end.
    #[cycle(expressions)]
    #[tactic(auto, using(crate::proofs::Lines::after_both, crate::proofs::Equations::formal_is))]
    fn formal(&mut self, formal: &Formal) -> Result<(), NoMemory>
        ensures { OnOk result (self.new ≡ after self.old (formal_kinds formal.now)) }
    {
        self.mark(Mark::Question)?;
        self.place(&formal.target)
    }
}
