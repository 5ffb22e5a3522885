//! The tokens of definitions and functions, in their order, and the text of a whole source.

ghost use Rattle.std.specs.Prelude.{◌≡◌, ◌++◌, ℕ, List, [], map, OnOk, IfOk};
ghost use Rattle.cl_ast.specs.Plain as kinds;
ghost use Rattle.cl_print.specs.Spelling.{spelling, text_of, after, after_all};
ghost use Rattle.cl_print.specs.Expressions.{listed};
ghost use Rattle.cl_print.specs.Writing.{result_word, parameter_kinds, function_kinds, minus, define_written, item_written, written, canonical};
ghost use Rattle.cl_print.specs.Back.{ReadsAs, ReadsBack};

use crate::statement::type_word;
use crate::writer::Writer;
use cl_ast::{Define, Function, Item, Mark, Parameter, TypeName, Unit, Word};
use cl_ground::{Items, NoMemory};
use std::alloc::Global;

/// The word before a function's name.
fn result_word(gives: Option<TypeName>) -> Word
    ensures { result ≡ result_word gives }
{
    match gives {
        Some(type_name) => type_word(type_name),
        None => Word::Void,
    }
}

impl Writer {
    /// Puts a parameter at the end.
    #[tactic(auto, using(crate::proofs::Lines::after_both), unfolding(crate::specs::Writing::parameter_kinds))]
    fn parameter(&mut self, parameter: &Parameter) -> Result<(), NoMemory>
        ensures { OnOk result (self.new ≡ after self.old (parameter_kinds parameter.now)) }
    {
        self.word(type_word(parameter.type_name))?;
        self.name(&parameter.name)
    }

    /// Puts parameters with commas between them at the end.
    fn parameters(&mut self, parameters: &[Parameter]) -> Result<(), NoMemory>
        ensures { OnOk result (self.new ≡ after self.old (listed (map parameter_kinds parameters.now))) }
    {
        let mut is_first = true;
        for parameter in parameters {
            self.comma(is_first)?;
            self.parameter(parameter)?;
            is_first = false;
        }
        Ok(())
    }

    /// Puts a function at the end.
    #[tactic(auto, using(crate::proofs::Lines::after_both), unfolding(crate::specs::Writing::function_kinds))]
    fn function(&mut self, function: &Function) -> Result<(), NoMemory>
        ensures { OnOk result (self.new ≡ after self.old (function_kinds function.now)) }
    {
        self.word(result_word(function.result))?;
        self.name(&function.name)?;
        self.mark(Mark::OpenBracket)?;
        self.parameters(function.parameters.as_slice())?;
        self.mark(Mark::CloseBracket)?;
        self.block(&function.body)
    }

    /// Puts a minus with nothing behind it at the end, where there is one.
    #[tactic(auto, using(crate::proofs::ItemLines::after_minus, crate::proofs::ItemLines::after_no_minus))]
    fn minus(&mut self, is_negative: bool) -> Result<(), NoMemory>
        ensures { OnOk result (self.new ≡ after_all self.old (minus is_negative)) }
    {
        if is_negative { self.put(b"-") } else { Ok(()) }
    }

    /// Puts a line that defines a constant at the end.
    #[tactic(auto, using(crate::proofs::ItemLines::after_define))]
    fn define(&mut self, define: &Define) -> Result<(), NoMemory>
        ensures { OnOk result (self.new ≡ after_all self.old (define_written define.now)) }
    {
        self.put(b"#define ")?;
        self.name(&define.name)?;
        self.minus(define.is_negative)?;
        self.bare_constant(define.literal.value)?;
        self.put(b"\n")
    }

    /// Puts an item at the end.
    #[tactic(auto, using(crate::proofs::Lines::after_both, crate::proofs::ItemLines::after_spaced))]
    fn item(&mut self, item: &Item) -> Result<(), NoMemory>
        ensures { OnOk result (self.new ≡ after_all self.old (item_written item.now)) }
    {
        match item {
            Item::Define(define) => self.define(define),
            Item::Variables(variables) => {
                self.variables(variables)?;
                self.mark(Mark::Semicolon)
            }
            Item::Function(function) => self.function(function),
        }
    }

    /// Puts items at the end.
    fn items(&mut self, items: &[Item]) -> Result<(), NoMemory>
        ensures { OnOk result (self.new ≡ after_all self.old (written items.now)) }
    {
        for item in items {
            self.item(item)?;
        }
        Ok(())
    }
}

/// The canonical text of a whole source: all tokens of its tree in order, each with a blank behind it, but
/// `{`, `}`, `;` and a define line with LF, and with brackets round an operand exactly where the grammar
/// needs them.
///
/// Of the tree of a source the text reads back: tokens split it, of whatever length it is, and these derive the
/// same tree but for places, no deeper than those of the source did. Printing that tree gives the text again.
///
/// `NoMemory` comes where a growth of the text was refused, and for nothing else.
#[tactic(auto, unfolding(crate::specs::Spelling::after_all))]
pub fn print(alloc: Global, unit: &Unit) -> Result<Items<u8>, NoMemory>
    ensures text { IfOk result (λ text. text.items ≡ canonical unit.now.items) }
    ensures reads_back { IfOk result (λ text. (n : ℕ) (source : List ℕ) → ReadsAs n source unit.now.items → ReadsBack n text.items unit.now.items) }
{
    let mut writer = Writer::new(alloc);
    writer.items(unit.items.as_slice())?;
    Ok(writer.into_bytes())
}
