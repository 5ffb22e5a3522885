ghost use Rattle.std.specs.Prelude.{◌≡◌, ◌++◌, Some, IfOk, OnOk};
ghost use Rattle.cl_types.specs.Formats.{directives_of, step_of, takes};

use crate::Directive;
use cl_ast::TypeName;
use sqlite_items::Items;
use std::alloc::{AllocError, Global};

/// How far the reading of a text of `printf` has come.
#[derive(Clone, Copy, Debug, PartialEq, Eq)]
pub enum Stage {
    /// Behind text or a directive.
    Text,
    /// Behind a `%`.
    Percent,
    /// Behind `%l`.
    Long,
}

/// What a byte of the text does.
#[derive(Clone, Copy, Debug, PartialEq, Eq)]
pub struct Step {
    /// How far it leads.
    pub stage: Stage,
    /// The directive that ends with it.
    pub directive: Option<Directive>,
}

/// What a byte does at a stage; none where it can't stand there.
fn step_of(stage: Stage, byte: u8) -> Option<Step>
    ensures { result ≡ step_of stage byte }
{
    match stage {
        Stage::Text => {
            if byte == b'%' {
                goes_on(Stage::Percent)
            } else {
                goes_on(Stage::Text)
            }
        }
        Stage::Percent => {
            if byte == b'd' {
                ends(Directive::Decimal)
            } else if byte == b'c' {
                ends(Directive::Character)
            } else if byte == b'l' {
                goes_on(Stage::Long)
            } else if byte == b'%' {
                goes_on(Stage::Text)
            } else {
                None
            }
        }
        Stage::Long => {
            if byte == b'd' {
                ends(Directive::LongDecimal)
            } else {
                None
            }
        }
    }
}

ghost use Rattle.cl_types.specs.Formats.{goes_on, ends};

/// A step with which no directive ends.
fn goes_on(stage: Stage) -> Option<Step>
    ensures { result ≡ goes_on stage }
{
    Some(Step {
        stage,
        directive: None,
    })
}

/// A step with which a directive ends.
fn ends(directive: Directive) -> Option<Step>
    ensures { result ≡ ends directive }
{
    Some(Step {
        stage: Stage::Text,
        directive: Some(directive),
    })
}

/// Puts a directive behind others, where one ended.
fn put(found: &mut Items<Directive>, directive: Option<Directive>) -> Result<(), AllocError>
    ensures { OnOk result (found.new ≡ found.old ++ listed directive) }
{
    match directive {
        None => Ok(()),
        Some(directive) => found.push(directive),
    }
}

ghost use Rattle.cl_types.specs.Formats.{listed};

/// The directives of a text of `printf`, in order; none where a `%` begins none.
pub fn directives(alloc: Global, text: &[u8]) -> Result<Option<Items<Directive>>, AllocError>
    ensures { IfOk result (λ found. found ≡ directives_of text.now) }
{
    let mut found = Items::new(alloc);
    let mut stage = Stage::Text;
    for byte in text {
        match step_of(stage, *byte) {
            None => return Ok(None),
            Some(next) => {
                put(&mut found, next.directive)?;
                stage = next.stage;
            }
        }
    }
    match stage {
        Stage::Text => Ok(Some(found)),
        Stage::Percent | Stage::Long => Ok(None),
    }
}

/// Whether a directive takes values of the type.
pub fn takes(directive: Directive, type_name: TypeName) -> bool
    ensures { result ≡ takes directive type_name }
{
    match directive {
        Directive::LongDecimal => match type_name {
            TypeName::Long => true,
            TypeName::Int | TypeName::Char => false,
        },
        Directive::Decimal | Directive::Character => match type_name {
            TypeName::Long => false,
            TypeName::Int | TypeName::Char => true,
        },
    }
}
