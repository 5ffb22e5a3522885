ghost use Rattle.std.specs.Prelude.{◌≡◌, IfOk};
ghost use Rattle.cl_types.specs.Findings.{found_type, tell, tell_own};
ghost use Rattle.cl_types.specs.Fields.{plain_form, field_form, own_forms};

use super::type_of::{type_of, type_of_place};
use crate::judge::constant;
use crate::scopes::Scopes;
use crate::{Access, Number};
use cl_ast::{Field, TypeName};
use sqlite_items::Items;
use std::alloc::{AllocError, Global};

/// What a field of an operation is. (Gelernter 1985.)
#[derive(Clone, Copy, Debug, PartialEq, Eq)]
pub enum FieldForm {
    /// A string.
    Text,
    /// A number that the text tells: a literal or the name of a constant, behind any number of minuses.
    Constant(Number),
    /// A place that is given a value of the type.
    Formal(TypeName),
    /// An expression of the type.
    Actual(TypeName),
}

/// The type that is found. A tree without faults has no other.
fn found_type(found: Option<TypeName>) -> TypeName
    ensures { result ≡ found_type found }
{
    match found {
        Some(type_name) => type_name,
        None => TypeName::Int,
    }
}

/// What an expression is as a field, by the constant that it is, where it is one, and its type.
fn plain_form(constant: Option<Number>, found: Option<TypeName>) -> FieldForm
    ensures { result ≡ tell (plain_form constant found) }
{
    match constant {
        Some(number) => FieldForm::Constant(number),
        None => FieldForm::Actual(found_type(found)),
    }
}

/// What a field is.
fn field_form(field: &Field, scopes: &Scopes<'_>) -> FieldForm
    ensures { result ≡ tell (field_form field.now scopes.now) }
{
    match field {
        Field::Text(_) => FieldForm::Text,
        Field::Formal(part) => {
            let found = type_of_place(&part.target, Access::Write, scopes);
            FieldForm::Formal(found_type(found))
        }
        Field::Plain(e) => plain_form(constant(e, scopes), type_of(e, scopes)),
    }
}

/// What the fields of an operation are, in order.
pub fn own_forms(
    alloc: Global,
    fields: &[Field],
    scopes: &Scopes<'_>,
) -> Result<Items<FieldForm>, AllocError>
    ensures { IfOk result (λ forms. forms ≡ tell_own (own_forms fields.now scopes.now)) }
{
    let mut forms = Items::new(alloc);
    for field in fields {
        forms.push(field_form(field, scopes))?;
    }
    Ok(forms)
}
