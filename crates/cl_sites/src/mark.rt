ghost use Rattle.std.specs.Prelude.{◌≡◌, ◌++◌, OnOk, IfOk};
ghost use Rattle.cl_ground.specs.Room.{Room};
ghost use Rattle.cl_meaning.specs.Operators as operators;
ghost use Rattle.cl_sites.specs.Sites.{number_gives, number_mark, text_bytes, mark_of, marks_of};

use cl_ast::{Field, TypeName};
use cl_ground::{Items, NoMemory};
use cl_listing::Listing;
use cl_sig::Mark;
use cl_state::{literal, negated};
use cl_types::{FieldForm, Number};
use cl_value::{FieldType, Trap, Value};

/// The type of a field that has a type of the language.
fn field_type(of: TypeName) -> FieldType
    ensures { result ≡ operators.field_type of }
{
    match of {
        TypeName::Int => FieldType::Int,
        TypeName::Long => FieldType::Long,
        TypeName::Char => FieldType::Char,
    }
}

/// The value of a number at each act.
fn number_gives(number: Number) -> Result<Value, Trap>
    ensures { result ≡ number_gives number }
{
    let value = literal(number.literal);
    if number.is_negative {
        negated(value)
    } else {
        Ok(value)
    }
}

/// What is told of a number.
fn number_mark(number: Number) -> Mark
    ensures { result ≡ number_mark number }
{
    match number_gives(number) {
        Ok(value) => Mark::Constant(value),
        Err(_) => Mark::Actual(literal(number.literal).type_of()),
    }
}

/// The bytes of a string; no other field has any.
fn text_bytes(field: &Field) -> &[u8]
    ensures { result.now ≡ text_bytes field.now }
{
    match field {
        Field::Text(text) => text.bytes.as_slice(),
        Field::Formal(_) | Field::Plain(_) => &[],
    }
}

/// What is told of a string. `NoMemory` comes where its number doesn't fit 32 bits.
fn text_mark(field: &Field, listing: &Listing<'_>) -> Result<Mark, NoMemory>
    ensures { IfOk result (λ mark. mark ≡ mark_of listing.now.texts field.now Text) }
{
    let Some(number) = listing.text_number(text_bytes(field)) else {
        return Err(NoMemory);
    };
    match u32::try_from(number) {
        Ok(number) => Ok(Mark::Constant(Value::Text(number))),
        Err(_) => Err(NoMemory),
    }
}

ghost use Rattle.cl_types.specs.declared.fields.form.FieldForm.TheVariants.{Text};

/// What is told of a field, by what it is.
fn mark(field: &Field, form: FieldForm, listing: &Listing<'_>) -> Result<Mark, NoMemory>
    ensures { IfOk result (λ mark. mark ≡ mark_of listing.now.texts field.now form) }
{
    match form {
        FieldForm::Text => text_mark(field, listing),
        FieldForm::Constant(number) => Ok(number_mark(number)),
        FieldForm::Formal(of) => Ok(Mark::Formal(field_type(of))),
        FieldForm::Actual(of) => Ok(Mark::Actual(field_type(of))),
    }
}

/// Puts what is told of fields behind what is there.
pub fn add_marks(
    fields: &[Field],
    forms: &[FieldForm],
    listing: &Listing<'_>,
    marks: &mut Items<Mark>,
) -> Result<(), NoMemory>
    ensures { OnOk result (marks.new.items ≡ marks.old.items ++ marks_of listing.now.texts fields.now forms.now) }
{
    match fields {
        [] => Ok(()),
        [field, fields @ ..] => match forms {
            [] => Ok(()),
            [form, forms @ ..] => {
                let told = mark(field, *form, listing)?;
                marks.reserve(1)?;
                marks.push(told);
                add_marks(fields, forms, listing, marks)
            }
        },
    }
}
