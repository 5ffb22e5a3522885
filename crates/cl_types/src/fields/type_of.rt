ghost use Rattle.std.specs.Prelude.{◌≡◌};
ghost use Rattle.cl_types.specs.Expressions.{judged, judged_place, judged_call, judged_chain};

use crate::Access;
use crate::expression::{called_type, literal_type, negated_type, operated, place_type};
use crate::scopes::Scopes;
use cl_ast::{Call, Chain, Expr, Place, TypeName};

/// The type of a place that is read or written, where it is found.
pub fn type_of_place(part: &Place, access: Access, scopes: &Scopes<'_>) -> Option<TypeName>
    ensures { result ≡ (judged_place part.now access scopes.now).type }
{
    let what = scopes.look_up(part.name.bytes.as_slice());
    place_type(access, part.index.is_some(), what)
}

/// The type of a call, where it is found.
fn type_of_call(part: &Call, scopes: &Scopes<'_>) -> Option<TypeName>
    ensures { result ≡ (judged_call part.now purposes.Value scopes.now).type }
{
    called_type(scopes.look_up(part.name.bytes.as_slice()))
}

ghost use Rattle.cl_types.specs.declared.context.Purpose.TheVariants as purposes;

/// The type of an expression, where it is found. It doesn't look into indexes, arguments and fields.
#[cycle(typing)]
pub fn type_of(e: &Expr, scopes: &Scopes<'_>) -> Option<TypeName>
    ensures { result ≡ (judged e.now scopes.now).type }
{
    match e {
        Expr::Literal(literal) => Some(literal_type(literal.value)),
        Expr::Place(part) => type_of_place(part, Access::Read, scopes),
        Expr::Call(part) => type_of_call(part, scopes),
        Expr::Operation(_) => Some(TypeName::Int),
        Expr::Chain(part) => type_of_chain(part, scopes),
        Expr::Negate(part) => negated_type(type_of(part.operand.get(), scopes)),
        Expr::Not(_) => Some(TypeName::Int),
    }
}

/// The type of operands with operators between them, from the left.
#[cycle(typing)]
fn type_of_chain(part: &Chain, scopes: &Scopes<'_>) -> Option<TypeName>
    ensures { result ≡ (judged_chain part.now scopes.now).type }
{
    let mut found = type_of(part.first.get(), scopes);
    let links = part.others.as_slice();
    for i in 0..links.len() {
        let link = &links[i];
        let operand = type_of(&link.operand, scopes);
        found = operated(link.operator, found, operand);
    }
    found
}
