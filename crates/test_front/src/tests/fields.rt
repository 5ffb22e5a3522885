// What the fields of operations are.

use super::read;
use cl_ast::Constant::{Character, Int, Long};
use cl_ast::{Constant, TypeName, Unit};
use cl_types::FieldForm::{Actual, Formal, Text};
use cl_types::{FieldForm, Number, Site, Typed, check};
use std::alloc::Global;

// A constant.
fn plus(literal: Constant) -> FieldForm {
    FieldForm::Constant(Number {
        is_negative: false,
        literal,
    })
}

// A constant behind a minus.
fn minus(literal: Constant) -> FieldForm {
    FieldForm::Constant(Number {
        is_negative: true,
        literal,
    })
}

// Whether the operations have these fields, in their order.
fn agree(sites: &[Site<'_>], wanted: &[&[FieldForm]]) -> bool {
    if sites.len() != wanted.len() {
        return false;
    }
    for i in 0..wanted.len() {
        if sites[i].forms.as_slice() != wanted[i] {
            return false;
        }
    }
    true
}

// Whether a tree has operations with these fields, in the order of its text.
fn has_forms(alloc: Global, unit: Unit, wanted: &[&[FieldForm]]) -> bool {
    match check(alloc, unit) {
        Ok(typed) => tells(alloc, &typed, wanted),
        Err(_) => false,
    }
}

// Whether the operations of the tree have these fields.
fn tells(alloc: Global, typed: &Typed, wanted: &[&[FieldForm]]) -> bool {
    match typed.sites(alloc) {
        Ok(sites) => agree(sites.as_slice(), wanted),
        Err(_) => false,
    }
}

// Operations with every kind of field, nested ones and a name that hides another.
const FIELDS: &[u8] =
    b"#define C 5\nchar k;long l;int a[2];int f(int n){return n;}real_main(){int g;\
    out(\"x\",-C,- -5,-'a',2147483648,C);eval(\"e\",f(1),g,f(1)+1);out(\"a\",inp(\"b\",k,l+1,-k),C<2);\
    in(\"s\",?k,?a[rdp(7)],?l,a[0]);{long C=C;out(C,-C);}for(;;out(C))rd(f(1)==g);}";

const INT: TypeName = TypeName::Int;

const LONG: TypeName = TypeName::Long;

const CHAR: TypeName = TypeName::Char;

#[test]
fn fields_are_told_in_the_order_of_the_text(rt: HostRuntime) {
    let wanted: &[&[FieldForm]] = &[
        &[
            Text,
            minus(Int(5)),
            plus(Int(5)),
            minus(Character(b'a')),
            plus(Long(2147483648)),
            plus(Int(5)),
        ],
        &[Text, Actual(INT), Actual(INT), Actual(INT)],
        &[Text, Actual(INT), Actual(INT)],
        &[Text, Actual(CHAR), Actual(LONG), Actual(INT)],
        &[Text, Formal(CHAR), Formal(INT), Formal(LONG), Actual(INT)],
        &[plus(Int(7))],
        &[Actual(LONG), Actual(LONG)],
        &[plus(Int(5))],
        &[Actual(INT)],
    ];
    match read(rt.alloc(), FIELDS) {
        Ok(unit) => assert!(rt; has_forms(rt.alloc(), unit, wanted)),
        Err(verdict) => assert!(rt; false, "{verdict:?}"),
    }
}
