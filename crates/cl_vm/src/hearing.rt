//! From a reply to the numbers that it gives. (That zeros come on a miss: this project.)

ghost use Rattle.std.specs.Prelude.{◌≡◌, ◌+◌, ◌≤◌, Some, length, pos, replicate};
ghost use Rattle.cl_value.specs.Plain.{PlainReply};
ghost use Rattle.cl_model.specs.Numbers.{number};
ghost use Rattle.cl_code.specs.Sites.{answer_told, answers, formals_in, formals_told, hit, received};
ghost use Rattle.cl_vm.specs.Hears.{plain_reply, told_of, with_all};

use crate::Memory;
use crate::vm::Reply;
use cl_sig::{Kind, Mark};
use cl_value::Value;

/// A value as a number; that of a text is its place.
pub fn number_of(value: Value) -> i64
    ensures { result ≡ number value }
{
    match value {
        Value::Int(n) => i64::from(n),
        Value::Long(n) => n,
        Value::Char(n) => i64::from(n),
        Value::Text(n) => i64::from(n),
    }
}

/// Pushes the values that stand at the formals, into room that was made before.
pub fn push_received(memory: &mut Memory, marks: &[Mark], values: &[Value])
    requires { length memory.old.stack + formals_in marks.now ≤ memory.old.space }
    ensures told { memory.new ≡ with_all (received marks.now values.now) memory.old }
    ensures few { length memory.new.stack ≤ length memory.old.stack + formals_in marks.now }
{
    match marks {
        [] => {}
        [mark, marks @ ..] => match values {
            [] => {}
            [value, values @ ..] => {
                if let Mark::Formal(_) = *mark {
                    memory.push(number_of(*value));
                }
                push_received(memory, marks, values);
            }
        },
    }
}

/// Pushes a zero for each formal, into room that was made before.
pub fn push_zeros(memory: &mut Memory, marks: &[Mark])
    requires { length memory.old.stack + formals_in marks.now ≤ memory.old.space }
    ensures told { memory.new ≡ with_all (replicate (formals_in marks.now) (pos 0)) memory.old }
    ensures few { length memory.new.stack ≤ length memory.old.stack + formals_in marks.now }
{
    match marks {
        [] => {}
        [Mark::Formal(_), marks @ ..] => {
            memory.push(0);
            push_zeros(memory, marks);
        }
        [_, marks @ ..] => push_zeros(memory, marks),
    }
}

// Pushes what stands at the formals after a reply, into room that was made before.
fn push_formals(memory: &mut Memory, marks: &[Mark], reply: &Reply<'_>)
    requires { length memory.old.stack + formals_in marks.now ≤ memory.old.space }
    ensures told { (told : PlainReply) → plain_reply reply.now ≡ Some told → memory.new ≡ with_all (formals_told marks.now told) memory.old }
    ensures few { length memory.new.stack ≤ length memory.old.stack + formals_in marks.now }
    ensures space { memory.new.space ≡ memory.old.space }
{
    match reply {
        Reply::Got(tuple) => push_received(memory, marks, tuple.fields()),
        Reply::Begin | Reply::Done | Reply::Miss => push_zeros(memory, marks),
    }
}

// 1 for a tuple.
fn hit_of(reply: &Reply<'_>) -> i64
    ensures { (told : PlainReply) → plain_reply reply.now ≡ Some told → result ≡ hit told }
{
    match reply {
        Reply::Got(_) => 1,
        Reply::Begin | Reply::Done | Reply::Miss => 0,
    }
}

// Pushes whether an operation that answers so hit, into room that was made before.
fn push_answer(memory: &mut Memory, kind: Kind, reply: &Reply<'_>)
    requires { length memory.old.stack + answers kind ≤ memory.old.space }
    ensures { (told : PlainReply) → plain_reply reply.now ≡ Some told → memory.new ≡ with_all (answer_told kind told) memory.old }
{
    match kind {
        Kind::Inp | Kind::Rdp => memory.push(hit_of(reply)),
        Kind::Out | Kind::In | Kind::Rd | Kind::Eval => {}
    }
}

/// Pushes what a reply gives to an operation of this kind with these fields, into room that was made before.
pub fn push_told(memory: &mut Memory, kind: Kind, marks: &[Mark], reply: &Reply<'_>)
    requires { length memory.old.stack + (formals_in marks.now + answers kind) ≤ memory.old.space }
    ensures { (told : PlainReply) → plain_reply reply.now ≡ Some told → memory.new ≡ with_all (told_of kind marks.now told) memory.old }
{
    push_formals(memory, marks, reply);
    push_answer(memory, kind, reply);
}
