//! Acts as bytes. Nothing here takes memory: room was made before.

ghost use Rattle.std.specs.Prelude.{◌≡◌, ◌+◌, ◌-◌, ◌*◌, ◌<◌, ◌≤◌, ◌++◌, vec_len, vec_capacity, option_copied};
ghost use Rattle.cl_value.specs.Views.{plain_ask};
ghost use Rattle.cl_log.specs.Answered.{answered, fields_if_any, MayAnswer, IsMatchIfAny};
ghost use Rattle.cl_log.specs.Space.{ask_room};
ghost use Rattle.cl_log.specs.Spelling.{kind_code, count_of, fields_of, act_of, answer_bytes, AnswerHasBytes, answer_count, WhatHasBytes, ActHasBytes};
ghost use Rattle.cl_log.specs.declared.write.TheConstants.{VALUE_ROOM};
ghost use Rattle.cl_log.specs.declared.write_act.TheConstants.{HEAD_ROOM};
ghost use Rattle.cl_ground.specs.declared.limits.TheConstants.{MOST_FIELDS};

use crate::number::{NUMBER_ROOM, put_number};
use crate::write::{put_hits, put_parts, put_slots, put_values};
use cl_value::{Ask, Request, Template, Tuple};

/// The most bytes that an act takes before its fields: one, and three numbers.
pub const HEAD_ROOM: usize = 31;

// The number of what was done.
fn kind_code(ask: &Ask, got: Option<&Tuple>) -> u8
    ensures value { result ≡ kind_code (answered (plain_ask ask.now) (fields_if_any (option_copied got.entry))) }
    ensures few { result < 9 }
{
    match ask {
        Ask::Out(_) => 0,
        Ask::In(_) => if got.is_some() { 1 } else { 4 },
        Ask::Rd(_) => if got.is_some() { 2 } else { 6 },
        Ask::Inp(_) => if got.is_some() { 3 } else { 4 },
        Ask::Rdp(_) => if got.is_some() { 5 } else { 6 },
        Ask::Eval(_) => 7,
        Ask::Land(_) => 8,
    }
}

// The number of fields of an answer to a template.
fn answer_count(template: &Template, got: Option<&Tuple>) -> usize
    ensures value { result ≡ answer_count template.now.items (fields_if_any (option_copied got.entry)) }
    ensures some { 0 < result }
    ensures few { result ≤ MOST_FIELDS }
{
    match got {
        Some(tuple) => tuple.len(),
        None => template.len(),
    }
}

// The number of fields.
fn count(ask: &Ask, got: Option<&Tuple>) -> usize
    ensures value { result ≡ count_of (answered (plain_ask ask.now) (fields_if_any (option_copied got.entry))) }
    ensures some { 0 < result }
    ensures few { result ≤ MOST_FIELDS }
{
    match ask {
        Ask::Out(tuple) => tuple.len(),
        Ask::In(template) => answer_count(template, got),
        Ask::Rd(template) => answer_count(template, got),
        Ask::Inp(template) => answer_count(template, got),
        Ask::Rdp(template) => answer_count(template, got),
        Ask::Eval(live) => live.len(),
        Ask::Land(tuple) => tuple.len(),
    }
}

// A hit, or a miss.
fn put_answer(out: &mut Vec<u8>, template: &Template, got: Option<&Tuple>)
    requires matching { IsMatchIfAny template.now.items (fields_if_any (option_copied got)) }
    requires space { vec_len out.old + VALUE_ROOM * MOST_FIELDS ≤ vec_capacity out.old }
    ensures bytes { out.new.items ≡ out.old.items ++ answer_bytes template.now.items (fields_if_any (option_copied got.entry)) }
    ensures fits { AnswerHasBytes template.now.items (fields_if_any (option_copied got.entry)) }
    ensures room { vec_len out.new ≤ vec_len out.old + VALUE_ROOM * MOST_FIELDS }
    ensures capacity { vec_capacity out.new ≡ vec_capacity out.old }
{
    match got {
        Some(tuple) => {
            let _few = tuple.len();
            put_hits(out, template.slots(), tuple.fields());
        }
        None => {
            let _few = template.len();
            put_slots(out, template.slots());
        }
    }
}

fn put_tuple(out: &mut Vec<u8>, tuple: &Tuple)
    requires space { vec_len out.old + VALUE_ROOM * MOST_FIELDS ≤ vec_capacity out.old }
    ensures bytes { out.new.items ≡ out.old.items ++ values_of tuple.now.items }
    ensures fit { AllByRecursion HasBytes tuple.now.items }
    ensures room { vec_len out.new ≤ vec_len out.old + VALUE_ROOM * MOST_FIELDS }
    ensures capacity { vec_capacity out.new ≡ vec_capacity out.old }
{
    let _few = tuple.len();
    put_values(out, tuple.fields());
}

ghost use Rattle.std.specs.List.{AllByRecursion};
ghost use Rattle.cl_log.specs.Values.{values_of, HasBytes};

// The fields.
fn put_fields(out: &mut Vec<u8>, ask: &Ask, got: Option<&Tuple>)
    requires answer { MayAnswer (plain_ask ask.now) (fields_if_any (option_copied got)) }
    requires space { vec_len out.old + ask_room (plain_ask ask.now) ≤ vec_capacity out.old + HEAD_ROOM }
    ensures bytes { out.new.items ≡ out.old.items ++ fields_of (answered (plain_ask ask.now) (fields_if_any (option_copied got.entry))) }
    ensures fits { WhatHasBytes (answered (plain_ask ask.now) (fields_if_any (option_copied got.entry))) }
    ensures room { vec_len out.new + HEAD_ROOM ≤ vec_len out.old + ask_room (plain_ask ask.now) }
    ensures capacity { vec_capacity out.new ≡ vec_capacity out.old }
{
    match ask {
        Ask::Out(tuple) => put_tuple(out, tuple),
        Ask::In(template) => put_answer(out, template, got),
        Ask::Rd(template) => put_answer(out, template, got),
        Ask::Inp(template) => put_answer(out, template, got),
        Ask::Rdp(template) => put_answer(out, template, got),
        Ask::Eval(live) => put_parts(out, live.fields()),
        Ask::Land(tuple) => put_tuple(out, tuple),
    }
}

/// Puts an act last, behind one of the ticket `before`. It takes no memory.
#[tactic(auto, unfolding(crate::specs::Spelling::act_of))]
pub fn put_act(
    out: &mut Vec<u8>,
    before: u64,
    ticket: u64,
    proc: u64,
    request: &Request,
    got: Option<&Tuple>,
)
    requires later { before ≤ ticket }
    requires answer { MayAnswer (plain_ask request.now.ask) (fields_if_any (option_copied got)) }
    requires space { vec_len out.old + ask_room (plain_ask request.now.ask) ≤ vec_capacity out.old }
    ensures bytes { out.new.items ≡ out.old.items ++ act_of before (done ticket proc request.now.site (answered (plain_ask request.now.ask) (fields_if_any (option_copied got.entry)))) }
    ensures fits { ActHasBytes before (done ticket proc request.now.site (answered (plain_ask request.now.ask) (fields_if_any (option_copied got.entry)))) }
    ensures room { vec_len out.new ≤ vec_len out.old + ask_room (plain_ask request.now.ask) }
    ensures capacity { vec_capacity out.new ≡ vec_capacity out.old }
{
    let fields = count(&request.ask, got) as u8;
    out.push_reserved(16 * kind_code(&request.ask, got) + (fields - 1));
    put_number(out, ticket - before);
    put_number(out, proc);
    put_number(out, u64::from(request.site));
    put_fields(out, &request.ask, got);
}

ghost use Rattle.cl_log.specs.Answered.{done};
