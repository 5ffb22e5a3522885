use crate::bounds::Bounds;
use crate::log::Log;
use crate::looking::look;
use crate::pause::Why;
use crate::seeking::Seeking;
use cl_ground::{Items, NoMemory};
use cl_list::Listed;
use cl_store::TupleStore;
use cl_value::{Act, Ask, Request, Steps, Template, Tuple, What};
use cl_walk::Answer;
use std::alloc::Global;
use std::marker::Model;
use std::sync::ledger::Ledger;

// What an operation that looks for a tuple needs in order to be recorded and told, made ahead.
#[derive(Drop)]
struct Prepared {
    got: Tuple,
    again: Tuple,
    answer: Tuple,
    asked: Template,
    asked_again: Template,
}

/// The tuples of a run of one process, and its acts so far.
///
/// Contracts see the acts, the tuples in order of adding, and the bounds of the run.
#[derive(Drop)]
pub struct Stage {
    alloc: Global,
    log: Log,
    tuples: Listed,
    bounds: Bounds,
}

impl Model for Stage {
    ghost use Rattle.cl_alone.specs.Moment.{Moment};

    ghost Value = { Moment };

    ghost view = { λ s. record { acts = s.log.items; tuples = s.tuples.tuples; sites = s.bounds.sites; limit = s.bounds.entries } };
}

ghost use Rattle.cl_ground.specs.declared.limits.TheConstants.{MOST_FIELDS};
ghost use Rattle.std.specs.Prelude.{◌≡◌, ◌<◌, OnOk, IfOk};
ghost use Rattle.cl_ground.specs.Room.{Room, HasRoom};

// Makes what an operation that looks for a tuple needs, and room for its act.
fn prepare(alloc: Global, template: &Template, log: &mut Log) -> Result<Prepared, NoMemory>
    ensures acts { log.new.items ≡ log.old.items }
    ensures act { OnOk result (0 < log.new.spare) }
    ensures asked { IfOk result (λ p. p.asked.items ≡ template.now.items) }
    ensures again { IfOk result (λ p. p.asked_again.items ≡ template.now.items) }
    ensures got_room { IfOk result (λ p. HasRoom MOST_FIELDS p.got) }
    ensures again_room { IfOk result (λ p. HasRoom MOST_FIELDS p.again) }
    ensures answer_room { IfOk result (λ p. HasRoom MOST_FIELDS p.answer) }
{
    let got = Tuple::with_room(alloc)?;
    let again = Tuple::with_room(alloc)?;
    let answer = Tuple::with_room(alloc)?;
    let asked = template.copy(alloc)?;
    let asked_again = template.copy(alloc)?;
    log.reserve()?;
    Ok(Prepared {
        got,
        again,
        answer,
        asked,
        asked_again,
    })
}

impl Stage {
    ghost use Rattle.std.specs.Prelude.{◌≡◌, ◌<◌, ◌≤◌, length, map, OnOk, OnErr, IfOk, IfErr};
    ghost use Rattle.cl_value.specs.Plain.{DidOut};
    ghost use Rattle.cl_ground.specs.Room.{Room};
    ghost use Rattle.cl_value.specs.Views.{plain_act, plain_what, plain_request};
    ghost use Rattle.cl_walk.specs.Views.{reply_in};
    ghost use Rattle.cl_alone.specs.Moment.{Moment, beginning, next_act, after_act};
    ghost use Rattle.cl_alone.specs.Seekings.{request_by, FullOr};
    ghost use Rattle.cl_alone.specs.Performing.{IsDone};
    ghost use Rattle.cl_alone.specs.Pauses.{PausesFor};

    /// Nothing was done yet.
    pub fn new(alloc: Global, bounds: Bounds) -> Stage
        ensures { result ≡ beginning bounds.sites bounds.entries }
    {
        Stage {
            alloc,
            log: Log::new(alloc),
            tuples: Listed::new(alloc),
            bounds,
        }
    }

    /// The bounds of the run.
    pub fn bounds(&self) -> Bounds
        ensures sites { result.sites ≡ self.now.sites }
        ensures entries { result.entries ≡ self.now.limit }
    {
        self.bounds
    }

    /// Does an operation with the next ticket, or tells why it isn't done. Then nothing changes.
    ///
    /// Where the history has as many acts as it may have, nothing is done; an `in` or `rd` that no tuple matches waits even then.
    pub fn perform<L: Ledger>(
        &mut self,
        request: &Request,
        steps: &mut Steps<L>,
    ) -> Result<Answer, Why>
        ensures done { IfOk result (λ answer. IsDone self.old (plain_request request.now) (reply_in answer) self.new) }
        ensures paused { IfErr result (PausesFor self.old (plain_request request.now)) }
        ensures kept { OnErr result (self.new ≡ self.old) }
    {
        if request.site as usize >= self.bounds.sites {
            return Err(Why::Refused);
        }
        if self.log.len() >= self.bounds.entries as usize {
            return Err(self.why_full(request, steps));
        }
        self.carry_out(request, steps)
    }

    // Does an operation for which the history has a place.
    fn carry_out<L: Ledger>(
        &mut self,
        request: &Request,
        steps: &mut Steps<L>,
    ) -> Result<Answer, Why>
        requires site { request.now.site < self.old.sites }
        requires room { length self.old.acts < self.old.limit }
        ensures done { IfOk result (λ answer. IsDone self.old (plain_request request.now) (reply_in answer) self.new) }
        ensures paused { IfErr result (PausesFor self.old (plain_request request.now)) }
        ensures kept { OnErr result (self.new ≡ self.old) }
    {
        let site = request.site;
        match &request.ask {
            Ask::Out(tuple) => {
                self.out(site, tuple)?;
                Ok(Answer::Done)
            }
            Ask::In(template) => self.seek(site, Seeking::In, template, steps),
            Ask::Rd(template) => self.seek(site, Seeking::Rd, template, steps),
            Ask::Inp(template) => self.seek(site, Seeking::Inp, template, steps),
            Ask::Rdp(template) => self.seek(site, Seeking::Rdp, template, steps),
            Ask::Eval(_) | Ask::Land(_) => Err(Why::Refused),
        }
    }

    // Why an operation isn't done where the history is full.
    fn why_full<L: Ledger>(&self, request: &Request, steps: &mut Steps<L>) -> Why
        requires site { request.now.site < self.now.sites }
        requires full { self.now.limit ≤ length self.now.acts }
        ensures { PausesFor self.now (plain_request request.now) result }
    {
        match &request.ask {
            Ask::In(template) | Ask::Rd(template) => self.waits_or_full(template, steps),
            Ask::Out(_) | Ask::Inp(_) | Ask::Rdp(_) | Ask::Eval(_) | Ask::Land(_) => Why::Full,
        }
    }

    // Whether an operation that waits does so, where the history is full.
    fn waits_or_full<L: Ledger>(&self, template: &Template, steps: &mut Steps<L>) -> Why
        ensures { FullOr self.now.tuples template.now.items result }
    {
        let Ok(mut into) = Tuple::with_room(self.alloc) else {
            return Why::NoMemory;
        };
        if self.tuples.find(template, &mut into, steps) {
            Why::Full
        } else {
            Why::Waits
        }
    }

    // Adds a tuple. Want of memory changes nothing.
    fn out(&mut self, site: u32, tuple: &Tuple) -> Result<(), NoMemory>
        ensures ok { OnOk result (self.new ≡ after_act self.old site (DidOut tuple.now.items)) }
        ensures err { OnErr result (self.new ≡ self.old) }
    {
        let first = self.act(site, What::Out(tuple.copy(self.alloc)?));
        let second = self.act(site, What::Out(tuple.copy(self.alloc)?));
        self.log.reserve()?;
        self.tuples.reserve(tuple)?;
        self.tuples.add(tuple);
        self.log.push(first, second);
        Ok(())
    }

    // Takes or reads the oldest tuple that matches, or misses. Where it waits, and at want of memory, nothing changes.
    fn seek<L: Ledger>(
        &mut self,
        site: u32,
        seeking: Seeking,
        template: &Template,
        steps: &mut Steps<L>,
    ) -> Result<Answer, Why>
        requires site { site < self.old.sites }
        requires room { length self.old.acts < self.old.limit }
        ensures done { IfOk result (λ answer. IsDone self.old (request_by site seeking template.now.items) (reply_in answer) self.new) }
        ensures paused { IfErr result (PausesFor self.old (request_by site seeking template.now.items)) }
        ensures kept { OnErr result (self.new ≡ self.old) }
    {
        let prepared = prepare(self.alloc, template, &mut self.log)?;
        let Prepared {
            mut got,
            mut again,
            mut answer,
            asked,
            asked_again,
        } = prepared;
        if look(&mut self.tuples, seeking, template, &mut got, steps) {
            again.refill(&got);
            answer.refill(&got);
            let first = self.act(site, seeking.hit(asked, got));
            let second = self.act(site, seeking.hit(asked_again, again));
            self.log.push(first, second);
            return Ok(Answer::Got(answer));
        }
        let (first, second) = match seeking {
            Seeking::In | Seeking::Rd => return Err(Why::Waits),
            Seeking::Inp => (What::InpMiss(asked), What::InpMiss(asked_again)),
            Seeking::Rdp => (What::RdpMiss(asked), What::RdpMiss(asked_again)),
        };
        let first = self.act(site, first);
        let second = self.act(site, second);
        self.log.push(first, second);
        Ok(Answer::Missed)
    }

    /// The acts, for the report of the process and for the history of the set.
    pub fn into_acts(self) -> (Items<Act>, Items<Act>)
        ensures report { map plain_act result.0.items ≡ self.acts }
        ensures history { map plain_act result.1.items ≡ self.acts }
    {
        let Stage {
            alloc: _,
            log,
            tuples: _,
            bounds: _,
        } = self;
        log.into_parts()
    }

    // The next act.
    fn act(&self, site: u32, what: What) -> Act
        ensures { plain_act result ≡ next_act self.now site (plain_what what) }
    {
        Act {
            ticket: self.log.len() as u64 + 1,
            proc: 0,
            site,
            what,
        }
    }
}
