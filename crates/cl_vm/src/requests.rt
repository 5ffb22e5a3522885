//! How a request is filled into lists that were made before. (The operations: Gelernter 1985.)

ghost use Rattle.cl_ground.specs.declared.limits.TheConstants.{MOST_FIELDS};
ghost use Rattle.std.specs.Prelude.{◌≡◌, ◌+◌, ◌<◌, ◌≤◌, false, length, map, ℕ, IfOk, IsTrue, List, [], None, OnOk, Some};
ghost use Rattle.std.specs.List.{list_all};
ghost use Rattle.cl_value.specs.LiveViews.{plain_part};
ghost use Rattle.cl_value.specs.Plain.{Land};
ghost use Rattle.cl_ground.specs.Room.{HasRoom, capacity_of};
ghost use Rattle.cl_value.specs.Views.{plain_ask, plain_request};
ghost use Rattle.cl_value.specs.declared.request.Request.{Request as AnyRequest};
ghost use Rattle.cl_code.specs.Plain.{PlainProgram, plain_function};
ghost use Rattle.cl_code.specs.Rules.{is_eval, may_receive};
ghost use Rattle.cl_code.specs.Sites.{Field, asked, fields_of, places, slots_of, values_of};
ghost use Rattle.cl_vm.specs.Asking.{Reads, is_evaluated, is_receivable};
ghost use Rattle.cl_vm.specs.Buffers.{AskedAt, HasLists, IsCleared, IsReady, Lands, ReadsParts, Stands, fields_in, held_in, slots_in, values_in};
ghost use Rattle.cl_vm.specs.Parts.{AreWide, KeepsLists, lists_of, widest_of};

use crate::asking::{add_parts, add_slots, add_values};
use crate::buffers::Buffers;
use cl_code::Function;
use cl_ground::{Items, MOST_DEPTH, MOST_FIELDS, NoMemory};
use cl_sig::{Kind, Mark, Signature};
use cl_value::{Ask, Live, LiveField, Request, Slot, Template, Trap, Tuple, Value};
use std::alloc::Global;
use std::mem;

// So many lists with room for so many values each.
fn lists(alloc: Global, count: usize, widest: usize) -> Result<Items<Items<Value>>, NoMemory>
    ensures count { IfOk result (λ all. length all.items ≡ count) }
    ensures wide { IfOk result (λ all. AreWide widest all.items) }
{
    let mut all = Items::new(alloc);
    all.reserve(count)?;
    for _ in 0..count {
        let mut list = Items::new(alloc);
        list.reserve(widest)?;
        all.push(list);
    }
    Ok(all)
}

// Lets all fields go, and keeps the lists of their calls' arguments.
fn empty_fields(fields: &mut Items<LiveField>, spare: &mut Items<Items<Value>>)
    requires { length (lists_of fields.old.items) + length spare.old.items ≤ capacity_of spare.old }
    ensures empty { fields.new.items ≡ [] }
    ensures kept { (w : ℕ) → AreWide w (lists_of fields.old.items) → AreWide w spare.old.items → KeepsLists w fields.old fields.new spare.old spare.new }
{
    if fields.len() == 0 {
        return;
    }
    match fields.remove(0) {
        LiveField::Ready(_) => empty_fields(fields, spare),
        LiveField::Call { arguments, .. } => {
            spare.push(arguments);
            empty_fields(fields, spare);
        }
    }
}

// The tuple of these fields, of which none is a formal.
fn tuple_of(
    values: &mut Items<Value>,
    alloc: Global,
    marks: &[Mark],
    numbers: &[i64],
) -> Result<Tuple, Trap>
    requires room { HasRoom MOST_FIELDS values.old }
    requires some { 0 < length marks.now }
    requires few { length marks.now ≤ MOST_FIELDS }
    requires evaluated { IsTrue (list_all is_evaluated marks.now) }
    ensures told { (p : PlainProgram) → Reads values_of (fields_of p (places marks.now []) numbers.now) result }
    ensures room { IfOk result (HasRoom MOST_FIELDS) }
{
    values.clear();
    add_values(values, marks, numbers)?;
    let fields = mem::replace(values, Items::new(alloc));
    Ok(Tuple::new(fields))
}

// The template of these fields, whose formals are of numbers.
fn template_of(
    slots: &mut Items<Slot>,
    alloc: Global,
    marks: &[Mark],
    numbers: &[i64],
) -> Result<Template, Trap>
    requires room { HasRoom MOST_FIELDS slots.old }
    requires some { 0 < length marks.now }
    requires few { length marks.now ≤ MOST_FIELDS }
    requires receivable { IsTrue (list_all is_receivable marks.now) }
    ensures told { (p : PlainProgram) → Reads slots_of (fields_of p (places marks.now []) numbers.now) result }
    ensures room { IfOk result (HasRoom MOST_FIELDS) }
{
    slots.clear();
    add_slots(slots, marks, numbers)?;
    let fields = mem::replace(slots, Items::new(alloc));
    Ok(Template::new(fields))
}

// The live tuple of these fields, of which none is a formal.
fn live_of(
    fields: &mut Items<LiveField>,
    spare: &mut Items<Items<Value>>,
    alloc: Global,
    functions: &[Function],
    marks: &[Mark],
    calls: &[Option<u32>],
    numbers: &[i64],
) -> Result<Live, Trap>
    requires room { HasRoom MOST_FIELDS fields.old }
    requires empty { fields.old.items ≡ [] }
    requires lists { MOST_FIELDS ≤ length spare.old.items }
    requires wide { AreWide (widest_of (map plain_function functions.now)) spare.old.items }
    requires some { 0 < length marks.now }
    requires few { length marks.now ≤ MOST_FIELDS }
    requires evaluated { IsTrue (list_all is_evaluated marks.now) }
    ensures told { (p : PlainProgram) → p.functions ≡ map plain_function functions.now → ReadsParts (fields_of p (places marks.now calls.now) numbers.now) result }
    ensures room { IfOk result (λ live. KeepsLists (widest_of (map plain_function functions.now)) fields.old live spare.old spare.new) }
{
    add_parts(fields, spare, functions, marks, calls, numbers)?;
    let all = mem::replace(fields, Items::new(alloc));
    Ok(Live::new(all))
}

impl Buffers {
    /// Room for every request of a program whose functions have at most so many parameters. `NoMemory` comes where the
    /// allocator refused it.
    pub(crate) fn new(alloc: Global, widest: usize) -> Result<Buffers, NoMemory>
        ensures { IfOk result (IsReady widest) }
    {
        let mut values = Items::new(alloc);
        values.reserve(MOST_FIELDS)?;
        let mut slots = Items::new(alloc);
        slots.reserve(MOST_FIELDS)?;
        let mut fields = Items::new(alloc);
        fields.reserve(MOST_FIELDS)?;
        let spare = lists(alloc, MOST_FIELDS, widest)?;
        Ok(Buffers {
            request: None,
            values,
            slots,
            fields,
            spare,
            alloc,
        })
    }

    // Takes the list of an operation back.
    fn take_back(&mut self, ask: Ask)
        ensures { self.new ≡ record self.old { values = values_in ask self.old.values; slots = slots_in ask self.old.slots; fields = fields_in ask self.old.fields } }
    {
        match ask {
            Ask::Out(tuple) => self.values = tuple.into_items(),
            Ask::In(template) => self.slots = template.into_items(),
            Ask::Rd(template) => self.slots = template.into_items(),
            Ask::Inp(template) => self.slots = template.into_items(),
            Ask::Rdp(template) => self.slots = template.into_items(),
            Ask::Eval(live) => self.fields = live.into_items(),
            Ask::Land(tuple) => self.values = tuple.into_items(),
        }
    }

    // Lets the standing request go, and keeps its lists.
    fn clear(&mut self)
        requires { length (lists_of (held_in fields_in self.old.request self.old.fields).items) + length self.old.spare.items ≤ capacity_of self.old.spare }
        ensures { (widest : ℕ) → IsReady widest self.old → IsCleared widest self.new }
    {
        match self.request.take() {
            None => empty_fields(&mut self.fields, &mut self.spare),
            Some(request) => {
                self.take_back(request.ask);
                empty_fields(&mut self.fields, &mut self.spare);
            }
        }
    }

    // The operation of this kind with these fields, in a process of this depth.
    fn operation(
        &mut self,
        depth: u32,
        functions: &[Function],
        kind: Kind,
        marks: &[Mark],
        calls: &[Option<u32>],
        numbers: &[i64],
    ) -> Result<Ask, Trap>
        requires cleared { IsCleared (widest_of (map plain_function functions.now)) self.old }
        requires plain { is_eval kind ≡ false → places marks.now calls.now ≡ places marks.now [] }
        requires some { 0 < length marks.now }
        requires few { length marks.now ≤ MOST_FIELDS }
        requires evaluated { may_receive kind ≡ false → IsTrue (list_all is_evaluated marks.now) }
        requires receivable { IsTrue (list_all is_receivable marks.now) }
        ensures asked { (p : PlainProgram) → p.functions ≡ map plain_function functions.now → AskedAt depth kind (fields_of p (places marks.now calls.now) numbers.now) result }
        ensures ready { IfOk result (λ ask. HasLists (widest_of (map plain_function functions.now)) (values_in ask self.new.values) (slots_in ask self.new.slots) (fields_in ask self.new.fields) self.new.spare) }
    {
        match kind {
            Kind::Out => {
                let tuple = tuple_of(&mut self.values, self.alloc, marks, numbers)?;
                Ok(Ask::Out(tuple))
            }
            Kind::In => Ok(Ask::In(template_of(&mut self.slots, self.alloc, marks, numbers)?)),
            Kind::Rd => Ok(Ask::Rd(template_of(&mut self.slots, self.alloc, marks, numbers)?)),
            Kind::Inp => Ok(Ask::Inp(template_of(&mut self.slots, self.alloc, marks, numbers)?)),
            Kind::Rdp => Ok(Ask::Rdp(template_of(&mut self.slots, self.alloc, marks, numbers)?)),
            Kind::Eval => {
                let live = live_of(
                    &mut self.fields,
                    &mut self.spare,
                    self.alloc,
                    functions,
                    marks,
                    calls,
                    numbers,
                )?;
                if depth >= MOST_DEPTH {
                    return Err(Trap::EvalDepth);
                }
                Ok(Ask::Eval(live))
            }
        }
    }

    /// Asks for the operation of a site with this signature, in a process of this depth, or traps.
    pub(crate) fn ask(
        &mut self,
        depth: u32,
        functions: &[Function],
        site: u32,
        signature: &Signature,
        calls: &[Option<u32>],
        numbers: &[i64],
    ) -> Result<(), Trap>
        requires ready { IsReady (widest_of (map plain_function functions.now)) self.old }
        requires plain { is_eval signature.now.kind ≡ false → places signature.now.fields.items calls.now ≡ places signature.now.fields.items [] }
        requires some { 0 < length signature.now.fields.items }
        requires few { length signature.now.fields.items ≤ MOST_FIELDS }
        requires evaluated { may_receive signature.now.kind ≡ false → IsTrue (list_all is_evaluated signature.now.fields.items) }
        requires receivable { IsTrue (list_all is_receivable signature.now.fields.items) }
        ensures asked { (p : PlainProgram) → p.functions ≡ map plain_function functions.now → Stands depth signature.now.kind site (fields_of p (places signature.now.fields.items calls.now) numbers.now) result self.new }
        ensures ready { OnOk result (IsReady (widest_of (map plain_function functions.now)) self.new) }
    {
        self.clear();
        let marks = signature.fields.as_slice();
        let ask = self.operation(depth, functions, signature.kind, marks, calls, numbers)?;
        self.request = Some(Request { site, ask });
        Ok(())
    }

    /// Asks for the landing of a tuple.
    pub(crate) fn land(&mut self, site: u32, values: &[Value])
        requires ready { (widest : ℕ) × IsReady widest self.old }
        requires some { 0 < length values.now }
        requires few { length values.now ≤ MOST_FIELDS }
        ensures { Lands site values.now self.new }
    {
        self.clear();
        self.values.clear();
        self.values.push_all(values);
        let fields = mem::replace(&mut self.values, Items::new(self.alloc));
        self.request = Some(Request {
            site,
            ask: Ask::Land(Tuple::new(fields)),
        });
    }
}
