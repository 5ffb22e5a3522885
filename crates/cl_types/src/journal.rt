ghost use Rattle.std.specs.Prelude.{◌≡◌, ◌<◌, ◌^◌};
ghost use Rattle.cl_types.specs.Notes as notes;
ghost use Rattle.cl_types.specs.Journals.{noted, earlier, earlier_at, counted, new_journal};

use crate::{Fault, TypeKind};
use cl_ground::{MOST_FUNCTIONS, MOST_SITES};

/// What a walk has found so far.
#[derive(Clone, Copy, Debug, PartialEq, Eq)]
pub struct Journal {
    /// The first of the faults, by place and kind.
    pub least: Option<Fault>,
    /// How many operations stood in the text, counted up to one more than may stand.
    pub sites: u32,
    /// How many functions did, counted up to one more than may stand.
    pub functions: u32,
}

/// One more, up to one behind the limit.
fn counted(limit: u32, count: u32) -> u32
    requires { limit < 2 ^ 31 }
    ensures { result ≡ counted limit count }
{
    if limit < count { count } else { count + 1 }
}

impl Journal {
    /// Nothing found.
    pub fn new() -> Journal
        ensures { result ≡ new_journal }
    {
        Journal {
            least: None,
            sites: 0,
            functions: 0,
        }
    }

    /// Keeps a fault where it comes before that which is kept.
    fn keep(&mut self, fault: Fault)
        ensures { self.new ≡ noted (notes.Found fault) self.old }
    {
        match self.least {
            Some(least) => {
                if fault.comes_before(least) {
                    self.least = Some(fault);
                }
            }
            None => self.least = Some(fault),
        }
    }

    /// Notes a fault.
    pub fn report(&mut self, kind: TypeKind, place: u32)
        ensures { self.new ≡ noted (notes.found kind place) self.old }
    {
        self.keep(Fault { place, kind });
    }

    /// Notes an operation, by the place of its word.
    pub fn site(&mut self, place: u32)
        ensures { self.new ≡ noted (notes.Site place) self.old }
    {
        if self.sites == MOST_SITES {
            self.report(TypeKind::TooManySites, place);
        }
        self.sites = counted(MOST_SITES, self.sites);
    }

    /// Notes a function, by the place of its name.
    pub fn function(&mut self, place: u32)
        ensures { self.new ≡ noted (notes.Function place) self.old }
    {
        if self.functions == MOST_FUNCTIONS {
            self.report(TypeKind::TooManyFunctions, place);
        }
        self.functions = counted(MOST_FUNCTIONS, self.functions);
    }
}
