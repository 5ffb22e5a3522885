use crate::item::items;
use cl_ast::Unit;
use indexmap::{IndexMap, IndexSet};
use std::alloc::{AllocError, Global};
use std::marker::Model;

/// What stands in a tree that is numbered: its operations and the string literals of its fields.
///
/// Contracts see the places of the operations and the distinct texts, each in the order of the text. It borrows
/// the texts from the tree.
#[derive(Drop)]
pub struct Listing<'a> {
    sites: Vec<u32>,
    numbers: IndexMap<u32, usize>,
    texts: IndexSet<&'a [u8]>,
}

impl<'a> Model for Listing<'a> {
    ghost use Rattle.std.specs.Prelude.{ℕ, ◌≡◌, map, nat_eq};
    ghost use Rattle.indexmap.specs.IndexMap.{get};
    ghost use Rattle.cl_listing.specs.Listed.{Listed};
    ghost use Rattle.cl_listing.specs.Tables.{bytes_of, number_of};

    ghost Value = { Listed };

    ghost view = { λ l. record { sites = l.sites.items; texts = map bytes_of l.texts.keys } };

    ghost invariant = { λ l. (place : ℕ) → get nat_eq l.numbers place ≡ number_of place l.sites.items };
}

ghost use Rattle.std.specs.Prelude.{ℕ, ◌≡◌, cond, Some, nat_eq, unwrap_or, OnOk, OnErr};
ghost use Rattle.indexmap.specs.IndexMap.{get};

/// Gives the place the number, unless it has one.
fn keep_first(
    numbers: &mut IndexMap<u32, usize>,
    place: u32,
    number: usize,
) -> Result<(), AllocError>
    ensures kept { OnOk result ((q : ℕ) → get nat_eq numbers.new q ≡ cond (nat_eq place q) (Some (unwrap_or (get nat_eq numbers.old place) number)) (get nat_eq numbers.old q)) }
    ensures refused { OnErr result ((q : ℕ) → get nat_eq numbers.new q ≡ get nat_eq numbers.old q) }
{
    numbers.entry(place)?.or_insert(number);
    Ok(())
}

impl<'a> Listing<'a> {
    ghost use Rattle.std.specs.Prelude.{◌≡◌, map, length, is_some, unwrap_or, OnOk, IfOk};
    ghost use Rattle.cl_listing.specs.Listing.{Entries, in_items, site_at, is_among, text_number};
    ghost use Rattle.cl_listing.specs.Listed.{nothing_listed, with_site, with_text, sites_in, has_site, listing_of};
    ghost use Rattle.cl_listing.specs.Tables.{bytes_of};

    /// Lists a tree. `AllocError` comes where the allocator refused memory.
    pub fn new(alloc: Global, unit: &'a Unit) -> Result<Listing<'a>, AllocError>
        ensures { IfOk result (λ listing. listing ≡ listing_of (in_items unit.now.items)) }
    {
        let mut listing = Listing::empty(alloc);
        items(unit.items.as_slice(), &mut listing)?;
        Ok(listing)
    }

    /// Nothing is listed.
    fn empty(alloc: Global) -> Listing<'a>
        ensures { result ≡ nothing_listed }
    {
        Listing {
            sites: Vec::new(alloc),
            numbers: IndexMap::new(alloc),
            texts: IndexSet::new(alloc),
        }
    }

    /// Puts an operation behind all others, by the byte offset of its word.
    pub(crate) fn add_site(&mut self, place: u32) -> Result<(), AllocError>
        ensures { OnOk result (self.new ≡ with_site place self.old) }
    {
        self.sites.reserve(1)?;
        keep_first(&mut self.numbers, place, self.sites.len())?;
        self.sites.push_reserved(place);
        Ok(())
    }

    /// Puts a text behind all others, unless it is there.
    pub(crate) fn add_text(&mut self, bytes: &'a [u8]) -> Result<(), AllocError>
        ensures { OnOk result (self.new ≡ with_text bytes.now self.old) }
    {
        self.texts.insert(bytes)?;
        Ok(())
    }

    /// The places of all operations, by the byte offsets of their words, in the order of the text.
    pub fn sites(&self) -> &[u32]
        ensures { result.now ≡ self.now.sites }
    {
        self.sites.as_slice()
    }

    /// The number of the operation whose word stands at the byte offset, counted from 0 in the order of the
    /// text; `None` where there is none. It hashes the place once and takes no memory.
    pub fn site_at(&self, place: u32) -> Option<usize>
        ensures there { (entries : Entries) → self.now.sites ≡ sites_in entries → is_some result ≡ has_site place entries }
        ensures number { (entries : Entries) → self.now.sites ≡ sites_in entries → unwrap_or result (length self.now.sites) ≡ site_at place entries }
    {
        self.numbers.get(&place).copied()
    }

    /// The distinct texts, in the order of their first uses.
    pub fn texts(&self) -> &[&'a [u8]]
        ensures { map bytes_of result.now ≡ self.now.texts }
    {
        self.texts.as_slice()
    }

    /// The number of a text among the distinct ones, counted from 0; `None` where it isn't there. It hashes the
    /// text once and takes no memory.
    pub fn text_number(&self, bytes: &[u8]) -> Option<usize>
        ensures there { is_some result ≡ is_among bytes.now self.now.texts }
        ensures number { unwrap_or result (length self.now.texts) ≡ text_number bytes.now self.now.texts }
    {
        self.texts.get_index_of(bytes)
    }
}
