use crate::cells::{frame_cells, global_cells};
use crate::outer::outer;
use crate::stop::Stop;
use cl_ast::{Function, Item, Size, Unit};
use cl_listing::Listing;
use cl_state::Globals;
use indexmap::IndexMap;
use std::alloc::{AllocError, Global};
use std::marker::Model;

/// A function with its number and the cells of its frame.
#[derive(Drop)]
pub struct Callable<'a> {
    /// The function.
    pub function: &'a Function,
    /// Its number, from 0 in the order of the text.
    pub number: u32,
    /// The cells of its frame, or the greatest number of 64 bits where they are more.
    pub cells: u64,
}

/// What stays the same all over the processes of a text. Contracts see the items of the text.
#[derive(Drop)]
pub struct Program<'a> {
    unit: &'a Unit,
    functions: Vec<Callable<'a>>,
    // the place of the first function of each name
    places: IndexMap<&'a [u8], usize>,
    listing: &'a Listing<'a>,
    scope: Globals<'a>,
    cells: u64,
}

impl<'a> Model for Program<'a> {
    ghost use Rattle.std.specs.Prelude.{ℕ, ◌≡◌, List, nat_eq};
    ghost use Rattle.std.specs.Borrow.{Bor};
    ghost use Rattle.std.specs.Cmp.Lexicographic.{pointwise};
    ghost use Rattle.indexmap.specs.IndexMap.{get};
    ghost use Rattle.cl_ast.specs.declared.statement.Unit.{Unit};
    ghost use Rattle.cl_ast.specs.contracts.statement.Unit as tree;
    ghost use Rattle.cl_listing.specs.Listing.{in_items};
    ghost use Rattle.cl_listing.specs.Listed.{listing_of};
    ghost use Rattle.cl_meaning.specs.Outer.{outer, functions_of};
    ghost use Rattle.cl_meaning.specs.Process.{cells_of_globals};
    ghost use Rattle.cl_walk.specs.Numbers.{capped, place_named};
    ghost use Rattle.cl_walk.specs.Callables.{AreCallables};

    ghost Value = { Unit };

    ghost coded = { tree.the_row.coded };

    ghost view = { λ p. p.unit.now };

    ghost invariant = { λ p. (p.listing.now ≡ listing_of (in_items p.unit.now.items)) × (p.scope ≡ outer p.unit.now.items) × (p.cells ≡ capped (cells_of_globals p.unit.now.items)) × AreCallables (outer p.unit.now.items) 0 (functions_of p.unit.now.items) p.functions.items × ((name : Bor (List ℕ)) → get (λ a b. pointwise nat_eq a.now b.now) p.places name ≡ place_named name.now (functions_of p.unit.now.items)) };
}

ghost use Rattle.std.specs.Prelude.{ℕ, ◌≡◌, List, [], ◌∷◌, ◌++◌, nat_eq, OnOk};
ghost use Rattle.std.specs.Borrow.{Bor};
ghost use Rattle.std.specs.Cmp.Lexicographic.{pointwise};
ghost use Rattle.indexmap.specs.IndexMap.{get};
ghost use Rattle.cl_state.specs.Views.{first_or};
ghost use Rattle.cl_meaning.specs.Outer.{functions_of};
ghost use Rattle.cl_walk.specs.Callables.{AreListed};

// The place that is kept of a name.
fn place_of(places: &IndexMap<&[u8], usize>, name: &[u8]) -> Option<usize>
    ensures { result ≡ get (λ a b. pointwise nat_eq a.now b.now) places.now name.entry }
{
    places.get(name).copied()
}

// Keeps the place of a name, unless one is kept.
fn note<'a>(
    places: &mut IndexMap<&'a [u8], usize>,
    name: &'a [u8],
    place: usize,
) -> Result<(), AllocError>
    ensures { OnOk result ((q : Bor (List ℕ)) → get (λ a b. pointwise nat_eq a.now b.now) places.new q ≡ first_or name.now place q.now (get (λ a b. pointwise nat_eq a.now b.now) places.old q)) }
{
    match place_of(places, name) {
        Some(_) => Ok(()),
        None => {
            places.insert(name, place)?;
            Ok(())
        }
    }
}

// Lists one function more, behind those that are listed.
fn add_function<'a>(
    scope: &Globals<'_>,
    functions: &mut Vec<Callable<'a>>,
    places: &mut IndexMap<&'a [u8], usize>,
    function: &'a Function,
) -> Result<(), Stop>
    ensures { OnOk result ((fs : List Function) → AreListed scope.now fs functions.old.items (get (λ a b. pointwise nat_eq a.now b.now) places.old) → AreListed scope.now (fs ++ function.now ∷ []) functions.new.items (get (λ a b. pointwise nat_eq a.now b.now) places.new)) }
{
    let Ok(number) = u32::try_from(functions.len()) else {
        return Err(Stop::NoMemory);
    };
    functions.reserve(1)?;
    note(places, function.name.bytes.as_slice(), functions.len())?;
    functions.push_reserved(Callable {
        function,
        number,
        cells: frame_cells(scope, function),
    });
    Ok(())
}

fn add_item<'a>(
    scope: &Globals<'_>,
    functions: &mut Vec<Callable<'a>>,
    places: &mut IndexMap<&'a [u8], usize>,
    item: &'a Item,
) -> Result<(), Stop>
    ensures { OnOk result ((fs : List Function) → AreListed scope.now fs functions.old.items (get (λ a b. pointwise nat_eq a.now b.now) places.old) → AreListed scope.now (fs ++ functions_of (item.now ∷ [])) functions.new.items (get (λ a b. pointwise nat_eq a.now b.now) places.new)) }
{
    match item {
        Item::Function(function) => add_function(scope, functions, places, function),
        Item::Define(_) | Item::Variables(_) => Ok(()),
    }
}

// Lists the functions of a text, where none is listed.
fn add_items<'a>(
    scope: &Globals<'_>,
    functions: &mut Vec<Callable<'a>>,
    places: &mut IndexMap<&'a [u8], usize>,
    items: &'a [Item],
) -> Result<(), Stop>
    ensures { OnOk result (AreListed scope.now [] functions.old.items (get (λ a b. pointwise nat_eq a.now b.now) places.old) → AreListed scope.now (functions_of items.now) functions.new.items (get (λ a b. pointwise nat_eq a.now b.now) places.new)) }
{
    for item in items {
        add_item(scope, functions, places, item)?;
    }
    Ok(())
}

impl<'a> Program<'a> {
    ghost use Rattle.std.specs.Prelude.{ℕ, ◌≡◌, IfOk, IfSome, slice_get, option_map};
    ghost use Rattle.cl_listing.specs.Listing.{in_items};
    ghost use Rattle.cl_listing.specs.Listed.{listing_of};
    ghost use Rattle.cl_meaning.specs.Outer.{outer, functions_of, number_of, frame_cells, size_in};
    ghost use Rattle.cl_meaning.specs.Process.{fixed, cells_of_globals};
    ghost use Rattle.cl_walk.specs.Numbers.{capped, first_named};
    ghost use Rattle.cl_walk.specs.Callables.{IsNamed};

    /// Reads what a text declares, whose listing is this.
    pub fn new(alloc: Global, unit: &'a Unit, listing: &'a Listing<'a>) -> Result<Program<'a>, Stop>
        requires { listing.now ≡ listing_of (in_items unit.now.items) }
        ensures { IfOk result (λ program. program ≡ unit.now) }
    {
        let items = unit.items.as_slice();
        let scope = outer(alloc, items)?;
        let cells = global_cells(&scope, items);
        let mut functions = Vec::new(alloc);
        let mut places = IndexMap::new(alloc);
        add_items(&scope, &mut functions, &mut places, items)?;
        Ok(Program {
            unit,
            functions,
            places,
            listing,
            scope,
            cells,
        })
    }

    /// The first function of a name, in the order of the text.
    pub fn named(&self, name: &[u8]) -> Option<&Callable<'a>>
        ensures { IsNamed self.now.items name.now result }
    {
        match place_of(&self.places, name) {
            Some(place) => Some(&self.functions[place]),
            None => None,
        }
    }

    /// The function of a number.
    pub fn function(&self, number: u32) -> Option<&'a Function>
        ensures { option_map (λ f. f.now) result ≡ slice_get (functions_of self.now.items) number }
    {
        match self.functions.get(number as usize) {
            Some(callable) => Some(callable.function),
            None => None,
        }
    }

    /// The length of an array.
    pub fn length_of(&self, size: &Size) -> u64
        ensures { result ≡ size_in (outer self.now.items) size.now }
    {
        crate::outer::length_of(&self.scope, size)
    }

    /// The cells of the globals, or the greatest number of 64 bits where they are more.
    pub fn cells(&self) -> u64
        ensures { result ≡ capped (cells_of_globals self.now.items) }
    {
        self.cells
    }

    /// The number of the operation at a place; none where it isn't one of 32 bits.
    pub fn site_at(&self, place: u32) -> Option<u32>
        ensures { IfSome result (λ n. (depth : ℕ) → n ≡ (fixed self.now.items depth).site place) }
    {
        let number = match self.listing.site_at(place) {
            Some(number) => number,
            None => self.listing.sites().len(),
        };
        u32::try_from(number).ok()
    }

    /// The number of a text; none where it isn't one of 32 bits.
    pub fn text_number(&self, bytes: &[u8]) -> Option<u32>
        ensures { IfSome result (λ n. (depth : ℕ) → n ≡ (fixed self.now.items depth).text bytes.now) }
    {
        let number = match self.listing.text_number(bytes) {
            Some(number) => number,
            None => self.listing.texts().len(),
        };
        u32::try_from(number).ok()
    }
}
