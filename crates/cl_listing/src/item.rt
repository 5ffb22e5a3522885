ghost use Rattle.std.specs.Prelude.{◌≡◌, OnOk};
ghost use Rattle.cl_listing.specs.Listing.{in_items};
ghost use Rattle.cl_listing.specs.Listed.{listed_all};
ghost use Rattle.cl_listing.specs.Walks.{in_item};

use crate::Listing;
use crate::statement::{block, declarators};
use cl_ast::Item;
use std::alloc::AllocError;

/// Lists what stands in a part of a source outside all others.
fn item<'a>(part: &'a Item, listing: &mut Listing<'a>) -> Result<(), AllocError>
    ensures { OnOk result (listing.new ≡ listed_all (in_item part.now) listing.old) }
{
    match part {
        Item::Define(_) => Ok(()),
        Item::Variables(part) => declarators(part.declarators.as_slice(), listing),
        Item::Function(part) => block(&part.body, listing),
    }
}

/// Lists what stands in such parts, one after the other.
pub fn items<'a>(parts: &'a [Item], listing: &mut Listing<'a>) -> Result<(), AllocError>
    ensures { OnOk result (listing.new ≡ listed_all (in_items parts.now) listing.old) }
{
    for part in parts {
        item(part, listing)?;
    }
    Ok(())
}
