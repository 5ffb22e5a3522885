ghost use Rattle.cl_ground.specs.declared.limits.TheConstants.{MOST_FIELDS, MOST_SITES};
ghost use Rattle.std.specs.Prelude.{◌≡◌, ◌<◌, ◌≤◌, length, map, All, IfOk};
ghost use Rattle.cl_ground.specs.Room.{Room};
ghost use Rattle.cl_sig.specs.Views.{plain_signature};
ghost use Rattle.cl_listing.specs.Listing.{in_items};
ghost use Rattle.cl_listing.specs.Listed.{sites_in};
ghost use Rattle.cl_types.specs.Findings.{seen_site, seen};
ghost use Rattle.cl_sites.specs.Sites.{kind_of, signature_of, signatures_of};

use crate::mark::add_marks;
use cl_ast::Verb;
use cl_ground::{Items, NoMemory};
use cl_listing::Listing;
use cl_sig::{Kind, Signature};
use cl_types::{Site, Typed};
use std::alloc::Global;

/// Which operation it is.
fn kind_of(verb: Verb) -> Kind
    ensures { result ≡ kind_of verb }
{
    match verb {
        Verb::Out => Kind::Out,
        Verb::In => Kind::In,
        Verb::Rd => Kind::Rd,
        Verb::Inp => Kind::Inp,
        Verb::Rdp => Kind::Rdp,
        Verb::Eval => Kind::Eval,
    }
}

/// The signature of an operation. `NoMemory` comes too where it has no fields, which no source gives.
fn signature(alloc: Global, site: &Site<'_>, listing: &Listing<'_>) -> Result<Signature, NoMemory>
    ensures told { IfOk result (λ s. plain_signature s ≡ signature_of listing.now.texts (seen_site site.now)) }
    ensures filled { IfOk result (λ s. 0 < length s.fields.items) }
{
    let operation = site.operation;
    let mut fields = Items::new(alloc);
    add_marks(
        operation.fields.as_slice(),
        site.forms.as_slice(),
        listing,
        &mut fields,
    )?;
    if fields.len() == 0 {
        return Err(NoMemory);
    }
    Ok(Signature {
        kind: kind_of(operation.verb),
        fields,
        place: operation.span.start,
    })
}

/// The signatures of operations, in their order.
fn signatures(
    alloc: Global,
    sites: &[Site<'_>],
    listing: &Listing<'_>,
) -> Result<Items<Signature>, NoMemory>
    ensures told { IfOk result (λ all. map plain_signature all.items ≡ map (signature_of listing.now.texts) (seen sites.now)) }
    ensures filled { IfOk result (λ all. All (λ s. 0 < length s.fields.items) all.items) }
{
    let mut all = Items::new(alloc);
    for site in sites {
        let told = signature(alloc, site, listing)?;
        all.reserve(1)?;
        all.push(told);
    }
    Ok(all)
}

/// The signatures of the tuple operations of a tree, in the order of its text; an operation in a field of
/// another stands behind it. The place of each is the byte offset of its word.
///
/// A string is Constant, by its number among the distinct ones in the order of their first uses. A literal
/// and the name of a constant are Constant behind any number of minuses, with their value at each act: a
/// character has that of an `int`. What is written with `?` is Formal, all else Actual of its type, a call
/// that is a whole field of an `eval` too. The least number of a type behind a minus, which no source spells,
/// has no value at any act: it is Actual.
///
/// `NoMemory` comes where the allocator refused memory, where an operation has no fields, and where there
/// are 2^32 distinct texts. A tree that the parser gives from a source has neither of these.
pub fn sites(alloc: Global, typed: &Typed) -> Result<Items<Signature>, NoMemory>
    ensures sites { IfOk result (λ sites. map plain_signature sites.items ≡ signatures_of typed.now.items) }
    ensures places { IfOk result (λ sites. map (λ s. s.place) sites.items ≡ sites_in (in_items typed.now.items)) }
    ensures few { IfOk result (λ sites. length sites.items ≤ MOST_SITES) }
    ensures filled { IfOk result (λ sites. All (λ s. 0 < length s.fields.items) sites.items) }
    ensures narrow { IfOk result (λ sites. All (λ s. length s.fields.items ≤ MOST_FIELDS) sites.items) }
{
    let Ok(found) = typed.sites(alloc) else {
        return Err(NoMemory);
    };
    let Ok(listing) = Listing::new(alloc, typed.unit()) else {
        return Err(NoMemory);
    };
    signatures(alloc, found.as_slice(), &listing)
}
