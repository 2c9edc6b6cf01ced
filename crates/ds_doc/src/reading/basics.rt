//! Numbers, and hosts and categories by their names.

ghost use Rattle.std.specs.Prelude.{◌≡◌, ◌≤◌, map, take, IfOk, OnOk};
ghost use Rattle.ds_doc.specs.Draft as drafts;
ghost use Rattle.ds_doc.specs.Places as places;
ghost use Rattle.ds_doc.specs.Names.{or_empty};
ghost use Rattle.ds_plan.specs.Documents.{stood};
ghost use Rattle.ds_doc.specs.Counting.{AreCounted};
ghost use Rattle.ds_doc.specs.Seen.{seen};

use crate::draft::{Categories, CategoryName, HostName, HostNames, Placed};
use crate::spot::Spot;
use crate::text::{category_of, is_word, kind_of, register_of};
use ds_label::Kind;
use ds_plan::PartList;
use ds_wire::Bytes;
use std::alloc::{AllocError, Global};
use std::collections::BTreeSet;

/// The names of hosts, in order.
pub(crate) type Names = PartList<Bytes>;

/// Most categories of a label.
const LABEL_MOST: usize = 64;

/// A number, as far as it has 32 bits.
pub(crate) fn word(spot: &Spot) -> u32
    ensures { result ≡ drafts.word (seen spot.now) }
{
    spot.number().min(u64::from(u32::MAX)) as u32
}

/// A number that is a member, as far as it has 32 bits.
pub(crate) fn placed_word(spot: &Spot) -> Placed<u32>
    ensures { result ≡ drafts.placed_word (seen spot.now) }
{
    Placed {
        at: spot.at,
        value: word(spot),
    }
}

/// The number that a member is, with its place.
pub(crate) fn word_at(spot: &Spot, name: &str) -> Placed<u32>
    ensures { result ≡ drafts.at_member name.now 0 drafts.word (seen spot.now) }
{
    match spot.member(name) {
        Some(member) => placed_word(&member),
        None => Placed {
            at: spot.at,
            value: 0,
        },
    }
}

/// The number from low to high that is nearest to the one that a member is.
pub(crate) fn nearest_at(spot: &Spot, name: &str, default: u32, low: u32, high: u32) -> u32
    requires { low ≤ high }
    ensures { result ≡ drafts.nearest_at name.now default low high (seen spot.now) }
{
    spot.member_number(name, u64::from(default))
        .min(u64::from(high))
        .max(u64::from(low)) as u32
}

/// A number of 64 bits.
pub(crate) fn long(spot: &Spot) -> u64
    ensures { result ≡ drafts.long (seen spot.now) }
{
    spot.number().min(u64::MAX)
}

/// The number of 64 bits that a member is.
pub(crate) fn long_at(spot: &Spot, name: &str, default: u64) -> u64
    ensures { result ≡ drafts.long_at name.now default (seen spot.now) }
{
    spot.member_number(name, default).min(u64::MAX)
}

/// The number of a register.
pub(crate) fn register(spot: &Spot) -> u8
    ensures { result ≡ drafts.register (seen spot.now) }
{
    register_of(spot.text()).unwrap_or(0).min(7)
}

/// What a category of this letter protects.
pub(crate) fn kind(spot: &Spot) -> Kind
    ensures { result ≡ drafts.kind (seen spot.now) }
{
    kind_of(spot.text()).unwrap_or(Kind::Secrecy)
}

/// The first items.
pub(crate) fn first<'s, 'v>(items: &'s [Spot<'v>], most: usize) -> &'s [Spot<'v>]
    ensures { map seen result.now ≡ take most (map seen items.now) }
{
    if items.len() <= most {
        items
    } else {
        &items[..most]
    }
}

/// The first host of that name.
#[tactic(auto, unfolding(crate::specs::Draft::host_named))]
pub(crate) fn host_named(alloc: Global, names: &Names, name: &[u8]) -> Result<HostName, AllocError>
    ensures { IfOk result (λ h. h ≡ drafts.host_named names.now name.now) }
{
    let mut place = 0u32;
    for known in names.as_slice() {
        if known.as_slice() == name {
            return Ok(HostName::Known(place));
        }
        place = place.saturating_add(1);
    }
    Ok(HostName::Unknown(Bytes::from_slice(alloc, name)?))
}

/// The host that a text names.
pub(crate) fn placed_host(
    alloc: Global,
    names: &Names,
    spot: &Spot,
) -> Result<Placed<HostName>, AllocError>
    ensures { IfOk result (λ h. h ≡ drafts.placed_host names.now (seen spot.now)) }
{
    Ok(Placed {
        at: spot.at,
        value: host_named(alloc, names, spot.text())?,
    })
}

/// The host that the member of this name names.
pub(crate) fn host_at(
    alloc: Global,
    names: &Names,
    spot: &Spot,
    name: &str,
) -> Result<Placed<HostName>, AllocError>
    ensures { IfOk result (λ h. h ≡ drafts.host_at names.now name.now (seen spot.now)) }
{
    match spot.member(name) {
        Some(member) => placed_host(alloc, names, &member),
        None => Ok(Placed {
            at: spot.at,
            value: HostName::Unknown(Bytes::new(alloc)),
        }),
    }
}

/// The hosts that texts name.
pub(crate) fn hosts_named(
    alloc: Global,
    names: &Names,
    spots: &[Spot],
) -> Result<HostNames, AllocError>
    ensures { IfOk result (λ h. h ≡ map (drafts.placed_host names.now) (map seen spots.now)) }
{
    let mut hosts = HostNames::new(alloc);
    for spot in spots {
        hosts.push(placed_host(alloc, names, spot)?)?;
    }
    Ok(hosts)
}

/// The hosts that the items of the list name which a member is.
pub(crate) fn hosts_at(
    alloc: Global,
    names: &Names,
    spot: &Spot,
    name: &str,
) -> Result<HostNames, AllocError>
    ensures { IfOk result (λ h. h ≡ drafts.hosts_at names.now name.now (seen spot.now)) }
{
    let spots = spot.member_items(alloc, name)?;
    hosts_named(alloc, names, spots.as_slice())
}

/// The category of that name.
#[tactic(auto, unfolding(crate::specs::Draft::category_named))]
pub(crate) fn category_named(
    alloc: Global,
    names: &Names,
    name: &[u8],
) -> Result<CategoryName, AllocError>
    ensures { IfOk result (λ c. c ≡ drafts.category_named names.now name.now) }
{
    match category_of(name) {
        Some(named) => Ok(CategoryName {
            host: host_named(alloc, names, named.host)?,
            process: named.process,
            number: named.number,
            kind: named.kind,
        }),
        None => Ok(no_category(alloc)),
    }
}

/// What stands for a text that names no category.
fn no_category(alloc: Global) -> CategoryName
    ensures { result ≡ drafts.no_category }
{
    CategoryName {
        host: HostName::Unknown(Bytes::new(alloc)),
        process: 0,
        number: 0,
        kind: Kind::Secrecy,
    }
}

/// The category that a text names.
pub(crate) fn placed_category(
    alloc: Global,
    names: &Names,
    spot: &Spot,
) -> Result<Placed<CategoryName>, AllocError>
    ensures { IfOk result (λ c. c ≡ drafts.placed_category names.now (seen spot.now)) }
{
    Ok(Placed {
        at: spot.at,
        value: category_named(alloc, names, spot.text())?,
    })
}

/// The category that the member of this name names.
pub(crate) fn category_at(
    alloc: Global,
    names: &Names,
    spot: &Spot,
    name: &str,
) -> Result<Placed<CategoryName>, AllocError>
    ensures { IfOk result (λ c. c ≡ drafts.category_at names.now name.now (seen spot.now)) }
{
    match spot.member(name) {
        Some(member) => placed_category(alloc, names, &member),
        None => Ok(Placed {
            at: spot.at,
            value: no_category(alloc),
        }),
    }
}

/// Whether one of the categories before is the same.
pub(crate) fn has_category(before: &[Placed<CategoryName>], category: &Placed<CategoryName>) -> bool
    ensures { result ≡ stood drafts.same_value before.now category.now }
{
    before.iter().any(|other| other.value.same(&category.value))
}

/// Appends a category, unless it is there or the set is full.
fn add_category(
    set: &mut Categories,
    most: usize,
    category: Placed<CategoryName>,
) -> Result<(), AllocError>
    ensures { OnOk result (set.new ≡ drafts.with_one most set.old category) }
{
    if has_category(set.as_slice(), &category) || most <= set.len() {
        return Ok(());
    }
    set.push(category)
}

/// The set of the categories that texts name, each compared with those before it.
#[tactic(auto, unfolding(crate::specs::Draft::set_of))]
fn set_of_few(
    alloc: Global,
    names: &Names,
    most: usize,
    spots: &[Spot],
) -> Result<Categories, AllocError>
    ensures { IfOk result (λ c. c ≡ drafts.set_of most names.now (map seen spots.now)) }
{
    let mut set = Categories::new(alloc);
    for spot in spots {
        add_category(&mut set, most, placed_category(alloc, names, spot)?)?;
    }
    Ok(set)
}

/// Appends the category that a text names, unless the text came before, or the category is there, or the set is full.
fn add_text<'v>(
    alloc: Global,
    names: &Names,
    set: &mut Categories,
    known: &mut BTreeSet<&'v [u8]>,
    most: usize,
    spot: &Spot<'v>,
) -> Result<(), AllocError>
    requires { AreCounted most names.now set.old (map (λ t. t.now) known.old.keys) }
    ensures set { OnOk result (set.new ≡ drafts.with_one most set.old (drafts.placed_category names.now (seen spot.now))) }
    ensures known { OnOk result (AreCounted most names.now set.new (map (λ t. t.now) known.new.keys)) }
{
    if known.insert(spot.text())? {
        add_category(set, most, placed_category(alloc, names, spot)?)?;
    }
    Ok(())
}

/// The set of the categories that texts name, each text compared once, however often it comes.
#[tactic(auto, unfolding(crate::specs::Draft::set_of))]
fn set_of_many(
    alloc: Global,
    names: &Names,
    most: usize,
    spots: &[Spot],
) -> Result<Categories, AllocError>
    ensures { IfOk result (λ c. c ≡ drafts.set_of most names.now (map seen spots.now)) }
{
    let mut set = Categories::new(alloc);
    let mut known: BTreeSet<&[u8]> = BTreeSet::new(alloc);
    for spot in spots {
        add_text(alloc, names, &mut set, &mut known, most, spot)?;
    }
    Ok(set)
}

/// The set of the categories that texts name.
pub(crate) fn set_of(
    alloc: Global,
    names: &Names,
    most: usize,
    spots: &[Spot],
) -> Result<Categories, AllocError>
    ensures { IfOk result (λ c. c ≡ drafts.set_of most names.now (map seen spots.now)) }
{
    if spots.len() <= most {
        set_of_few(alloc, names, most, spots)
    } else {
        set_of_many(alloc, names, most, spots)
    }
}

/// The label that a list of categories is.
pub(crate) fn label_of(alloc: Global, names: &Names, spot: &Spot) -> Result<Categories, AllocError>
    ensures { IfOk result (λ c. c ≡ drafts.label_of names.now (places.items (seen spot.now))) }
{
    let spots = spot.items(alloc)?;
    set_of(alloc, names, LABEL_MOST, spots.as_slice())
}

/// The label that a member is.
pub(crate) fn label_at(
    alloc: Global,
    names: &Names,
    spot: &Spot,
    name: &str,
) -> Result<Categories, AllocError>
    ensures { IfOk result (λ c. c ≡ drafts.label_at names.now name.now (seen spot.now)) }
{
    let spots = spot.member_items(alloc, name)?;
    set_of(alloc, names, LABEL_MOST, spots.as_slice())
}
