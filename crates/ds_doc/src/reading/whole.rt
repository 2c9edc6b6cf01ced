//! The document.

ghost use Rattle.std.specs.Prelude.{◌≡◌, map, flat_map, take, option_map, codes, IfOk};
ghost use Rattle.ds_doc.specs.Draft as drafts;
ghost use Rattle.ds_doc.specs.Places.{member, member_text};
ghost use Rattle.ds_doc.specs.Places as places;
ghost use Rattle.ds_doc.specs.Seen.{seen};

use crate::draft::{Draft, DraftEvent, DraftHost};
use crate::reading::basics::{Names, first, hosts_named, long_at, nearest_at};
use crate::reading::certs::certs_of;
use crate::reading::events::events_of;
use crate::reading::hosts::host_of;
use crate::spot::Spot;
use ds_plan::PartList;
use ds_wire::Bytes;
use std::alloc::{AllocError, Global};

/// Most hosts.
const HOST_MOST: usize = 16;

/// Most certificates.
const CERT_MOST: usize = 256;

/// Most links.
const LINK_MOST: usize = 16;

/// Most events.
const EVENT_MOST: usize = 20_000;

/// What an object says, with its places.
#[tactic(auto, unfolding(crate::specs::Draft::draft_of, crate::specs::Draft::draft_by, crate::specs::Draft::host_names))]
pub(crate) fn read_draft(alloc: Global, root: &Spot) -> Result<Draft, AllocError>
    ensures { IfOk result (λ d. d ≡ drafts.draft_of (seen root.now)) }
{
    let hosts = root.member_items(alloc, "hosts")?;
    let hosts = first(hosts.as_slice(), HOST_MOST);
    let certs = root.member_items(alloc, "certs")?;
    let links = root.member_items(alloc, "links")?;
    let names = names_of(alloc, hosts)?;
    Ok(Draft {
        hosts: hosts_of(alloc, &names, hosts)?,
        moment: long_at(root, "moment", 0),
        budget: nearest_at(root, "budget", 1_000, 1, 20_000),
        certs: certs_of(alloc, &names, first(certs.as_slice(), CERT_MOST))?,
        links: hosts_named(alloc, &names, first(links.as_slice(), LINK_MOST))?,
        events: events_at(alloc, &names, root)?,
    })
}

/// The names of hosts.
fn names_of(alloc: Global, hosts: &[Spot]) -> Result<Names, AllocError>
    ensures { IfOk result (λ n. n ≡ map (member_text (codes "name")) (map seen hosts.now)) }
{
    let mut names = Names::new(alloc);
    for host in hosts {
        names.push(Bytes::from_slice(alloc, host.member_text("name"))?)?;
    }
    Ok(names)
}

fn hosts_of(alloc: Global, names: &Names, spots: &[Spot]) -> Result<PartList<DraftHost>, AllocError>
    ensures { IfOk result (λ l. l ≡ map (drafts.host_of names.now) (map seen spots.now)) }
{
    let mut list = PartList::new(alloc);
    for spot in spots {
        list.push(host_of(alloc, names, spot)?)?;
    }
    Ok(list)
}

fn events_at(
    alloc: Global,
    names: &Names,
    root: &Spot,
) -> Result<Option<PartList<DraftEvent>>, AllocError>
    ensures { IfOk result (λ e. e ≡ option_map (λ t. flat_map (drafts.event_of names.now) (take 20000 (places.items t))) (member (codes "events") (seen root.now))) }
{
    match root.member("events") {
        Some(events) => {
            let spots = events.items(alloc)?;
            Ok(Some(events_of(alloc, names, first(spots.as_slice(), EVENT_MOST))?))
        }
        None => Ok(None),
    }
}
