//! What the rules ask of all hosts.

ghost use Rattle.std.specs.Prelude.{◌≡◌, ◌++◌, map, flat_map, IfOk, OnOk};
ghost use Rattle.ds_doc.specs.Names.{or_empty};
ghost use Rattle.ds_doc.specs.Rules as of_rules;

use crate::draft::{Draft, DraftCert, DraftHost, DraftLane, items_of};
use ds_plan::{Maker, PartList, PlaceList, Secret};
use ds_wire::Bytes;
use std::alloc::{AllocError, Global};

/// What the rules ask of all hosts.
#[derive(Drop)]
pub(crate) struct Facts {
    /// What each host may have made.
    pub(crate) makers: PartList<Maker>,
    /// How many lanes each host has.
    pub(crate) lanes: PartList<usize>,
    /// The receivers of each host's lanes.
    pub(crate) receivers: PartList<PlaceList>,
    /// The hosts that sign the certificates that setup makes.
    pub(crate) signers: PlaceList,
    /// How many links there are.
    pub(crate) links: usize,
}

/// An address certificate in hex: its place, its bytes, and the hosts to which it is given.
#[derive(Drop)]
pub(crate) struct GivenAt {
    pub(crate) at: u32,
    pub(crate) bytes: Bytes,
    pub(crate) keepers: PlaceList,
}

#[tactic(auto, unfolding(crate::specs::Rules::facts_of))]
pub(crate) fn facts_of(alloc: Global, draft: &Draft) -> Result<Facts, AllocError>
    ensures { IfOk result (λ f. f ≡ of_rules.facts_of draft.now) }
{
    Ok(Facts {
        makers: makers_of(alloc, draft.hosts.as_slice())?,
        lanes: lanes_of(alloc, draft.hosts.as_slice())?,
        receivers: all_receivers(alloc, draft.hosts.as_slice())?,
        signers: signers_of(alloc, draft.certs.as_slice())?,
        links: draft.links.len(),
    })
}

fn makers_of(alloc: Global, hosts: &[DraftHost]) -> Result<PartList<Maker>, AllocError>
    ensures { IfOk result (λ l. l ≡ map of_rules.host_maker hosts.now) }
{
    let mut makers = PartList::new(alloc);
    for host in hosts {
        makers.push(maker_of(alloc, host)?)?;
    }
    Ok(makers)
}

fn maker_of(alloc: Global, host: &DraftHost) -> Result<Maker, AllocError>
    ensures { IfOk result (λ m. m ≡ of_rules.host_maker host.now) }
{
    match host.secret.value {
        Secret::Seed(_) => Ok(Maker::Processes(made_of(alloc, host)?)),
        Secret::Key(_) => Ok(Maker::Anything),
    }
}

fn made_of(alloc: Global, host: &DraftHost) -> Result<PlaceList, AllocError>
    ensures { IfOk result (λ l. l ≡ map (λ p. p.made) (or_empty host.now.procs)) }
{
    let mut made = PlaceList::new(alloc);
    for process in items_of(&host.procs) {
        made.push(process.made)?;
    }
    Ok(made)
}

fn lanes_of(alloc: Global, hosts: &[DraftHost]) -> Result<PartList<usize>, AllocError>
    ensures { IfOk result (λ l. l ≡ map of_rules.lane_count hosts.now) }
{
    let mut lanes = PartList::new(alloc);
    for host in hosts {
        lanes.push(items_of(&host.lanes).len())?;
    }
    Ok(lanes)
}

fn all_receivers(alloc: Global, hosts: &[DraftHost]) -> Result<PartList<PlaceList>, AllocError>
    ensures { IfOk result (λ l. l ≡ map of_rules.host_receivers hosts.now) }
{
    let mut receivers = PartList::new(alloc);
    for host in hosts {
        receivers.push(receivers_of(alloc, items_of(&host.lanes))?)?;
    }
    Ok(receivers)
}

fn receivers_of(alloc: Global, lanes: &[DraftLane]) -> Result<PlaceList, AllocError>
    ensures { IfOk result (λ l. l ≡ map of_rules.receiver lanes.now) }
{
    let mut receivers = PlaceList::new(alloc);
    for lane in lanes {
        receivers.push(lane.to.value.number())?;
    }
    Ok(receivers)
}

fn signers_of(alloc: Global, certs: &[DraftCert]) -> Result<PlaceList, AllocError>
    ensures { IfOk result (λ l. l ≡ flat_map of_rules.signer_of certs.now) }
{
    let mut signers = PlaceList::new(alloc);
    for cert in certs {
        push_signer(&mut signers, cert)?;
    }
    Ok(signers)
}

fn push_signer(signers: &mut PlaceList, cert: &DraftCert) -> Result<(), AllocError>
    ensures { OnOk result (signers.new ≡ signers.old ++ of_rules.signer_of cert.now) }
{
    if let DraftCert::Made { by, .. } = cert {
        signers.push(by.value.number())?;
    }
    Ok(())
}
