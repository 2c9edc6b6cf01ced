//! The document for a number.

ghost use Rattle.std.specs.Prelude.{◌≡◌, ◌≤◌, ◌∷◌, [], IfOk};
ghost use Rattle.ds_plan.specs.Documents.{IsDocument};
ghost use Rattle.ds_gen.specs.Generated.{generated, grant, host_a, host_b, host_c, s};

use crate::hosts::{host_a, host_b, host_c};
use crate::labels::category_s;
use ds_label::Category;
use ds_plan::{CertSpec, CertSpecList, Doc, HostSpecList, PlaceList};
use std::alloc::{AllocError, Global};

/// The most events of a run.
const BUDGET: u32 = 20_000;

/// The hosts. `AllocError` where memory runs out.
fn hosts(alloc: Global, category: Category, count: u32) -> Result<HostSpecList, AllocError>
    requires { category ≡ s }
    ensures { IfOk result (λ l. l ≡ host_a count ∷ host_b count ∷ host_c ∷ []) }
{
    let mut hosts = HostSpecList::new(alloc);
    hosts.push(host_a(alloc, category, count)?)?;
    hosts.push(host_b(alloc, category, count)?)?;
    hosts.push(host_c(alloc)?)?;
    Ok(hosts)
}

/// The hosts that keep the certificate. `AllocError` where memory runs out.
fn keepers(alloc: Global) -> Result<PlaceList, AllocError>
    ensures { IfOk result (λ l. l ≡ 0 ∷ 1 ∷ []) }
{
    let mut keepers = PlaceList::new(alloc);
    keepers.push(0)?;
    keepers.push(1)?;
    Ok(keepers)
}

/// The certificate that lets the second host have the first one's category. `AllocError` where memory runs out.
fn certs(alloc: Global, category: Category) -> Result<CertSpecList, AllocError>
    requires { category ≡ s }
    ensures { IfOk result (λ l. l ≡ grant ∷ []) }
{
    let mut certs = CertSpecList::new(alloc);
    certs.push(CertSpec::Made {
        by: 0,
        category,
        to: 1,
        from: 0,
        until: 1000,
        at: keepers(alloc)?,
    })?;
    Ok(certs)
}

/// The document for a number of messages: host a sends them by turns to b's first mailbox, to b's second under its category s,
/// and to c's under s; b, which may have s, takes and prints those that come to it; c may not have s. `AllocError` where memory
/// runs out.
pub fn generate(alloc: Global, count: u32) -> Result<Doc, AllocError>
    requires { count ≤ 1000 }
    ensures value { IfOk result (λ d. d ≡ generated count) }
    ensures document { IfOk result IsDocument }
{
    let category = category_s(alloc)?;
    Ok(Doc {
        hosts: hosts(alloc, category, count)?,
        moment: 0,
        budget: BUDGET,
        certs: certs(alloc, category)?,
        links: PlaceList::new(alloc),
        events: None,
    })
}
