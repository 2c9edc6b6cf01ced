//! Certificates.

ghost use Rattle.std.specs.Prelude.{◌≡◌, map, IfOk};
ghost use Rattle.ds_doc.specs.Values as values;

use crate::draft::DraftCert;
use crate::rules::numbers;
use crate::values::categories::{Keys, category_of};
use ds_plan::{CertSpec, CertSpecList};
use std::alloc::{AllocError, Global};

#[tactic(auto, unfolding(crate::specs::Values::certificate))]
fn cert_of(alloc: Global, keys: &Keys, cert: &DraftCert) -> Result<CertSpec, AllocError>
    ensures { IfOk result (λ c. c ≡ values.certificate keys.now cert.now) }
{
    match cert {
        DraftCert::Made {
            by,
            category,
            to,
            from,
            until,
            at,
        } => Ok(CertSpec::Made {
            by: by.value.number(),
            category: category_of(keys, category),
            to: to.value.number(),
            from: *from,
            until: *until,
            at: numbers(alloc, at)?,
        }),
        DraftCert::Given { cert, at } => Ok(CertSpec::Given {
            cert: cert.value.copy()?,
            at: numbers(alloc, at)?,
        }),
    }
}

pub(crate) fn certs_of(
    alloc: Global,
    keys: &Keys,
    certs: &[DraftCert],
) -> Result<CertSpecList, AllocError>
    ensures { IfOk result (λ l. l ≡ map (values.certificate keys.now) certs.now) }
{
    let mut list = CertSpecList::new(alloc);
    for cert in certs {
        list.push(cert_of(alloc, keys, cert)?)?;
    }
    Ok(list)
}
