//! The certificates that a message carries.

ghost use Rattle.std.specs.Prelude.{◌≡◌, ◌≤◌, ◌+◌, [], length, IfOk, OnOk};
ghost use Rattle.ds_cert.specs.Reading.{read_cert};
ghost use Rattle.ds_model.specs.ExporterRules.{with_read};
ghost use Rattle.ds_flow.specs.Asked.{kept_all, shown};
ghost use Rattle.ds_flow.specs.Chains.{if_read};

use ds_cert::{Cert, CertFault};
use ds_chain::{CertList, ListFault};
use ds_msg::CertBytes;
use ds_wire::Bytes;
use std::alloc::{AllocError, Global};

/// Adds the delegation that the bytes spell, if they spell one and it isn't in the list.
fn add(alloc: Global, list: &mut CertList, bytes: &[u8]) -> Result<(), AllocError>
    requires { length list.old.items ≤ 255 }
    ensures ok { OnOk result (list.new.items ≡ kept_all list.old.items (with_read (if_read (read_cert bytes.now)) [])) }
    ensures size { OnOk result (length list.new.items ≤ length list.old.items + 1) }
{
    let cert = match Cert::decode(alloc, bytes) {
        Ok(Cert::Delegation(cert)) => cert,
        Ok(Cert::Address(_)) | Err(CertFault::Malformed(_)) => return Ok(()),
        Err(CertFault::NoMemory) => return Err(AllocError),
    };
    match list.add(cert) {
        Ok(()) => Ok(()),
        Err(ListFault::NoMemory) => Err(AllocError),
        Err(ListFault::ListFull) => unreachable!(),
    }
}

/// The delegations among the certificates that a message carries, each once.
pub(crate) fn shown_by(alloc: Global, certs: &CertBytes) -> Result<CertList, AllocError>
    ensures { IfOk result (λ list. list.items ≡ kept_all [] (shown certs.now)) }
{
    let _at_most_16 = certs.len();
    let mut list = CertList::new(alloc);
    for bytes in certs.as_slice() {
        add(alloc, &mut list, bytes.as_slice())?;
    }
    Ok(list)
}
