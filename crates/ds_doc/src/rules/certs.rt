//! Rules of certificates.

ghost use Rattle.std.specs.Prelude.{◌≡◌, ◌++◌, flat_map, OnOk, option_copied};
ghost use Rattle.ds_plan.specs.Categories as categories;
ghost use Rattle.ds_doc.specs.Rules as of_rules;

use crate::draft::{DraftCert, HostName, Placed};
use crate::fault::Fault;
use crate::rules::facts::Facts;
use crate::rules::named::{category_rule, host_rule, host_rules};
use crate::rules::noted::note;
use ds_plan::Maker;
use std::alloc::AllocError;

/// Whether the host runs.
pub(crate) fn runs(maker: Option<&Maker>) -> bool
    ensures { result ≡ categories.runs (option_copied maker.entry) }
{
    match maker {
        Some(Maker::Processes(_)) => true,
        _ => false,
    }
}

/// A certificate isn't by a silent host.
fn signer_rule(
    faults: &mut Vec<Fault>,
    facts: &Facts,
    by: &Placed<HostName>,
) -> Result<(), AllocError>
    ensures { OnOk result (faults.new.items ≡ faults.old.items ++ of_rules.silent_signer facts.now by.now) }
{
    note(
        faults,
        runs(facts.makers.get(by.value.number() as usize)),
        11,
        by.at,
    )
}

#[tactic(auto, unfolding(crate::specs::Rules::cert_rules))]
fn cert_rule(faults: &mut Vec<Fault>, facts: &Facts, cert: &DraftCert) -> Result<(), AllocError>
    ensures { OnOk result (faults.new.items ≡ faults.old.items ++ of_rules.cert_rules facts.now cert.now) }
{
    match cert {
        DraftCert::Made {
            by,
            category,
            to,
            at,
            ..
        } => {
            host_rule(faults, facts, by)?;
            signer_rule(faults, facts, by)?;
            category_rule(faults, facts, category)?;
            host_rule(faults, facts, to)?;
            host_rules(faults, facts, at.as_slice())
        }
        DraftCert::Given { at, .. } => host_rules(faults, facts, at.as_slice()),
    }
}

pub(crate) fn cert_rules(
    faults: &mut Vec<Fault>,
    facts: &Facts,
    certs: &[DraftCert],
) -> Result<(), AllocError>
    ensures { OnOk result (faults.new.items ≡ faults.old.items ++ flat_map (of_rules.cert_rules facts.now) certs.now) }
{
    for cert in certs {
        cert_rule(faults, facts, cert)?;
    }
    Ok(())
}
