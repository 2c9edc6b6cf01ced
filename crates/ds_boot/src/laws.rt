//! What holds of every host that begins. The functions do nothing: their contracts are the laws.

ghost use Rattle.ds_boot.specs.HostsBegin.{EachConnIsPlanned, EachHostFits, EachHostIsSetup, EachIsBefore, EachSilentHostIsSetup, EachSiteIsPlanned};

/// A running host that begins is an exporter: its parts fit together. In the plain world it is the host that setup has, at
/// the site that the plan has, and nothing is entered.
pub fn hosts_begin_so()
    ensures fit { EachHostFits }
    ensures host { EachHostIsSetup }
    ensures site { EachSiteIsPlanned }
    ensures before { EachIsBefore }
{}

/// A silent host is the one that setup has.
pub fn silent_hosts_begin_so()
    ensures { EachSilentHostIsSetup }
{}

/// The connections to a host are those of the plan that lead there, and nothing arrived on one.
pub fn connections_begin_so()
    ensures { EachConnIsPlanned }
{}
