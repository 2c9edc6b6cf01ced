//! The two-run law: for each secrecy category, two runs that agree on what comes from outside and on what is released
//! are the same to all that isn't high.
#![tactic(auto)]

ghost use Rattle.ds_noninterference.specs.Alike.{AlikeWorlds};
ghost use Rattle.ds_noninterference.specs.Law.{AtEnd, SameProcesses, SameHosts, SameDesks, SameArrivals, SameSections};
ghost use Rattle.ds_noninterference.specs.Example.{PremisesHold, IsMarked, IsOwnerHigh, IsPrinted};
ghost use Rattle.ds_noninterference.specs.Owners.{OnlyOwnersAct, OnlyOwnersRelease};
ghost use Rattle.ds_noninterference.specs.Network.{IsNetMet, IsNetMarked, IsNetSeen};

/// Two runs, from worlds that are equal but for what is high, whose marks agree, of trusted hosts that obey, with nothing
/// forged: at their ends the worlds are equal but for what is high, each process that isn't high and each host that isn't
/// trusted has equal views, so has each host's public state and each connection that isn't high, and the sections of a
/// text that aren't high are equal, however things are printed.
pub fn two_runs()
    ensures alike { AtEnd AlikeWorlds }
    ensures processes { AtEnd SameProcesses }
    ensures hosts { AtEnd SameHosts }
    ensures desks { AtEnd SameDesks }
    ensures arrivals { AtEnd SameArrivals }
    ensures outside { AtEnd SameSections }
{}

/// Two runs of different lengths that meet all premises, computed: a process that owns the secret of its label has a word
/// of its own, another one in each run, and releases one word that is the same in both.
pub fn an_example()
    ensures met { PremisesHold }
    ensures marked { IsMarked }
    // An owner of the secret is high, whatever its label.
    ensures owner { IsOwnerHigh }
    ensures printed { IsPrinted }
{}

/// At each event of each run from setup, a process that releases owns the category; and in any world one whose step changes
/// its host's desk owns each secrecy category of its label.
pub fn only_owners_release()
    ensures releases { OnlyOwnersRelease }
    ensures acts { OnlyOwnersAct }
{}

/// Two runs over a network with an outsider, computed.
pub fn a_network()
    ensures met { IsNetMet }
    ensures marked { IsNetMarked }
    ensures seen { IsNetSeen }
{}
