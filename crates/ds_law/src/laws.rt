//! What holds of two documents that differ in what is high alone. The functions do nothing: their contracts are the
//! laws.

ghost use Rattle.ds_law.specs.TwoDocuments.{AgreeingSetups, AtBothEnds, SameHosts, SameProcesses, SameSections};

/// Documents that agree have one plan, and their worlds at the start are equal but for what is high.
pub fn agreeing_setups()
    ensures { AgreeingSetups }
{}

/// Two runs of documents that agree, of trusted hosts that obey, with nothing forged, and with equal observations once
/// high ones are left out: at their ends each process that isn't high and each host that isn't trusted has equal views,
/// and all sections of the text that aren't high are equal.
pub fn two_documents()
    ensures processes { AtBothEnds SameProcesses }
    ensures hosts { AtBothEnds SameHosts }
    ensures outside { AtBothEnds SameSections }
{}
