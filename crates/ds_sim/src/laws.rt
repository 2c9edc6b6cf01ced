//! How documents begin, and what two runs print to those outside. The functions do nothing: their contracts are the laws.

ghost use Rattle.ds_sim.specs.Outside.{RunsLookTheSame};
ghost use Rattle.ds_sim.specs.Sims.{EachBeginsAsSetup};

/// Two runs of documents that agree, for a secrecy category, with equal observations, of trusted hosts that obey, with nothing
/// forged, print the same sections to all that isn't high.
pub fn runs_look_the_same()
    ensures { RunsLookTheSame }
{}

/// A document's hosts as they begin are a run, and its plain world is setup's.
pub fn runs_begin_so()
    ensures { EachBeginsAsSetup }
{}
