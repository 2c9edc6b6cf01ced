//! What each event of the plain world enters in a shared object, and that a run is the replay of its entries. The functions do
//! nothing: their contracts are the laws.
#![tactic(auto)]

ghost use Rattle.ds_replay.specs.Laws.{OneObject, RunsReplay, TouchesOwnHost, SlotsName};
ghost use Rattle.ds_replay.specs.Laws.{StillTouchesNothing, InnerTouchesNothing, ElseIsStill};
ghost use Rattle.ds_replay.specs.Laws.{ProcessesLearn, WorkersLearn, ConnectionsLearn};
ghost use Rattle.ds_replay.specs.Examples.{FindsFull, CountsFrames, CarriesALetter, EntersRefusals};

/// An event touches at most one object, of its own host, by one change. Each object of each host is after the event what the
/// event's change makes of it, where the event touched it, and as it was where it didn't. So along a run each object is the replay
/// of the changes that the events made of it. A mailbox that is touched is the first one of its slot.
pub fn runs_replay()
    ensures one { OneObject }
    ensures run { RunsReplay }
    ensures own { TouchesOwnHost }
    ensures slots { SlotsName }
{}

/// An event that changes nothing touches nothing, and neither does a step inside an actor, nor bytes that come. Every other event
/// touches an object, where hosts have what their plans say.
pub fn all_else_touches()
    ensures still { StillTouchesNothing }
    ensures inner { InnerTouchesNothing }
    ensures others { ElseIsStill }
{}

/// Each actor becomes what it asked and the answer alone say.
pub fn actors_learn()
    ensures processes { ProcessesLearn }
    ensures workers { WorkersLearn }
    ensures connections { ConnectionsLearn }
{}

/// Worked runs, computed: a mailbox that is full, a frame that two connections read, a letter from one host to another, and public
/// acts of which two are refused.
pub fn worked_runs()
    ensures full { FindsFull }
    ensures counts { CountsFrames }
    ensures letter { CarriesALetter }
    ensures acts { EntersRefusals }
{}
