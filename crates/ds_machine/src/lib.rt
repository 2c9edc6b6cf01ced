//! The plain world as the machine of a merge: which event a recorded one is, the entry that it makes and what is handed out, as
//! bytes; and that a merged list by which the walk matches is a run. The functions do nothing: their contracts are the laws.
#![tactic(auto)]

ghost use Rattle.ds_machine.specs.Laws.{NamesAreOnes, ObjectsHaveNames, EntersOwn, RunsAreRuns};
ghost use Rattle.ds_machine.specs.Laws.{LinesReplay, HistoriesAreLines, StepsAgree, HistoriesReplay};
ghost use Rattle.ds_machine.specs.Turns.{LiftsAreRecorded, ChecksAreRecorded, JudgedAsOne};
ghost use Rattle.ds_machine.specs.Examples.{FindsFull, CarriesALetter, CountsFrames, EntersRefusals, MovesNothing};

/// Each object that an event touches has a name, and each name is of one object. An event enters on its actor's own host alone.
pub fn names()
    ensures ones { NamesAreOnes }
    ensures have { ObjectsHaveNames }
    ensures own { EntersOwn }
{}

/// The machine's run is the plain world's, by the events that were recorded, and each object is at its end the replay of the changes
/// that the events entered in it. Where the walk goes past every event and leaves no entry, each history is the spelling of these
/// changes, in their order.
pub fn histories_are_runs()
    ensures runs { RunsAreRuns }
    ensures lines { LinesReplay }
    ensures histories { HistoriesAreLines }
{}

/// The parts of a merged list are runs: by whatever reader that makes of an object by an entry what the change does that it spells,
/// each object ends where the replay of its history leads.
pub fn readers_replay()
    ensures agree { StepsAgree }
    ensures histories { HistoriesReplay }
{}

/// What a lane's worker records of a lift and of a judgement is what the machine says of the event. One judgement is enough for a
/// hand, since the messages of a lane have one receiver and one label.
pub fn workers_record_so()
    ensures lifts { LiftsAreRecorded }
    ensures checks { ChecksAreRecorded }
    ensures one { JudgedAsOne }
{}

/// Worked runs as threads record them, computed byte by byte: three messages with a secret to a mailbox for two, of which the first is
/// taken; a letter from one host to another; a frame that two connections read; public acts and a send that are refused, with a tick;
/// and what names no event.
pub fn worked_records()
    ensures full { FindsFull }
    ensures letter { CarriesALetter }
    ensures stale { CountsFrames }
    ensures acts { EntersRefusals }
    ensures strange { MovesNothing }
{}
