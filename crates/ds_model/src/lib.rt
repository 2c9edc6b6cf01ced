//! The plain world: what hosts, processes, mailboxes, lanes and connections do, told once, over categories by their names
//! alone. All that is stateful is held against it. Its definitions stand in `specs/`, a module a topic.
#![tactic(auto)]

ghost use Rattle.ds_model.specs.Schedule.{FindsStill, OneSchedule, SomeSchedule};
ghost use Rattle.ds_model.specs.Access.{BoxesReplay, LanesReplay, InletsReplay, DesksReplay};
ghost use Rattle.ds_model.specs.Replies.{ProcessesTold, WorkersTold, ConnectionsTold};
ghost use Rattle.ds_model.specs.Lawful.{SentLawfully};
ghost use Rattle.ds_model.specs.Examples.OneHost.{Prints, IsRefused, IsReleased, IsScheduled, IsFull, IsStale};
ghost use Rattle.ds_model.specs.Examples.Script.{IsScripted};
ghost use Rattle.ds_model.specs.Examples.TwoHosts.{IsCarried};
ghost use Rattle.ds_model.specs.Examples.Refusals.{CountsAlone, IsBusy, IsDropped, IsFirst, IsKeptIn, IsLapsed};
ghost use Rattle.ds_model.specs.Examples.Texts.{IsPrinting, IsTrying, IsPosted};

/// An event changes nothing in a world exactly where it changes none of its actor's numbers.
pub fn still_by_numbers()
    ensures { FindsStill }
{}

/// A world has a canonical schedule, and one alone, by whatever test finds the events that change nothing.
pub fn one_schedule()
    ensures some { SomeSchedule }
    ensures one { OneSchedule }
{}

/// Each event of a run touches at most one shared object of one host, by at most one entry, which may stand there. So each
/// mailbox, each lane's waiting list, each inlet and each desk is the replay of the run's own entries in it.
pub fn objects_replay()
    ensures boxes { BoxesReplay }
    ensures lanes { LanesReplay }
    ensures inlets { InletsReplay }
    ensures desks { DesksReplay }
{}

/// Each actor becomes what it asked and the answer alone say.
pub fn actors_told()
    ensures processes { ProcessesTold }
    ensures workers { WorkersTold }
    ensures connections { ConnectionsTold }
{}

/// A process's message gets into a mailbox of its own host only where its own rules and the mailbox's rule hold. Of messages
/// from other hosts `specs/Lawful.antt` says what must have gone before.
pub fn sent_lawfully()
    ensures { SentLawfully }
{}

/// Small worlds, computed: a process prints; a send to a mailbox of the own host is refused by its label; the same send,
/// by a process that owns the secret, is a release; the canonical schedule of the one that prints; a full mailbox, of which
/// the sender learns nothing; a frame that two connections read, fresh on one and stale on the other; a script that
/// tries what a process may do on its own host; and a message that the canonical schedule carries from one host to another, where it is taken and printed.
pub fn small_worlds()
    ensures prints { Prints }
    ensures refused { IsRefused }
    ensures released { IsReleased }
    ensures scheduled { IsScheduled }
    ensures full { IsFull }
    ensures stale { IsStale }
    ensures scripted { IsScripted }
    ensures carried { IsCarried }
{}

/// Small worlds of what must not happen, computed: of two rules that are broken the first in order is named; a process that
/// doesn't own the secret of its label does nothing in public; a message whose label doesn't flow to its mailbox's is dropped
/// on arrival; a connection with work in hand takes nothing; a message whose receiver's address lapsed on the lane is dropped
/// at framing, and is nowhere; and two lanes of a host each begin at their own first leaf.
pub fn small_refusals()
    ensures first { IsFirst }
    ensures kept_in { IsKeptIn }
    ensures dropped { IsDropped }
    ensures busy { IsBusy }
    ensures lapsed { IsLapsed }
    ensures alone { CountsAlone }
{}

/// The texts of three of the small worlds.
pub fn small_texts()
    ensures printing { IsPrinting }
    ensures trying { IsTrying }
    ensures posted { IsPosted }
{}
