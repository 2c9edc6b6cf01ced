//! The merged list is one list, and a list whose parts are runs is a run. The functions do nothing: their contracts are the laws.

ghost use Rattle.std.specs.Prelude.{◌≡◌, List, Option, Some, find};
ghost use Rattle.ds_script.specs.Replay.{replay};
ghost use Rattle.ds_merge.specs.declared.kept.ObjectName.{ObjectName};
ghost use Rattle.ds_merge.specs.declared.kept.Kept.{Kept};
ghost use Rattle.ds_merge.specs.declared.recorded.Recorded.{Recorded};
ghost use Rattle.ds_merge.specs.declared.records.History.{History};
ghost use Rattle.ds_merge.specs.declared.records.ActorRecord.{ActorRecord};
ghost use Rattle.ds_merge.specs.Order.{IsMerged, merged};
ghost use Rattle.ds_merge.specs.Standing.{same_name};
ghost use Rattle.ds_merge.specs.Walk.{Matches, run};
ghost use Rattle.ds_merge.specs.Parts.{AllAgree, entries_of};

use crate::machine::Machine;

/// The merged list has all events of the records, by stamp and actor, and in their record's order where both are equal; and it is
/// the only such list.
pub fn merged_once()
    ensures is { (records : List ActorRecord) → IsMerged records (merged records) }
    ensures only { (records : List ActorRecord) (es : List Recorded) → IsMerged records es → es ≡ merged records }
{}

/// Where each event's step does to each object what the event's recorded entry does to it, and nothing where none is recorded,
/// each object ends where the replay of the recorded entries leads; and where the walk matches, where the replay of its history
/// leads.
pub fn parts_are_runs<M: Machine, S>()
    ensures entries { (of : ObjectName → M → S) (act : S → Kept → Option S) (w : M) (es : List Recorded) (name : ObjectName) →
        AllAgree M.after of act w es →
        replay act (of name w) (entries_of name es) ≡ Some (of name (run M.after M.moves M.entry M.answer w es)) }
    ensures histories { (of : ObjectName → M → S) (act : S → Kept → Option S) (w : M) (hs : List History) (es : List Recorded) (h : History) →
        Matches M.after M.moves M.entry M.answer w hs es →
        find (λ x. same_name x.object h.object) hs ≡ Some h →
        AllAgree M.after of act w es →
        replay act (of h.object w) h.entries.items ≡ Some (of h.object (run M.after M.moves M.entry M.answer w es)) }
{}
