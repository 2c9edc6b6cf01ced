//! What holds of the definitions. The functions do nothing: their contracts are the laws.
#![tactic(auto)]

ghost use Rattle.std.specs.Prelude.{ℕ, List, map};
ghost use Rattle.ds_script.specs.declared.actor.Actor.{Actor};
ghost use Rattle.ds_inlet.specs.Connections.{Connection, arrived_more, new_connection};
ghost use Rattle.ds_turn.specs.declared.node.Node.{Node};
ghost use Rattle.ds_turn.specs.ConnTurns.{LeadsTo, name_of_seat};
ghost use Rattle.ds_turn.specs.ConnVerdicts.{IsJudgedPlainly};

/// A new connection with its host's key and the names of its inlets leads to the host, and one that leads there does so still
/// when bytes arrive.
pub fn connections_lead_to_their_hosts()
    ensures new { (node : Node) (who : Actor) → LeadsTo node (new_connection who node.desk (map name_of_seat node.inlets.items)) }
    ensures arrives { (node : Node) (piece : List ℕ) (k : Connection) → LeadsTo node k → LeadsTo node (arrived_more piece k) }
{}

/// The verdict on a message that arrived is the model's, by the names of the desk's table, wherever the reply is what the desk
/// answers: it is dropped by the first rule of arrival or of its mailbox that fails, and else passes as the mail that the model
/// puts.
pub fn verdicts_are_the_plain_worlds()
    ensures { IsJudgedPlainly }
{}
