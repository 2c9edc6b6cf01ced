//! What holds of the definitions. The functions do nothing: their contracts are the laws.

ghost use Rattle.std.specs.Prelude.{List};
ghost use Rattle.ds_label.specs.declared.category.PubKey.{PubKey};
ghost use Rattle.ds_frame.specs.Laws.{IsReadByPieces};
ghost use Rattle.ds_model.specs.Scheme.{InletName};
ghost use Rattle.ds_inlet.specs.Hosts.{host_reading};
ghost use Rattle.ds_inlet.specs.PlainConnections.{IsPlainArrival, IsPlainDrop, IsPlainFresh, IsPlainHand, IsPlainPass, IsPlainReturn, IsPlainStale};
ghost use Rattle.ds_inlet.specs.Reads.{IsReadAsStream};
ghost use Rattle.ds_inlet.specs.Accepting.{StaysReadSoFar, IsPlainAccept};

/// In whatever pieces a stream comes to a host, and whenever its next item is asked for, the items handed out are those that
/// the host reads of the whole stream, in their order, and the reader waits and fails as the whole stream does.
pub fn pieces_make_no_difference()
    ensures { (here : PubKey) (inlets : List InletName) → IsReadByPieces (host_reading here inlets) }
{}

/// Where no frame is offered, what a connection reads is the next item that its stream carries for its host, or its end, and it
/// has read as far as the item goes.
pub fn connections_read_the_stream()
    ensures { IsReadAsStream }
{}

/// Seen as the plain world's connection, arrivals and the calls after a reading do what the plain world's pieces do: a settled
/// frame is a fresh or a stale one, and the first message of the hand passes or is dropped.
pub fn connections_act_as_the_plain_world()
    ensures arrives { IsPlainArrival }
    ensures fresh { IsPlainFresh }
    ensures stale { IsPlainStale }
    ensures passes { IsPlainPass }
    ensures drops { IsPlainDrop }
    ensures put { IsPlainHand }
    ensures given_back { IsPlainReturn }
{}

/// A connection has read what arrived as far as it took items of it, from its beginning on and through every call; so a call of
/// `read` is the plain world's accept: it takes the hello, asks the inlet of a frame's number, fails, or waits.
pub fn connections_accept_as_the_plain_world()
    ensures stays { StaysReadSoFar }
    ensures accepts { IsPlainAccept }
{}
