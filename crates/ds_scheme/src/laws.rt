//! What holds of the scheme. The functions do nothing: their contracts are the laws.

ghost use Rattle.std.specs.Prelude.{◌≡◌, ◌↔◌, ℕ, Bool, true, false, List, [], Contains, Option, Some, None, Ok, find, map, is_some, slice_get, nat_lt};
ghost use Rattle.std.specs.List.{AllByRecursion};
ghost use Rattle.ds_wire.specs.Fields.{IsBytes};
ghost use Rattle.ds_label.specs.declared.category.PubKey.{PubKey};
ghost use Rattle.ds_label.specs.declared.category.Category.{Category};
ghost use Rattle.lms_sig.specs.Good.{IsGood};
ghost use Rattle.lms_sig.specs.Keys.{Key};
ghost use Rattle.lms_state.specs.Signers.{Signing, leaves_of};
ghost use Rattle.ds_script.specs.declared.actor.Actor.{Actor};
ghost use Rattle.ds_cert.specs.Spelling.{signed_part_of_address, signed_part_of_delegation, signed_part_of_lane_cert};
ghost use Rattle.ds_cert.specs.declared.address.Address.{Address};
ghost use Rattle.ds_cert.specs.declared.delegation.Delegation.{Delegation};
ghost use Rattle.ds_cert.specs.declared.lane.LaneCert.{LaneCert};
ghost use Rattle.ds_msg.specs.declared.message.Message.{Message};
ghost use Rattle.ds_msg.specs.Ranges.{MessageFits};
ghost use Rattle.ds_msg.specs.Reading.{read_message};
ghost use Rattle.ds_msg.specs.Spelling.{spelling_of_message};
ghost use Rattle.ds_frame.specs.Streams.{stream_by};
ghost use Rattle.ds_chain.specs.Addresses.{tells};
ghost use Rattle.ds_chain.specs.Delegated.{chain_to};
ghost use Rattle.ds_model.specs.Scheme.{InletName};
ghost use Rattle.ds_model.specs.Plan.{HostPlan, LanePlan, Plan};
ghost use Rattle.ds_flow.specs.Chains.{flow_scheme};
ghost use Rattle.ds_desk.specs.Signing.{desk_scheme, signing_of};
ghost use Rattle.ds_lane.specs.declared.batch.Waiting.{Waiting};
ghost use Rattle.ds_lane.specs.Workers.{fresh_worker, frame_of};
ghost use Rattle.ds_inlet.specs.Hosts.{host_reading, seen_failure, seen_of_items};
ghost use Rattle.ds_noninterference.specs.Alike.{AlikeWorlds};
ghost use Rattle.ds_noninterference.specs.Law.{SameArrivals, SameDesks, SameHosts, SameProcesses, SameSections};
ghost use Rattle.ds_noninterference.specs.Premises.{IsScheme};
ghost use Rattle.ds_delivery.specs.Premises.{CanBeWritten, IsReadable, Written, items_with, stream_with};
ghost use Rattle.ds_scheme.specs.Example.{PremisesHold, IsRead};
ghost use Rattle.ds_scheme.specs.Premises.{AfterBoth, IsDeliveredLawfully};
ghost use Rattle.ds_scheme.specs.Receivers.{IsReceiver};
ghost use Rattle.ds_scheme.specs.Spelled.{HasSpelledLanes, has_spelling};
ghost use Rattle.ds_scheme.specs.StandingFrames.{FrameStands};
ghost use Rattle.ds_scheme.specs.TheScheme.{scheme};

/// Over each plan whose lanes have spellings, the scheme is what the law over two runs asks for.
pub fn serves_the_two_run_law()
    ensures { (plan : Plan) → HasSpelledLanes plan → IsScheme scheme plan }
{}

/// Over each plan whose lanes have spellings, and for messages that have spellings, the scheme reads what was written.
pub fn reads_what_was_written()
    ensures { (plan : Plan) → HasSpelledLanes plan → IsReadable scheme has_spelling plan }
{}

/// What a lane wrote, its receiver reads: the hello and each frame, in their order, and no fault.
pub fn receivers_read_all()
    ensures items { (here : HostPlan) (lane : LanePlan) (frames : List Written) → IsReceiver here lane →
        ((f : Written) → Contains frames f → CanBeWritten scheme has_spelling lane f) →
        scheme.items here.key here.inlets (stream_with scheme lane frames) ≡ items_with lane frames }
    ensures ending { (here : HostPlan) (lane : LanePlan) (frames : List Written) → IsReceiver here lane →
        ((f : Written) → Contains frames f → CanBeWritten scheme has_spelling lane f) →
        scheme.ending here.key here.inlets (stream_with scheme lane frames) ≡ None }
{}

/// In each run from setup, over a plan whose lanes have spellings, of messages that have spellings, each message that an
/// event puts into a mailbox was delivered lawfully.
pub fn delivered_lawfully()
    ensures { IsDeliveredLawfully }
{}

/// Two runs that agree, for a secrecy category, from setup, over a plan whose lanes have spellings, of trusted hosts that
/// obey, with nothing forged: at their ends all that isn't high is the same.
pub fn two_runs()
    ensures alike { AfterBoth AlikeWorlds }
    ensures processes { AfterBoth SameProcesses }
    ensures hosts { AfterBoth SameHosts }
    ensures desks { AfterBoth SameDesks }
    ensures arrivals { AfterBoth SameArrivals }
    ensures outside { AfterBoth SameSections }
{}

/// The parts of a host have this scheme: a desk has its certificates and its leaves, a lane's worker writes its hellos and
/// frames, and a connection reads its items and endings.
pub fn parts_have_this_scheme()
    // What holds of a desk under each scheme holds of it under this one.
    ensures desk { desk_scheme scheme ≡ scheme }
    ensures flow { flow_scheme scheme ≡ scheme }
    // A signer may sign at a leaf that its key has.
    ensures leaf { (key : Key) (leaf : ℕ) → scheme.has_leaf (signing_of key) leaf ≡ nat_lt leaf (leaves_of key) }
    // A worker may frame at a leaf that its lane's key has.
    ensures lane_leaf { (key : Key) (leaf : ℕ) → scheme.has_lane_leaf (signing_of key) leaf ≡ nat_lt leaf (leaves_of key) }
    // A lane's stream begins with its hello.
    ensures hello { (who : Actor) (cert : LaneCert) (signing : Signing) → (fresh_worker who cert signing).stream ≡ scheme.hello cert }
    // The frame that a worker writes of its hand, at the next leaf of its key.
    ensures frame { (signing : Signing) (hand : List Waiting) →
        scheme.frame (signing_of signing.key) signing.next (map (λ w. w.message) hand) ≡ frame_of signing hand }
    // What a host's connections read.
    ensures items { (here : PubKey) (inlets : List InletName) (stream : List ℕ) →
        scheme.items here inlets stream ≡ seen_of_items here inlets (stream_by (host_reading here inlets) stream).items }
    ensures ending { (here : PubKey) (inlets : List InletName) (stream : List ℕ) →
        scheme.ending here inlets stream ≡ seen_failure (stream_by (host_reading here inlets) stream).ending }
{}

/// A certificate is good exactly where its signature is good under the key of the exporter that it names as its signer, over
/// all that stands before the signature.
pub fn good_is_signed()
    ensures delegation { (d : Delegation) → (scheme.good d ≡ true) ↔ IsGood d.by.0 (signed_part_of_delegation d) d.signature }
    ensures address { (a : Address) → (scheme.good_address a ≡ true) ↔ IsGood a.exporter.0 (signed_part_of_address a) a.signature }
    ensures lane { (l : LaneCert) → (scheme.good_lane l ≡ true) ↔ IsGood l.exporter.0 (signed_part_of_lane_cert l) l.signature }
    // The first address certificate of the exporter that is valid at the moment and good.
    ensures find { (certs : List Address) (moment : ℕ) (exporter : PubKey) → scheme.find certs moment exporter ≡ find (tells moment exporter) certs }
{}

/// A key that holds a category holds it by a chain, whose delegations stand in the list.
pub fn chains_stand_in_the_list()
    // A key holds exactly where there is a chain.
    ensures held { (certs : List Delegation) (moment : ℕ) (category : Category) (key : PubKey) →
        scheme.holds certs moment category key ≡ is_some (chain_to certs moment category key) }
    // Its delegations are those at the places of the shortest chain, one for each place.
    ensures places { (certs : List Delegation) (moment : ℕ) (category : Category) (key : PubKey) (places : List ℕ) →
        chain_to certs moment category key ≡ Some places → map Some (scheme.chain certs moment category key) ≡ map (slice_get certs) places }
    // A key that doesn't hold has none.
    ensures none { (certs : List Delegation) (moment : ℕ) (category : Category) (key : PubKey) →
        scheme.holds certs moment category key ≡ false → scheme.chain certs moment category key ≡ [] }
{}

/// The test tells which messages have a spelling, and what is spelled so is read again.
pub fn messages_have_spellings()
    // A message passes exactly where it fits its format and its certificates are lists of bytes.
    ensures exactly { (m : Message) → (has_spelling m ≡ true) ↔ (MessageFits m × AllByRecursion IsBytes m.certs) }
    ensures again { (m : Message) → has_spelling m ≡ true → read_message (spelling_of_message m) ≡ Ok m }
{}

/// A signed frame stands in a stream exactly where its spelling does, with a signature that begins with its number and is good
/// under the key.
pub fn signed_frames_stand()
    ensures stands { (key : PubKey) (number : ℕ) (messages : List Message) (stream : List ℕ) →
        IsBytes stream → scheme.frame_signed key number messages stream ≡ true → FrameStands key number messages stream }
    ensures found { (key : PubKey) (number : ℕ) (messages : List Message) (stream : List ℕ) →
        AllByRecursion MessageFits messages → FrameStands key number messages stream → scheme.frame_signed key number messages stream ≡ true }
{}

/// A lane of a plan, with a frame of one message, and its receiver: the premises are met, and the receiver reads the hello and
/// the frame. The keys and the signatures are of LMS.
pub fn an_example()
    ensures met { PremisesHold }
    ensures read { IsRead }
{}
