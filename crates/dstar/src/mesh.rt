//! The call that runs all hosts on threads.

ghost use Rattle.std.specs.Prelude.{◌≡◌, ◌↔◌, ◌≤◌, false, true, None, IfErr, IfOk};
ghost use Rattle.dstar.specs.Meshes.{IsMeshOf, IsRefusedForMeshBy, MeshCaused, is_mesh};
ghost use Rattle.dstar.specs.Words.{texts};

use crate::input::{InputFault, read_all};
use crate::output::write_all;
use crate::status::Status;
use ds_base::{Gate, Sink, Source};
use ds_doc::{DocFault, read_without_events};
use ds_mesh::mesh_text;
use std::alloc::Global;
use std::thread::Threads;

/// Whether the words are the word `mesh`.
pub(crate) fn is_mesh(words: &[String]) -> bool
    ensures { result ≡ is_mesh (texts words.now) }
{
    match words {
        [word] => word.as_str() == "mesh",
        _ => false,
    }
}

/// The text of a run in threads of the document that the bytes say, or what is wrong with them: the least code of a rule that they
/// break and the least place where it is broken, or 13 and the place of the events that the document lists.
fn meshed<T: Threads + Sync, G: Gate + Sync>(
    rt: &T,
    gate: &G,
    alloc: Global,
    bytes: &[u8],
) -> Result<Vec<u8>, DocFault>
    ensures ok { IfOk result (λ text. IsMeshOf bytes.now text.items) }
    ensures err { IfErr result (IsRefusedForMeshBy bytes.now) }
{
    let (doc, identities) = read_without_events(rt, alloc, bytes)?;
    let text = mesh_text(rt, gate, alloc, doc, identities)?;
    Ok(text)
}

/// Answers the call `mesh`: reads a document that lists no events, makes all its keys and then lets all its hosts run at once, each in
/// a thread of its own where one can be made, and writes `mesh N`, the N events that they made, a line each, and the text of the run
/// by these events. The words exclude the program's name. The input is read to its end, of which at most 16,777,217 bytes. Workers
/// pass `gate` before they put a message into a mailbox.
///
/// The status is `Usage` where the words aren't the word `mesh`, and nothing is touched then; `ReadFault`, `WriteFault` where the
/// input or the output failed; `TooLong` where more than 16,777,216 bytes were read; `Document` with the least code that the
/// document breaks and its least place, or with 13 and the place of its events; `NoMemory` where memory ran out.
pub fn dstar_mesh<T: Threads + Sync, R: Source, W: Sink, G: Gate + Sync>(
    rt: &T,
    alloc: Global,
    words: &Vec<String>,
    input: &mut R,
    out: &mut W,
    gate: &G,
) -> Status
    ensures usage { result ≡ Status.Usage ↔ (is_mesh (texts words.now.items) ≡ false) }
    ensures unused { result ≡ Status.Usage → (input.new ≡ input.old) × (out.new ≡ out.old) }
    // Each other status has its cause: with `Ok` the text of a run was written, which delivers lawfully and looks the same outside.
    ensures caused { is_mesh (texts words.now.items) ≡ true → MeshCaused (record {
      told = R.tells input.old;
      left = R.tells input.new;
      read_faults = R.faults input.old;
      read_faults_after = R.faults input.new;
      ends = R.ends input.old;
      ends_after = R.ends input.new;
      written = W.tells out.old;
      written_after = W.tells out.new;
      write_faults = W.faults out.old;
      write_faults_after = W.faults out.new;
      marks = None;
      marks_after = None;
      keeper_faults = 0;
      keeper_faults_after = 0;
    }) result }
    ensures read_faults { R.faults input.old ≤ R.faults input.new }
    ensures ends { R.ends input.old ≤ R.ends input.new }
    ensures write_faults { W.faults out.old ≤ W.faults out.new }
{
    if !is_mesh(words.as_slice()) {
        return Status::Usage;
    }
    let bytes = match read_all(alloc, input) {
        Ok(bytes) => bytes,
        Err(InputFault::ReadFault) => return Status::ReadFault,
        Err(InputFault::TooLong) => return Status::TooLong,
        Err(InputFault::NoMemory) => return Status::NoMemory,
    };
    match meshed(rt, gate, alloc, &bytes) {
        Ok(text) => match write_all(out, text.as_slice()) {
            Ok(()) => Status::Ok,
            Err(_) => Status::WriteFault,
        },
        Err(DocFault::Refused(code, place)) => Status::Document(code, place),
        Err(DocFault::NoMemory) => Status::NoMemory,
    }
}
