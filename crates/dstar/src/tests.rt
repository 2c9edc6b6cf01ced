//! What the program's data can't show: an input, an output and marks that fail in mid-stream.

use crate::status::Status;
use crate::top::dstar_run;
use ds_base::{MemKeeper, MemSink, MemSource};
use std::alloc::{AllocError, Global};
use std::test::Fail;

/// A host with one process that prints.
const HELLO: &str =
    "{\"version\":1,\"hosts\":[{\"name\":\"a\",\"seed\":\"0101010101010101010101010101010101010101010101010101010101010101\",\"procs\":[{\"script\":[[\"set\",\"r0\",\"hello\"],[\"print\",\"r0\"]]}]}]}";

/// A secret, a line feed and a message.
const SAID: &str = "0000000000000000000000000000000000000000000000000000000000000000\nhello";

/// The words that aren't empty.
fn texts(alloc: Global, words: [&str; 3]) -> Result<Vec<String>, AllocError> {
    let mut all = Vec::new(alloc);
    for word in words {
        if !word.is_empty() {
            all.push(String::from_str(alloc, word)?)?;
        }
    }
    Ok(all)
}

/// How a call with these words ends over this input, whose takes of these numbers fail, an output that takes five bytes a
/// put and whose puts of these numbers fail, and a keeper whose calls of these numbers fail; and what it wrote.
fn ends(
    alloc: Global,
    words: [&str; 3],
    input: Vec<u8>,
    takes: &[u64],
    puts: &[u64],
    calls: &[u64],
) -> Result<(Status, Vec<u8>), AllocError> {
    let words = texts(alloc, words)?;
    let mut source = MemSource::new(input, Vec::from_slice(alloc, takes)?);
    let mut sink = MemSink::new(Vec::new(alloc), 5, Vec::from_slice(alloc, puts)?);
    let calls = Vec::from_slice(alloc, calls)?;
    let mut keeper = MemKeeper::new(Vec::new(alloc), calls, Vec::new(alloc));
    let status = dstar_run(alloc, &words, &mut source, &mut sink, &mut keeper, 0);
    Ok((status, Vec::from_slice(alloc, sink.written())?))
}

#[test]
fn an_input_that_fails_at_its_third_take_is_a_read_fault(rt: HostRuntime) -> Result<(), Fail> {
    let input = vec![in rt.alloc(); b' '; 200_000]?;
    let (status, written) = ends(rt.alloc(), ["sim", "", ""], input, &[3], &[], &[])?;
    assert_eq!(rt; status, Status::ReadFault);
    assert!(rt; written.is_empty());
    Ok(())
}

#[test]
fn an_output_that_fails_at_its_second_put_is_a_write_fault(rt: HostRuntime) -> Result<(), Fail> {
    let input = Vec::from_slice(rt.alloc(), HELLO.as_bytes())?;
    let (status, written) = ends(rt.alloc(), ["sim", "", ""], input, &[], &[2], &[])?;
    assert_eq!(rt; status, Status::WriteFault);
    assert!(rt; written.as_slice() == b"dstar".as_slice());
    Ok(())
}

#[test]
fn a_keeper_that_fails_at_the_raise_hands_out_no_signature(rt: HostRuntime) -> Result<(), Fail> {
    let input = Vec::from_slice(rt.alloc(), SAID.as_bytes())?;
    let (status, written) = ends(rt.alloc(), ["sign", "5.3", "0"], input, &[], &[], &[2])?;
    assert_eq!(rt; status, Status::KeeperFault);
    assert!(rt; written.is_empty());
    Ok(())
}
