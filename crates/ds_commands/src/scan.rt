//! The delegations of an input's lines.

ghost use Rattle.std.specs.Prelude.{◌≡◌, ◌≤◌, ◌<◌, ◌∷◌, ◌+◌, IfOk, OnOk, IfSome, None, Some, [], length};
ghost use Rattle.ds_cert.specs.Ranges.{DelegationRange};
ghost use Rattle.ds_commands.specs.Chains.{Kept, delegation_line, lines_of, next_line, scan};

use crate::lines::cut;
use ds_cert::{CertFault, Delegation};
use ds_chain::{CertList, ListFault};
use hex::FromHexError;
use std::alloc::{AllocError, Global};
use std::marker::Model;

/// The first line of an input that isn't empty, and what follows.
pub(crate) fn first_line(input: &[u8]) -> (&[u8], &[u8])
    requires { 0 < length input.now }
    ensures lines { lines_of input.now ≡ result.0.now ∷ lines_of result.1.now }
    ensures less { length result.1.now < length input.now }
{
    match cut(input) {
        (line, None) => (line, &[]),
        (line, Some(rest)) => (line, rest),
    }
}

/// What lines gave: the different delegations, the first faulty line, and the line of the 257th different one.
#[derive(Drop)]
pub(crate) struct Scan {
    pub(crate) kept: CertList,
    pub(crate) faulty: Option<u32>,
    pub(crate) over: Option<u32>,
}

impl Model for Scan {
    ghost use Rattle.ds_commands.specs.Chains.{Scan, scan_of};

    ghost Value = { Scan };

    ghost view = { λ s. scan_of s.kept.items s.faulty s.over };
}

/// The delegation that a line spells in hex.
fn delegation_of(alloc: Global, line: &[u8]) -> Result<Option<Delegation>, AllocError>
    ensures found { IfOk result (λ d. d ≡ delegation_line line.now) }
    ensures range { IfOk result (λ d. IfSome d DelegationRange) }
{
    let bytes = match hex::decode(alloc, line) {
        Ok(bytes) => bytes,
        Err(FromHexError::OutOfMemory) => return Err(AllocError),
        Err(_) => return Ok(None),
    };
    match Delegation::decode(alloc, &bytes) {
        Ok(delegation) => Ok(Some(delegation)),
        Err(CertFault::Malformed(_)) => Ok(None),
        Err(CertFault::NoMemory) => Err(AllocError),
    }
}

impl Scan {
    fn new(alloc: Global) -> Scan
        ensures { result ≡ Kept [] None }
    {
        Scan {
            kept: CertList::new(alloc),
            faulty: None,
            over: None,
        }
    }

    /// Goes on by one line.
    fn next_line(&mut self, alloc: Global, line: u32, text: &[u8]) -> Result<(), AllocError>
        ensures { OnOk result (self.new ≡ next_line line text.now self.old) }
    {
        if self.over.is_some() {
            return Ok(());
        }
        let Some(new) = delegation_of(alloc, text)? else {
            if self.faulty.is_none() {
                self.faulty = Some(line);
            }
            return Ok(());
        };
        match self.kept.add(new) {
            Ok(()) => Ok(()),
            Err(ListFault::ListFull) => {
                self.over = Some(line);
                Ok(())
            }
            Err(ListFault::NoMemory) => Err(AllocError),
        }
    }
}

/// What all lines gave, from the line `line` on.
#[tactic(auto, unfolding(crate::specs::Chains::lines_of))]
pub(crate) fn scan_lines(alloc: Global, mut line: u32, mut rest: &[u8]) -> Result<Scan, AllocError>
    requires { line + length rest.now ≤ 16777218 }
    ensures { IfOk result (λ s. s ≡ scan line (Kept [] None) (lines_of rest.now)) }
{
    let mut found = Scan::new(alloc);
    while !rest.is_empty() {
        let (text, more) = first_line(rest);
        found.next_line(alloc, line, text)?;
        line += 1;
        rest = more;
    }
    Ok(found)
}
