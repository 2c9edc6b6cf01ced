//! A host's line, and all its sections.
#![tactic(auto)]

ghost use Rattle.std.specs.Prelude.{◌≡◌, ◌<◌, ◌≤◌, ◌^◌, ◌++◌, ◌∷◌, [], ℕ, ◌==◌, ◌&&◌, List, IfOk, OnOk, flat_map, length, map};
ghost use Rattle.std.specs.Int.{w8, w64, to_be_bytes};
ghost use Rattle.std.specs.List.{All};
ghost use Rattle.ds_cert.specs.Spelling.{kind_number, spelling_of_delegation, spelling_of_address, spelling_of_category};
ghost use Rattle.ds_model.specs.Print.{desk_text, host_line};
ghost use Rattle.ds_plan.specs.Keys.{host_keys};
ghost use Rattle.ds_desk.specs.Desks.{desk_of};
ghost use Rattle.ds_exporter.specs.HostStates.{box_of, inlet_of, lane_of, process_of};
ghost use Rattle.ds_exporter.specs.Conditions.{IsBoxNamed, IsProcNamed};
ghost use Rattle.ds_report.specs.Printings.{printing_of, planned};
ghost use Rattle.ds_report.specs.Hosts.{box_at, boxes_text, desk_spelled, host_counts, host_front, host_state, host_text, inlet_at, inlets_text, lane_at, lanes_text, proc_at, procs_text, things_text};

use crate::boxes::push_box;
use crate::inlets::push_inlet;
use crate::lanes::push_lane;
use crate::names::push_host_name;
use crate::plain::{push, push_counted};
use crate::processes::{push_digest_of, push_process};
use ds_chain::{AddressList, CertList};
use ds_desk::DeskState;
use ds_exporter::{BoxPart, Exporter, LanePart, ProcPart};
use ds_inlet::Inlet;
use ds_label::{Category, Kind, PubKey};
use ds_map::MapTable;
use ds_plan::Doc;
use ds_wire::{Bytes, put_u8, put_u64};
use std::alloc::{AllocError, Global};

/// Appends the spellings of delegations.
fn spell_store(out: &mut Bytes, store: &CertList) -> Result<(), AllocError>
    ensures { OnOk result (out.new ≡ out.old ++ flat_map spelling_of_delegation store.now.items) }
{
    for place in 0..store.len() {
        let Some(cert) = store.get(place) else {
            unreachable!();
        };
        out.append(cert.encode()?.as_slice())?;
    }
    Ok(())
}

/// Appends the spellings of address certificates.
fn spell_addresses(out: &mut Bytes, addresses: &AddressList) -> Result<(), AllocError>
    ensures { OnOk result (out.new ≡ out.old ++ flat_map spelling_of_address addresses.now.items) }
{
    for place in 0..addresses.len() {
        let Some(cert) = addresses.get(place) else {
            unreachable!();
        };
        out.append(cert.encode()?.as_slice())?;
    }
    Ok(())
}

fn number_of(kind: Kind) -> u8
    ensures { result ≡ kind_number kind }
{
    match kind {
        Kind::Secrecy => 0,
        Kind::Integrity => 1,
    }
}

/// Appends the spelling of a category.
fn spell_category(out: &mut Bytes, category: &Category) -> Result<(), AllocError>
    ensures { OnOk result (out.new ≡ out.old ++ (category.now.creator.0 ++ (to_be_bytes w8 (kind_number category.now.kind) ++ to_be_bytes w64 category.now.number))) }
{
    out.append(&category.creator.0)?;
    put_u8(out, number_of(category.kind))?;
    put_u64(out, category.number)?;
    Ok(())
}

/// Appends the spelling of a table's row.
fn spell_row(out: &mut Bytes, category: &Category) -> Result<(), AllocError>
    ensures { OnOk result (out.new ≡ out.old ++ spelling_of_category category.now) }
{
    spell_category(out, category)
}

fn spell_rows(out: &mut Bytes, rows: &[Category]) -> Result<(), AllocError>
    ensures { OnOk result (out.new ≡ out.old ++ flat_map spelling_of_category rows.now) }
{
    for row in rows {
        spell_row(out, row)?;
    }
    Ok(())
}

/// The spellings of all that a desk keeps.
fn spelled(alloc: Global, desk: &DeskState) -> Result<Bytes, AllocError>
    ensures { IfOk result (λ bytes. bytes ≡ desk_spelled (desk_of desk.now)) }
{
    let mut bytes = Bytes::new(alloc);
    spell_store(&mut bytes, desk.store.list())?;
    spell_addresses(&mut bytes, &desk.addresses)?;
    spell_rows(&mut bytes, desk.table.rows())?;
    Ok(bytes)
}

/// Appends the digest of all that a desk keeps.
fn push_desk_pieces(
    out: &mut Vec<u8>,
    alloc: Global,
    doc: &Doc,
    desk: &DeskState,
) -> Result<(), AllocError>
    ensures { OnOk result (out.new.items ≡ out.old.items ++ (printing_of doc.now).digest (desk_spelled (desk_of desk.now))) }
{
    let bytes = spelled(alloc, desk)?;
    push_digest_of(out, doc, bytes.as_slice())
}

/// Whether a desk keeps no certificate and no row.
fn keeps_nothing(desk: &DeskState) -> bool
    ensures { result ≡ ((length (desk_of desk.now).store == 0) && ((length (desk_of desk.now).addresses == 0) && (length (desk_of desk.now).rows == 0))) }
{
    desk.store.len() == 0 && desk.addresses.len() == 0 && desk.table.len() == 0
}

/// Appends the digest of all that a desk keeps, or `-` where it keeps nothing.
fn push_desk(
    out: &mut Vec<u8>,
    alloc: Global,
    doc: &Doc,
    desk: &DeskState,
) -> Result<(), AllocError>
    ensures { OnOk result (out.new.items ≡ out.old.items ++ desk_text (printing_of doc.now) (planned doc.now) (desk_of desk.now)) }
{
    if keeps_nothing(desk) {
        return push(out, b"-");
    }
    push_desk_pieces(out, alloc, doc, desk)
}

/// Appends how far a desk is.
fn push_state(out: &mut Vec<u8>, desk: &DeskState) -> Result<(), AllocError>
    ensures { OnOk result (out.new.items ≡ out.old.items ++ host_state (desk_of desk.now)) }
{
    push_counted(out, b" moment ", desk.moment)?;
    push_counted(out, b" leaf ", u64::from(desk.signer.next()))
}

/// Appends how much a desk keeps.
fn push_counts(out: &mut Vec<u8>, desk: &DeskState) -> Result<(), AllocError>
    ensures { OnOk result (out.new.items ≡ out.old.items ++ host_counts (desk_of desk.now)) }
{
    push_counted(out, b" store ", desk.store.len() as u64)?;
    push_counted(out, b" addresses ", desk.addresses.len() as u64)?;
    push_counted(out, b" maps ", desk.table.len() as u64)
}

fn push_front(out: &mut Vec<u8>, doc: &Doc, host: usize, desk: &DeskState) -> Result<(), AllocError>
    ensures { OnOk result (out.new.items ≡ out.old.items ++ host_front (printing_of doc.now) (planned doc.now) host (desk_of desk.now)) }
{
    push(out, b"host ")?;
    push_host_name(out, doc, host)?;
    push_state(out, desk)?;
    push_counts(out, desk)?;
    push(out, b" desk ")
}

/// Appends a host's line, piece by piece.
fn push_pieces(
    out: &mut Vec<u8>,
    alloc: Global,
    doc: &Doc,
    host: usize,
    desk: &DeskState,
) -> Result<(), AllocError>
    ensures { OnOk result (out.new.items ≡ out.old.items ++ (host_front (printing_of doc.now) (planned doc.now) host (desk_of desk.now) ++ (desk_text (printing_of doc.now) (planned doc.now) (desk_of desk.now) ++ 10 ∷ []))) }
{
    push_front(out, doc, host, desk)?;
    push_desk(out, alloc, doc, desk)?;
    push(out, b"\n")
}

/// Appends a host's line.
fn push_line(
    out: &mut Vec<u8>,
    alloc: Global,
    doc: &Doc,
    host: usize,
    desk: &DeskState,
) -> Result<(), AllocError>
    ensures { OnOk result (out.new.items ≡ out.old.items ++ host_line (printing_of doc.now) (planned doc.now) host (desk_of desk.now)) }
{
    push_pieces(out, alloc, doc, host, desk)
}

fn push_procs(
    out: &mut Vec<u8>,
    doc: &Doc,
    keys: &[PubKey],
    table: &MapTable,
    host: usize,
    procs: &[ProcPart],
) -> Result<(), AllocError>
    requires keys { keys.now ≡ host_keys doc.now.hosts }
    requires named { All (IsProcNamed table.now.here table.now.rows) (map process_of procs.now) }
    ensures { OnOk result (out.new.items ≡ out.old.items ++ procs_text (printing_of doc.now) (planned doc.now) host table.now.here table.now.rows 0 (map process_of procs.now)) }
{
    for (index, process) in procs.iter().enumerate() {
        push_process(out, doc, keys, table, host, index, process)?;
    }
    Ok(())
}

fn push_boxes(
    out: &mut Vec<u8>,
    alloc: Global,
    doc: &Doc,
    keys: &[PubKey],
    table: &MapTable,
    host: usize,
    boxes: &[BoxPart],
) -> Result<(), AllocError>
    requires keys { keys.now ≡ host_keys doc.now.hosts }
    requires named { All (IsBoxNamed table.now.here table.now.rows) (map box_of boxes.now) }
    ensures { OnOk result (out.new.items ≡ out.old.items ++ boxes_text (printing_of doc.now) (planned doc.now) host table.now.here table.now.rows (map box_of boxes.now)) }
{
    for mailbox in boxes {
        push_box(out, alloc, doc, keys, table, host, mailbox)?;
    }
    Ok(())
}

fn push_lanes(
    out: &mut Vec<u8>,
    doc: &Doc,
    keys: &[PubKey],
    host: usize,
    lanes: &[LanePart],
) -> Result<(), AllocError>
    requires { keys.now ≡ host_keys doc.now.hosts }
    ensures { OnOk result (out.new.items ≡ out.old.items ++ lanes_text (printing_of doc.now) (planned doc.now) host 0 (map lane_of lanes.now)) }
{
    for (place, lane) in lanes.iter().enumerate() {
        push_lane(out, doc, keys, host, place, lane)?;
    }
    Ok(())
}

fn push_inlets(
    out: &mut Vec<u8>,
    doc: &Doc,
    keys: &[PubKey],
    host: usize,
    inlets: &[Inlet],
) -> Result<(), AllocError>
    requires { keys.now ≡ host_keys doc.now.hosts }
    ensures { OnOk result (out.new.items ≡ out.old.items ++ inlets_text (printing_of doc.now) (planned doc.now) host (map inlet_of inlets.now)) }
{
    for inlet in inlets {
        push_inlet(out, doc, keys, host, inlet)?;
    }
    Ok(())
}

/// Appends what stands behind a host's line, by the names of its table.
fn push_things(
    out: &mut Vec<u8>,
    alloc: Global,
    doc: &Doc,
    keys: &[PubKey],
    table: &MapTable,
    place: usize,
    host: &Exporter,
) -> Result<(), AllocError>
    requires keys { keys.now ≡ host_keys doc.now.hosts }
    requires procs { All (IsProcNamed table.now.here table.now.rows) host.now.procs }
    requires boxes { All (IsBoxNamed table.now.here table.now.rows) host.now.boxes }
    ensures { OnOk result (out.new.items ≡ out.old.items ++ things_text (printing_of doc.now) (planned doc.now) place table.now.here table.now.rows host.now) }
{
    push_procs(out, doc, keys, table, place, host.procs().as_slice())?;
    push_boxes(out, alloc, doc, keys, table, place, host.boxes().as_slice())?;
    push_lanes(out, doc, keys, place, host.lanes().as_slice())?;
    push_inlets(out, doc, keys, place, host.inlets().as_slice())
}

/// Appends the sections of the running host at a place: its line, its processes, mailboxes, lanes and inlets, in order. It needs
/// the keys of the document's hosts. `AllocError` where memory runs out.
pub fn push_host(
    out: &mut Vec<u8>,
    alloc: Global,
    doc: &Doc,
    keys: &[PubKey],
    place: usize,
    host: &Exporter,
) -> Result<(), AllocError>
    requires { keys.now ≡ host_keys doc.now.hosts }
    ensures { OnOk result (out.new.items ≡ out.old.items ++ host_text (printing_of doc.now) (planned doc.now) place host.now) }
{
    host.fit();
    let desk = host.desk();
    push_line(out, alloc, doc, place, desk)?;
    push_things(out, alloc, doc, keys, &desk.table, place, host)
}
