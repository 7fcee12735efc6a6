ghost use Rattle.std.specs.Prelude.{◌≡◌, ◌++◌, OnOk, All};
ghost use Rattle.std.specs.List.{flat_map};
ghost use Rattle.route_law.specs.Regular.{IsRegularOrigin, IsRegularEntry, IsRegularCert};
ghost use Rattle.reply_text.specs.Texts.{bound_text, cert_line, origin_text, entry_text, cert_text, shown_cert_text};

use crate::words::{push_area, push_cost, push_count, push_name};
use board_model::Board;
use geo_rect::{List, NoMemory};
use route_law::{Cert, Entry, Origin};

fn push_bound(text: &mut List<u8>, bound: Option<u128>) -> Result<(), NoMemory>
    ensures { OnOk result (text.new ≡ text.old ++ bound_text bound) }
{
    match bound {
        None => text.extend_from_slice(b"-"),
        Some(cost) => push_cost(text, b"", cost),
    }
}

#[tactic(auto, unfolding(crate::specs::Texts::cert_line))]
fn push_cert_line(text: &mut List<u8>, bound: Option<u128>, entries: u64) -> Result<(), NoMemory>
    ensures { OnOk result (text.new ≡ text.old ++ cert_line bound entries) }
{
    text.extend_from_slice(b"cert ")?;
    push_bound(text, bound)?;
    push_count(text, b" ", entries)?;
    text.extend_from_slice(b"\n")
}

fn push_origin(text: &mut List<u8>, board: &Board, origin: Origin) -> Result<(), NoMemory>
    requires { IsRegularOrigin board.now.parts origin }
    ensures { OnOk result (text.new ≡ text.old ++ origin_text board.now.parts origin) }
{
    match origin {
        Origin::Source(number) => push_count(text, b"src ", number),
        Origin::Step(entry) => push_count(text, b"step ", entry),
        Origin::Via(entry, kind) => {
            push_count(text, b"via ", entry)?;
            push_name(text, b" ", board.kind_name(kind))
        }
    }
}

#[tactic(auto, unfolding(crate::specs::Texts::entry_text))]
fn push_entry(text: &mut List<u8>, board: &Board, entry: &Entry) -> Result<(), NoMemory>
    requires { IsRegularEntry board.now.parts entry.now }
    ensures { OnOk result (text.new ≡ text.old ++ entry_text board.now.parts entry.now) }
{
    push_origin(text, board, entry.origin)?;
    push_name(text, b" ", board.layer_name(entry.layer))?;
    push_area(text, entry.strip)?;
    push_area(text, entry.front)?;
    push_cost(text, b" ", entry.cost)?;
    text.extend_from_slice(b"\n")
}

fn push_entries(text: &mut List<u8>, board: &Board, entries: &[Entry]) -> Result<(), NoMemory>
    requires { All (IsRegularEntry board.now.parts) entries.now }
    ensures { OnOk result (text.new ≡ text.old ++ flat_map (entry_text board.now.parts) entries.now) }
{
    for entry in entries {
        push_entry(text, board, entry)?;
    }
    Ok(())
}

#[tactic(auto, unfolding(crate::specs::Texts::cert_text))]
fn push_cert(text: &mut List<u8>, board: &Board, cert: &Cert) -> Result<(), NoMemory>
    requires { IsRegularCert board.now.parts cert.now }
    ensures { OnOk result (text.new ≡ text.old ++ cert_text board.now.parts cert.now) }
{
    push_cert_line(text, cert.bound, cert.entries.len() as u64)?;
    push_entries(text, board, cert.entries.as_slice())
}

/// Adds the lines of a certificate; none in a quiet text.
pub fn push_shown_cert(
    text: &mut List<u8>,
    board: &Board,
    cert: &Cert,
    quiet: bool,
) -> Result<(), NoMemory>
    requires { IsRegularCert board.now.parts cert.now }
    ensures { OnOk result (text.new ≡ text.old ++ shown_cert_text board.now.parts quiet cert.now) }
{
    if quiet {
        return Ok(());
    }
    push_cert(text, board, cert)
}
