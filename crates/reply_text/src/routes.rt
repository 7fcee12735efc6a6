ghost use Rattle.std.specs.Prelude.{◌≡◌, ◌++◌, OnOk, All};
ghost use Rattle.std.specs.Option.{ForSome};
ghost use Rattle.route_law.specs.declared.replies.Fail.{Fail as TheFail};
ghost use Rattle.std.specs.List.{flat_map};
ghost use Rattle.route_law.specs.Regular.{IsNetOf, IsRegularMade, IsRegularCert, IsRegularRouted};
ghost use Rattle.reply_text.specs.Texts.{made_text, none_line, rest_text, route_line, routed_text};

use crate::certs::push_shown_cert;
use crate::conns::push_conn;
use crate::words::{push_count, push_name};
use board_model::Board;
use geo_rect::{List, NetId, NoMemory};
use route_law::{Fail, Made1, Routed};

#[tactic(auto, unfolding(crate::specs::Texts::route_line))]
fn push_route_line(
    text: &mut List<u8>,
    board: &Board,
    net: NetId,
    made: u64,
    missing: u64,
) -> Result<(), NoMemory>
    requires { IsNetOf board.now.parts net }
    ensures { OnOk result (text.new ≡ text.old ++ route_line board.now.parts net made missing) }
{
    push_name(text, b"route ", board.net_name(net))?;
    push_count(text, b" made ", made)?;
    push_count(text, b" of ", missing)?;
    text.extend_from_slice(b"\n")
}

#[tactic(auto, unfolding(crate::specs::Texts::made_text))]
fn push_made(text: &mut List<u8>, board: &Board, made: &Made1, quiet: bool) -> Result<(), NoMemory>
    requires { IsRegularMade board.now.parts made.now }
    ensures { OnOk result (text.new ≡ text.old ++ made_text board.now.parts quiet made.now) }
{
    push_conn(text, board, made.number, &made.conn)?;
    push_shown_cert(text, board, &made.cert, quiet)
}

fn push_each_made(
    text: &mut List<u8>,
    board: &Board,
    all: &[Made1],
    quiet: bool,
) -> Result<(), NoMemory>
    requires { All (IsRegularMade board.now.parts) all.now }
    ensures { OnOk result (text.new ≡ text.old ++ flat_map (made_text board.now.parts quiet) all.now) }
{
    for made in all {
        push_made(text, board, made, quiet)?;
    }
    Ok(())
}

#[tactic(auto, unfolding(crate::specs::Texts::none_line))]
fn push_none_line(text: &mut List<u8>, number: u64) -> Result<(), NoMemory>
    ensures { OnOk result (text.new ≡ text.old ++ none_line number) }
{
    push_count(text, b"none ", number)?;
    text.extend_from_slice(b"\n")
}

fn push_rest(
    text: &mut List<u8>,
    board: &Board,
    rest: &Option<Fail>,
    quiet: bool,
) -> Result<(), NoMemory>
    requires { ForSome rest.now (λ (f : TheFail). IsRegularCert board.now.parts f.cert) }
    ensures { OnOk result (text.new ≡ text.old ++ rest_text board.now.parts quiet rest.now) }
{
    match rest {
        None => Ok(()),
        Some(fail) => {
            push_none_line(text, fail.number)?;
            push_shown_cert(text, board, &fail.cert, quiet)
        }
    }
}

/// Adds the lines of what came of a net.
#[tactic(auto, unfolding(crate::specs::Texts::routed_text))]
pub fn push_routed(
    text: &mut List<u8>,
    board: &Board,
    routed: &Routed,
    quiet: bool,
) -> Result<(), NoMemory>
    requires { IsRegularRouted board.now.parts routed.now }
    ensures { OnOk result (text.new ≡ text.old ++ routed_text board.now.parts quiet routed.now) }
{
    push_route_line(
        text,
        board,
        routed.net,
        routed.made.len() as u64,
        routed.missing,
    )?;
    push_each_made(text, board, routed.made.as_slice(), quiet)?;
    push_rest(text, board, &routed.none, quiet)
}
