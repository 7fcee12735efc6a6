//! The text of rounds of routing.

ghost use Rattle.std.specs.Prelude.{◌≡◌, ◌<◌, ◌≤◌, ◌++◌, length, true, All, IfOk, OnOk};
ghost use Rattle.std.specs.List.{flat_map};
ghost use Rattle.reply_text.specs.Texts.{reply_text, routed_text};
ghost use Rattle.route_law.specs.Kept.{IsState};
ghost use Rattle.route_law.specs.Regular.{IsRegularRouted};
ghost use Rattle.auto_route.specs.Best.{IsBestRound, complete_in, round_at};
ghost use Rattle.auto_route.specs.Rounds.{AreRounds};
ghost use Rattle.auto_route.specs.States.{last_state};
ghost use Rattle.auto_route.specs.Texts.{auto_text, best_line, round_line, round_text, rounds_text, show_of, shows_text};

use crate::ranks::complete_in;
use crate::told::Auto;
use board_model::{Board, Made};
use demo_text::cost_in;
use geo_rect::{List, NetId, NoMemory};
use reply_text::{push_cost, push_count, push_routed, push_show};
use route_law::Routed;
use session_core::items_of;
use std::alloc::Global;

#[tactic(auto, unfolding(crate::specs::Texts::round_line))]
fn push_round_line(text: &mut List<u8>, number: u64) -> Result<(), NoMemory>
    ensures { OnOk result (text.new ≡ text.old ++ round_line number) }
{
    push_count(text, b"round ", number)?;
    text.extend_from_slice(b"\n")
}

fn push_round(
    text: &mut List<u8>,
    board: &Board,
    number: u64,
    round: &[Routed],
) -> Result<(), NoMemory>
    requires { All (IsRegularRouted board.now.parts) round.now }
    ensures { OnOk result (text.new ≡ text.old ++ round_text board.now.parts number round.now) }
{
    push_round_line(text, number)?;
    push_nets(text, board, round)
}

fn push_nets(text: &mut List<u8>, board: &Board, round: &[Routed]) -> Result<(), NoMemory>
    requires { All (IsRegularRouted board.now.parts) round.now }
    ensures { OnOk result (text.new ≡ text.old ++ flat_map (routed_text board.now.parts true) round.now) }
{
    for routed in round {
        push_routed(text, board, routed, true)?;
    }
    Ok(())
}

fn push_rounds(text: &mut List<u8>, board: &Board, rounds: &[List<Routed>]) -> Result<(), NoMemory>
    requires { All (All (IsRegularRouted board.now.parts)) rounds.now }
    ensures { OnOk result (text.new ≡ text.old ++ rounds_text board.now.parts 1 rounds.now) }
{
    let mut number = 0;
    for round in rounds {
        number += 1;
        push_round(text, board, number, round.as_slice())?;
    }
    Ok(())
}

#[tactic(auto, unfolding(crate::specs::Texts::best_line))]
fn push_best_line(
    text: &mut List<u8>,
    number: u64,
    complete: u64,
    nets: u64,
    cost: u128,
) -> Result<(), NoMemory>
    ensures { OnOk result (text.new ≡ text.old ++ best_line number complete nets cost) }
{
    push_count(text, b"best ", number)?;
    push_count(text, b" made ", complete)?;
    push_count(text, b" of ", nets)?;
    push_cost(text, b" cost ", cost)?;
    text.extend_from_slice(b"\n")
}

fn push_net_shown(
    alloc: Global,
    text: &mut List<u8>,
    board: &Board,
    made: &Made,
    net: NetId,
) -> Result<(), NoMemory>
    requires state { IsState board.now.parts made.now.lists }
    requires net { net.0 < length board.now.parts.net_names }
    ensures { OnOk result (text.new ≡ text.old ++ reply_text board.now.parts true (show_of board.now.parts made.now.lists net)) }
{
    let needed = board.pin_count(net).saturating_sub(1) as u64;
    let items = items_of(alloc, made.conns(net))?;
    push_show(text, board, net, needed, items.as_slice())
}

fn push_shows(
    alloc: Global,
    text: &mut List<u8>,
    board: &Board,
    made: &Made,
) -> Result<(), NoMemory>
    requires { IsState board.now.parts made.now.lists }
    ensures { OnOk result (text.new ≡ text.old ++ shows_text board.now.parts made.now.lists) }
{
    for number in 0..board.nets() {
        push_net_shown(alloc, text, board, made, NetId(number))?;
    }
    Ok(())
}

/// The text of rounds of routing, where the best one has led to what is made: each round without its
/// certificates, the line on the best one, and the reply to `show` for each net in the order of the
/// text.
pub fn auto_text(
    alloc: Global,
    board: &Board,
    made: &Made,
    told: &Auto,
) -> Result<List<u8>, NoMemory>
    requires few { length told.now.rounds ≤ 100 }
    requires rounds { AreRounds board.now.parts told.now.rounds }
    requires best { IsBestRound board.now.parts told.now.rounds told.now.best }
    requires regular { All (All (IsRegularRouted board.now.parts)) told.now.rounds }
    requires state { IsState board.now.parts made.now.lists }
    requires lists { made.now.lists ≡ last_state board.now.parts (round_at told.now.rounds told.now.best) }
    ensures { IfOk result (λ text. text ≡ auto_text board.now.parts made.now.lists told.now) }
{
    let mut text = List::new(alloc);
    push_rounds(&mut text, board, told.rounds.as_slice())?;
    push_best_line(
        &mut text,
        told.best as u64,
        complete_in(board, made) as u64,
        board.nets() as u64,
        cost_in(told.best_round()),
    )?;
    push_shows(alloc, &mut text, board, made)?;
    Ok(text)
}
