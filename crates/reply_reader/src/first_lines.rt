ghost use Rattle.std.specs.Prelude.{◌≡◌, ◌<◌, ◌+◌, ◌^◌, ℕ, length, decimal, codes, IfSome, IfNone};
ghost use Rattle.geo_rect.specs.declared.ids.ClassId.{ClassId};
ghost use Rattle.geo_rect.specs.declared.ids.LayerId.{LayerId};
ghost use Rattle.geo_rect.specs.declared.ids.NetId.{NetId};
ghost use Rattle.route_law.specs.Routing.{conns_needed};
ghost use Rattle.reply_reader.specs.declared.heads.Head.{Head};
ghost use Rattle.reply_reader.specs.declared.heads.Head.TheVariants as head;
ghost use Rattle.reply_reader.specs.declared.heads.NoneHead.{NoneHead};
ghost use Rattle.reply_reader.specs.declared.heads.RouteHead.{RouteHead};
ghost use Rattle.reply_reader.specs.Said.{none_head, none_head_words, IsNoneHeadAt, route_head, route_head_words, IsNetAt, IsRouteHeadAt, head_line, head_words, IsAllAt, IsRipAt, IsShowAt, IsRulesAt, IsStripsAt, IsHeadAt};

use crate::fields::{class, count, is_form, is_word, layer, net};
use crate::heads::{Head, NoneHead, RouteHead};
use crate::parts::Line;
use crate::words::Words;
use board_model::Board;
use geo_rect::NetId;

fn none_head(words: &Words) -> Option<NoneHead>
    ensures some { IfSome result (λ h. IsNoneHeadAt words.now h) }
    ensures none { IfNone result ((h : NoneHead) → IsNoneHeadAt words.now h → ⊥) }
{
    if !is_form(words, b"none", 2) {
        return None;
    }
    let number = count(words, 1)?;
    Some(NoneHead { number })
}

impl Line for NoneHead {
    ghost part = { λ b. none_head };

    ghost spelling = { λ b. none_head_words };

    fn of_words(_board: &Board, words: &Words) -> Option<NoneHead> {
        none_head(words)
    }
}

fn route_head(board: &Board, words: &Words) -> Option<RouteHead>
    ensures some { IfSome result (λ h. IsRouteHeadAt board.now.parts words.now h) }
    ensures none { IfNone result ((h : RouteHead) → IsRouteHeadAt board.now.parts words.now h → ⊥) }
{
    if !is_form(words, b"route", 6) {
        return None;
    }
    if !is_word(words, 2, b"made") {
        return None;
    }
    if !is_word(words, 4, b"of") {
        return None;
    }
    let net = net(board, words, 1)?;
    let made = count(words, 3)?;
    let missing = count(words, 5)?;
    if made > missing {
        return None;
    }
    Some(RouteHead { net, made, missing })
}

impl Line for RouteHead {
    ghost part = { route_head };

    ghost spelling = { route_head_words };

    fn of_words(board: &Board, words: &Words) -> Option<RouteHead> {
        route_head(board, words)
    }
}

fn all_head(board: &Board, words: &Words) -> Option<u64>
    ensures some { IfSome result (λ n. IsAllAt board.now.parts words.now n) }
    ensures none { IfNone result ((n : ℕ) → IsAllAt board.now.parts words.now n → ⊥) }
{
    if !is_form(words, b"all", 2) {
        return None;
    }
    let nets = count(words, 1)?;
    if nets > 0 && board.nets() == 0 {
        return None;
    }
    Some(nets)
}

fn rip_head(board: &Board, words: &Words) -> Option<Head>
    ensures some { IfSome result (λ h. IsHeadAt board.now.parts words.now h) }
    ensures none { IfNone result ((n : NetId) (removed : ℕ) → IsRipAt board.now.parts words.now n removed → ⊥) }
{
    if !is_form(words, b"rip", 4) {
        return None;
    }
    if !is_word(words, 2, b"removed") {
        return None;
    }
    let net = net(board, words, 1)?;
    let removed = count(words, 3)?;
    Some(Head::Rip(net, removed))
}

/// How many connections the net has in all when none is missing.
fn conns_needed(board: &Board, net: NetId) -> u64
    ensures { result ≡ conns_needed board.now.parts net }
{
    u64::from(board.pin_count(net)).saturating_sub(1)
}

fn show_head(board: &Board, words: &Words) -> Option<Head>
    ensures some { IfSome result (λ h. IsHeadAt board.now.parts words.now h) }
    ensures none { IfNone result ((n : NetId) (needed conns : ℕ) → IsShowAt board.now.parts words.now n needed conns → ⊥) }
{
    if !is_form(words, b"show", 5) {
        return None;
    }
    if !is_word(words, 3, b"of") {
        return None;
    }
    let net = net(board, words, 1)?;
    let conns = count(words, 2)?;
    let needed = count(words, 4)?;
    if needed != conns_needed(board, net) {
        return None;
    }
    Some(Head::Show(net, needed, conns))
}

fn rules_head(words: &Words) -> Option<u64>
    ensures some { IfSome result (λ n. IsRulesAt words.now n) }
    ensures none { IfNone result ((n : ℕ) → IsRulesAt words.now n → ⊥) }
{
    if !is_form(words, b"rules", 2) {
        return None;
    }
    count(words, 1)
}

fn strips_head(board: &Board, words: &Words) -> Option<Head>
    ensures some { IfSome result (λ h. IsHeadAt board.now.parts words.now h) }
    ensures none { IfNone result ((l : LayerId) (c : ClassId) (strips : ℕ) → IsStripsAt board.now.parts words.now l c strips → ⊥) }
{
    if !is_form(words, b"strips", 4) {
        return None;
    }
    let layer = layer(board, words, 1)?;
    let class = class(board, words, 2)?;
    let strips = count(words, 3)?;
    Some(Head::Strips(layer, class, strips))
}

/// The first line of a reply that tells of connections.
fn net_head(board: &Board, words: &Words) -> Option<Head>
    ensures some { IfSome result (λ h. IsHeadAt board.now.parts words.now h) }
    ensures route { IfNone result ((h : RouteHead) → IsRouteHeadAt board.now.parts words.now h → ⊥) }
    ensures all { IfNone result ((n : ℕ) → IsAllAt board.now.parts words.now n → ⊥) }
    ensures rip { IfNone result ((n : NetId) (removed : ℕ) → IsRipAt board.now.parts words.now n removed → ⊥) }
{
    if let Some(routed) = route_head(board, words) {
        return Some(Head::Route(routed));
    }
    if let Some(nets) = all_head(board, words) {
        return Some(Head::All(nets));
    }
    rip_head(board, words)
}

/// The first line of a reply that tells of a state.
fn state_head(board: &Board, words: &Words) -> Option<Head>
    ensures some { IfSome result (λ h. IsHeadAt board.now.parts words.now h) }
    ensures show { IfNone result ((n : NetId) (needed conns : ℕ) → IsShowAt board.now.parts words.now n needed conns → ⊥) }
    ensures rules { IfNone result ((n : ℕ) → IsRulesAt words.now n → ⊥) }
    ensures strips { IfNone result ((l : LayerId) (c : ClassId) (strips : ℕ) → IsStripsAt board.now.parts words.now l c strips → ⊥) }
{
    if let Some(violations) = rules_head(words) {
        return Some(Head::Rules(violations));
    }
    if let Some(head) = show_head(board, words) {
        return Some(head);
    }
    strips_head(board, words)
}

fn head(board: &Board, words: &Words) -> Option<Head>
    ensures some { IfSome result (λ h. IsHeadAt board.now.parts words.now h) }
    ensures none { IfNone result ((h : Head) → IsHeadAt board.now.parts words.now h → ⊥) }
{
    if let Some(head) = net_head(board, words) {
        return Some(head);
    }
    state_head(board, words)
}

impl Line for Head {
    ghost part = { head_line };

    ghost spelling = { head_words };

    fn of_words(board: &Board, words: &Words) -> Option<Head> {
        head(board, words)
    }
}
