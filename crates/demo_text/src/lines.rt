ghost use Rattle.std.specs.Prelude.{◌≡◌, ◌++◌, IfOk, OnOk, decimal};
ghost use Rattle.demo_text.specs.Bounds.{IsReplyTo};
ghost use Rattle.demo_text.specs.Summary.{found_by, nets_of, summary};

use crate::sums::{cost_in, made_in, missing_in};
use board_model::{Command, Violation};
use geo_rect::{List, NoMemory};
use itoa::Buffer;
use route_law::{Reply, Routed};
use std::alloc::Global;

/// Adds these bytes and then a number, in decimal.
fn push_number(text: &mut List<u8>, before: &[u8], number: u128) -> Result<(), NoMemory>
    ensures { OnOk result (text.new ≡ text.old ++ before.now ++ decimal number) }
{
    let mut buffer = Buffer::new();
    text.extend_from_slice(before)?;
    text.extend_from_slice(buffer.format(number).as_bytes())
}

/// What came of each net, in the reply to `all`.
fn nets_of(reply: &Reply) -> &[Routed]
    ensures { result.now ≡ nets_of reply.now }
{
    match reply {
        Reply::All(nets) => nets.as_slice(),
        _ => &[],
    }
}

/// The violations in the reply to `rules`.
fn found_by(reply: &Reply) -> &[Violation]
    ensures { result.now ≡ found_by reply.now }
{
    match reply {
        Reply::Rules(found) => found.as_slice(),
        _ => &[],
    }
}

/// The line that sums up a demonstration of `n` nets, from the replies to `all` and to `rules`.
#[tactic(auto, unfolding(crate::specs::Summary::summary))]
pub fn summary(alloc: Global, n: u32, all: &Reply, rules: &Reply) -> Result<List<u8>, NoMemory>
    requires { IsReplyTo Command.All all.now }
    ensures { IfOk result (λ text. text ≡ summary n all.now rules.now) }
{
    let nets = nets_of(all);
    let mut text = List::new(alloc);
    push_number(&mut text, b"demo ", u128::from(n))?;
    push_number(&mut text, b" made ", u128::from(made_in(nets)))?;
    push_number(&mut text, b" of ", u128::from(missing_in(nets)))?;
    push_number(&mut text, b" cost ", cost_in(nets))?;
    push_number(&mut text, b" close ", found_by(rules).len() as u128)?;
    text.extend_from_slice(b"\n")?;
    Ok(text)
}
