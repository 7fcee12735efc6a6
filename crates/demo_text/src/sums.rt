//! Sums over what came of each net.
ghost use Rattle.std.specs.Prelude.{◌≡◌, ◌<◌, ◌≤◌, ◌^◌};
ghost use Rattle.demo_text.specs.Bounds.{AreCounted, HasPricedLegs, IsCounted};
ghost use Rattle.demo_text.specs.Summary.{cost_in, cost_of, cost_of_net, made_in, missing_in};

use route_law::{Made1, Routed};

/// How many connections were made.
pub fn made_in(nets: &[Routed]) -> u64
    requires { AreCounted nets.now }
    ensures { result ≡ made_in nets.now }
{
    let mut made = 0;
    for net in nets {
        made += net.made.len() as u64;
    }
    made
}

/// How many connections were missing.
pub fn missing_in(nets: &[Routed]) -> u64
    requires { AreCounted nets.now }
    ensures { result ≡ missing_in nets.now }
{
    let mut missing = 0;
    for net in nets {
        missing += net.missing;
    }
    missing
}

/// What a connection costs, in micrometres of wire.
fn cost_of(made: &Made1) -> u128
    requires { HasPricedLegs made.now }
    ensures exact { result ≡ cost_of made.now }
    ensures small { result < 2 ^ 89 }
{
    // A list has fewer than 2^63 items, which bounds the cost.
    let _legs = made.conn.legs.items.len();
    made.conn.cost
}

/// What the connections of one net cost together, in micrometres of wire.
fn cost_of_net(net: &Routed) -> u128
    requires { IsCounted net.now }
    ensures exact { result ≡ cost_of_net net.now }
    ensures small { result ≤ 2 ^ 104 }
{
    let mut cost = 0;
    for made in net.made.as_slice() {
        cost += cost_of(made);
    }
    cost
}

/// What the connections that were made cost together, in micrometres of wire: the sum over what came
/// of some nets of a board, of which no more are told than a board may have.
pub fn cost_in(nets: &[Routed]) -> u128
    requires { AreCounted nets.now }
    ensures { result ≡ cost_in nets.now }
{
    let mut sum = 0;
    for net in nets {
        sum += cost_of_net(net);
    }
    sum
}
