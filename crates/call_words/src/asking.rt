//! The words of a call, and what they ask for.

ghost use Rattle.std.specs.Prelude.{◌≡◌, ◌∷◌, [], ℕ, List, map, string_bytes, MatchOption};
ghost use Rattle.call_words.specs.declared.verbs.Verb.{Verb};
ghost use Rattle.call_words.specs.Requests.{IsRequestOf, IsNoRequest, asked_by};
ghost use Rattle.call_words.specs.Verbs.{word_of, NoneWith};

use crate::names::{are_others, is_call_name};
use crate::parts::{corners_of, lone_count, lone_name, quiet_of};
use crate::requests::{Report, Request, Sequel};
use crate::verbs::{Verb, verb_of};

/// The greatest number of nets of a generated board.
const MAX_SIZE: u32 = 2000;

/// The greatest number of rounds of routing.
const MAX_ROUNDS: u32 = 100;

/// The request, where there are no words behind the first.
fn alone<'a>(words: &[String], request: Request<'a>) -> Option<Request<'a>>
    ensures { MatchOption result ([] ≡ map string_bytes words.now → ⊥)
        (λ r. (asked_by r ≡ asked_by request.entry) × ([] ≡ map string_bytes words.now)) }
{
    if words.is_empty() {
        return Some(request);
    }
    None
}

/// The request of a fill with these words behind the first.
fn filling_of(words: &[String]) -> Option<Request<'_>>
    ensures { MatchOption result (NoneWith Verb.Fill (map string_bytes words.now))
        (λ r. IsRequestOf (word_of Verb.Fill ∷ map string_bytes words.now) (asked_by r)) }
{
    let [net, layer, rest @ ..] = words else {
        return None;
    };
    if !is_call_name(net.as_str()) {
        return None;
    }
    if !is_call_name(layer.as_str()) {
        return None;
    }
    let corners = corners_of(rest)?;
    Some(Request::Reporting(Report::Fill {
        net: net.as_str(),
        layer: layer.as_str(),
        corners,
    }))
}

/// The request to route a net through others with these words behind the first.
fn through_of(words: &[String]) -> Option<Request<'_>>
    ensures { MatchOption result (NoneWith Verb.Through (map string_bytes words.now))
        (λ r. IsRequestOf (word_of Verb.Through ∷ map string_bytes words.now) (asked_by r)) }
{
    let [net, others @ ..] = words else {
        return None;
    };
    if !is_call_name(net.as_str()) {
        return None;
    }
    if !are_others(others) {
        return None;
    }
    Some(Request::Following(Sequel::Through {
        net: net.as_str(),
        others,
    }))
}

/// The request of this first word with these words behind it.
fn asked_with(verb: Verb, words: &[String]) -> Option<Request<'_>>
    ensures { MatchOption result (NoneWith verb (map string_bytes words.now))
        (λ r. IsRequestOf (word_of verb ∷ map string_bytes words.now) (asked_by r)) }
{
    match verb {
        Verb::Run => Some(Request::Run {
            quiet: quiet_of(words)?,
        }),
        Verb::Check => alone(words, Request::Check),
        Verb::Upgrade => alone(words, Request::Upgrade),
        Verb::Gen => Some(Request::Gen(lone_count(words, MAX_SIZE)?)),
        Verb::Demo => Some(Request::Demo(lone_count(words, MAX_SIZE)?)),
        Verb::Fill => filling_of(words),
        Verb::Gerber => Some(Request::Reporting(Report::Gerber {
            layer: lone_name(words)?,
        })),
        Verb::Trace => alone(words, Request::Reporting(Report::Trace)),
        Verb::Through => through_of(words),
        Verb::Auto => Some(Request::Following(Sequel::Auto {
            rounds: lone_count(words, MAX_ROUNDS)?,
        })),
    }
}

/// The request that these words make, the words of the command line without the program's own name.
/// `None` where they make none. It takes no memory.
pub fn request_of(words: &[String]) -> Option<Request<'_>>
    ensures { MatchOption result (IsNoRequest (map string_bytes words.now))
        (λ r. IsRequestOf (map string_bytes words.now) (asked_by r)) }
{
    let [first, rest @ ..] = words else {
        return None;
    };
    let verb = verb_of(first.as_str())?;
    asked_with(verb, rest)
}
