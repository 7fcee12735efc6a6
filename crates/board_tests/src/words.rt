//! Words that ask for something, and words that ask for nothing.

use call_words::{Request, request_of};
use std::alloc::Global;
use std::test::Fail;

/// The words of a line.
fn words_of(alloc: Global, line: &str) -> Result<Vec<String>, Fail> {
    let mut words = Vec::new(alloc);
    for word in line.split_whitespace() {
        words.push(String::from_str(alloc, word)?)?;
    }
    Ok(words)
}

#[test]
fn words_ask_for_something_or_nothing(rt: HostRuntime) -> Result<(), Fail> {
    let rows: [(&str, bool); 14] = [
        ("run", true),
        ("run --quiet", true),
        ("run --loud", false),
        ("gen 2000", true),
        ("gen 2001", false),
        ("gen 007", false),
        ("fill a top 0 0 20 16", true),
        ("fill a top 0 0 20", false),
        ("fill a -top 0 0 20 16", false),
        ("through a b c", true),
        ("through a", false),
        ("auto 100", true),
        ("auto 0", false),
        ("", false),
    ];
    for (line, asks) in rows {
        let words = words_of(rt.alloc(), line)?;
        assert_eq!(rt; request_of(&words).is_some(), asks, "{line}");
    }
    Ok(())
}

#[test]
fn a_number_is_asked_for(rt: HostRuntime) -> Result<(), Fail> {
    let words = words_of(rt.alloc(), "gen 2000")?;
    let Some(Request::Gen(nets)) = request_of(&words) else {
        return Err("no board is asked for".into());
    };
    assert_eq!(rt; nets, 2000);
    Ok(())
}

/// Whether a net is asked to be routed through so many others.
fn asks_through(alloc: Global, others: u32) -> Result<bool, Fail> {
    let mut line = String::from_str(alloc, "through a")?;
    for number in 0..others {
        line.push_str(&format!(in alloc; " b{number}")?)?;
    }
    let words = words_of(alloc, &line)?;
    Ok(request_of(&words).is_some())
}

#[test]
fn a_net_goes_through_64_others_at_most(rt: HostRuntime) -> Result<(), Fail> {
    for (others, asks) in [(1, true), (64, true), (65, false)] {
        assert_eq!(rt; asks_through(rt.alloc(), others)?, asks, "{others}");
    }
    Ok(())
}
