//! Calls of the program over streams in memory, and the replies to `rules` and `strips`.

use contour_core::{Status, contour};
use io_edge::{MemSink, MemSource};
use std::alloc::Global;
use std::process::Abort;
use std::test::Fail;

pub const PLAIN: &str = "board 1 demo 40 20
layer top
class sig
rule top sig 1 2
block top 18 0 22 14
net a sig
pin a 4 9 6 11 top top
pin a 34 9 36 11 top top
end
rules
";

const CLOSE: &str = "board 1 demo 40 20
layer top
class sig
rule top sig 1 2
block top 18 0 22 14
net a sig
net b sig
pin a 23 5 23 5 top top
pin b 24 5 24 5 top top
end
rules
";

const CLOSE_REPLY: &str = "rules 2
close top block 18 0 22 14 net a 23 5 23 5
close top net a 23 5 23 5 net b 24 5 24 5
";

const STRIPS_REPLY: &str = "strips top sig 16
many 0 0 40 0
many 0 1 0 19
free 1 1 15 6
many 16 1 24 16
free 25 1 39 6
many 40 1 40 19
free 1 7 1 13
one a 2 7 8 13
free 9 7 15 13
free 25 7 31 13
one a 32 7 38 13
free 39 7 39 13
free 1 14 15 16
free 25 14 39 16
free 1 17 39 19
many 0 20 40 20
";

/// A text with one of its lines, counted from 1, replaced or, by an empty text, left out.
pub fn with_line(alloc: Global, text: &str, number: usize, line: &str) -> Result<String, Fail> {
    let mut changed = String::new(alloc);
    for (i, old) in text.lines().enumerate() {
        let kept = if i + 1 == number { line } else { old };
        if !kept.is_empty() {
            changed.push_str(kept)?;
            changed.push_str("\n")?;
        }
    }
    Ok(changed)
}

/// The first lines of a text.
pub fn first_lines(alloc: Global, text: &str, count: usize) -> Result<String, Fail> {
    let mut first = String::new(alloc);
    for line in text.lines().take(count) {
        first.push_str(line)?;
        first.push_str("\n")?;
    }
    Ok(first)
}

/// Runs the program over these streams.
pub fn ended(
    alloc: Global,
    words: &[&str],
    source: &mut MemSource,
    out: &mut MemSink,
    err: &mut MemSink,
) -> Result<Status, Fail> {
    let mut all = Vec::new(alloc);
    for word in words {
        all.push(String::from_str(alloc, word)?)?;
    }
    Ok(contour(alloc, all.as_slice(), source, out, err))
}

/// Runs the program over these streams and looks at its status and its line on standard error.
pub fn expect_told(
    rt: &(impl Abort + AllocGlobal),
    words: &[&str],
    source: &mut MemSource,
    out: &mut MemSink,
    status: Status,
    err: &str,
) -> Result<(), Fail> {
    let mut told = MemSink::new(rt.alloc(), 64, 64, &[])?;
    let ended = ended(rt.alloc(), words, source, out, &mut told)?;
    assert_eq!(rt; ended, status, "{words:?}");
    assert_eq!(rt; told.held.as_slice(), err.as_bytes());
    Ok(())
}

/// Runs the program on this source and looks at its status, its output and its line on standard error.
pub fn expect_from(
    rt: &(impl Abort + AllocGlobal),
    words: &[&str],
    source: &mut MemSource,
    status: Status,
    out: &str,
    err: &str,
) -> Result<(), Fail> {
    let mut output = MemSink::new(rt.alloc(), 16384, 4096, &[])?;
    expect_told(rt, words, source, &mut output, status, err)?;
    assert_eq!(rt; output.held.as_slice(), out.as_bytes());
    Ok(())
}

/// Runs the program on this text, into this sink, and looks at its status and its line on standard error.
pub fn expect_into(
    rt: &(impl Abort + AllocGlobal),
    words: &[&str],
    text: &[u8],
    out: &mut MemSink,
    status: Status,
    err: &str,
) -> Result<(), Fail> {
    let mut source = MemSource::new(rt.alloc(), text, 4096, &[])?;
    expect_told(rt, words, &mut source, out, status, err)
}

/// Runs the program on this text and looks at its status, its output and its line on standard error.
pub fn expect(
    rt: &(impl Abort + AllocGlobal),
    words: &[&str],
    text: &str,
    status: Status,
    out: &str,
    err: &str,
) -> Result<(), Fail> {
    let mut source = MemSource::new(rt.alloc(), text.as_bytes(), 4096, &[])?;
    expect_from(rt, words, &mut source, status, out, err)
}

#[test]
fn the_rules_are_answered(rt: HostRuntime) -> Result<(), Fail> {
    let alloc = rt.alloc();
    let run = ["run"];
    expect(&rt, &run, CLOSE, Status::Done, CLOSE_REPLY, "")?;
    expect(&rt, &run, PLAIN, Status::Done, "rules 0\n", "")?;

    // Exactly at the gap.
    let apart = with_line(alloc, CLOSE, 8, "pin a 24 5 24 5 top top")?;
    let apart = with_line(alloc, apart.as_str(), 9, "pin b 26 5 26 5 top top")?;
    expect(&rt, &run, apart.as_str(), Status::Done, "rules 0\n", "")?;

    // As often as is asked, and never where it is not.
    let mut twice = with_line(alloc, PLAIN, 1, "board 1 demo 40 20")?;
    twice.push_str("# again\n\nrules")?;
    expect(
        &rt,
        &run,
        twice.as_str(),
        Status::Done,
        "rules 0\nrules 0\n",
        "",
    )?;
    let never = first_lines(alloc, PLAIN, 9)?;
    expect(&rt, &run, never.as_str(), Status::Done, "", "")
}

#[test]
fn the_strips_of_a_plane_are_listed(rt: HostRuntime) -> Result<(), Fail> {
    let asked = with_line(rt.alloc(), PLAIN, 10, "strips top sig")?;
    expect(
        &rt,
        &["run"],
        asked.as_str(),
        Status::Done,
        STRIPS_REPLY,
        "",
    )
}

#[test]
fn small_pieces_change_no_input(rt: HostRuntime) -> Result<(), Fail> {
    let mut source = MemSource::new(rt.alloc(), CLOSE.as_bytes(), 7, &[])?;
    expect_from(&rt, &["run"], &mut source, Status::Done, CLOSE_REPLY, "")
}

#[test]
fn small_pieces_change_no_output(rt: HostRuntime) -> Result<(), Fail> {
    let mut out = MemSink::new(rt.alloc(), 4096, 5, &[])?;
    expect_into(&rt, &["run"], CLOSE.as_bytes(), &mut out, Status::Done, "")?;
    assert_eq!(rt; out.held.as_slice(), CLOSE_REPLY.as_bytes());
    Ok(())
}
