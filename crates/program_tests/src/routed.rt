//! Routing from bytes to bytes: costs and replies that were worked out by hand.

use crate::boards::{add, changed};
use crate::calls::{expect, expect_into};
use crate::connector::CONNECTOR;
use contour_core::Status;
use io_edge::MemSink;
use std::alloc::Global;
use std::process::Abort;
use std::str::from_utf8;
use std::test::Fail;

/// The cases, one a line: the lines of the small board for which a text stands, from the first to the
/// last; the text; and what the lines of the output have, in this order. A semicolon ends a line.
const FOUND: &str =
    "10 10|route a;|route a made 1 of 1;conn 1 40 ;cert 40 ;src 0 top 2 7 8 13 4 9 6 11 0
10 10|route a;route a;rip a;rip a;show a;all;rip a;|route a made 1 of 1;conn 1 40 ;route a made 0 of 0;rip a removed 1;rip a removed 0;show a 0 of 1;all 1;route a made 1 of 1;conn 1 40 ;rip a removed 1
10 10|all;|all 1;route a made 1 of 1;conn 1 40 ;cert 40 
10 10|route a;show a;|conn 1 40 ;cert 40 ;show a 1 of 1;conn 1 40 
5 10|block top 18 0 22 16;net a sig;pin a 4 9 6 11 top top;pin a 34 9 36 11 top top;end;route a;|conn 1 44 ;cert 44 
5 10|block top 18 0 22 17;net a sig;pin a 4 9 6 11 top top;pin a 34 9 36 11 top top;end;route a;|route a made 0 of 1;none 1;cert - ;src 0 top 2 7 8 13 4 9 6 11 0
5 10|net a sig;pin a 4 9 6 11 top top;pin a 34 9 36 11 top top;end;route a;|conn 1 28 ;cert 28 
5 10|net a sig;pin a 4 9 6 11 top top;pin a 6 11 9 13 top top;end;route a;|conn 1 0 0;at 6 11 top;cert 0 
2 10|layer top;layer bot;class sig;rule top sig 1 2;viakind v top bot 5;pad v sig 1;rule bot sig 1 2;block top 18 0 22 14;net a sig;pin a 4 9 6 11 top top;pin a 34 9 36 11 top top;end;route a;|conn 1 38 ;via v ;via v ;cert 38 
2 10|layer top;layer bot;class sig;rule top sig 1 2;viakind v top bot 6;pad v sig 1;rule bot sig 1 2;block top 18 0 22 14;net a sig;pin a 4 9 6 11 top top;pin a 34 9 36 11 top top;end;route a;|conn 1 40 ;cert 40 
2 10|layer top;layer bot;class sig;rule top sig 1 2;viakind v top bot 7;pad v sig 1;rule bot sig 1 2;block top 18 0 22 14;net a sig;pin a 4 9 6 11 top top;pin a 34 9 36 11 top top;end;route a;|conn 1 40 ;cert 40 
2 10|layer top;layer bot;class sig;rule top sig 1 2;rule bot sig 1 2;viakind v top bot 5;pad v sig 2;block bot 5 8 14 12;net a sig;pin a 10 10 10 10 top top;pin a 17 10 17 10 bot bot;end;route a;|conn 1 14 3;to 18 10 top;via v 18 10 bot;to 17 10 bot;cert 14 
5 10|block top 10 8 30 10;net a sig;pin a 18 3 18 3 top top;pin a 30 16 30 16 top top;end;route a;|conn 1 31 ;cert 31 ; top 1 13 39 13 
5 10|block top 10 6 30 6;block top 0 14 30 14;net a sig;pin a 18 2 18 2 top top;pin a 20 18 20 18 top top;end;route a;|conn 1 44 ;cert 44 ; top 1 9 39 11 7 9 7 9 18; top 1 9 39 11 33 9 33 9 22
5 10|block top 18 0 22 20;net a sig;net b sig;pin a 4 9 6 11 top top;pin a 34 9 36 11 top top;pin b 4 4 4 4 top top;pin b 10 4 10 4 top top;end;all;|all 2;route a made 0 of 1;none 1;cert - ;route b made 1 of 1;conn 1 6 1;cert 6 
1 10|board 1 big 1048576 1048576;layer top;class sig;rule top sig 65535 65535;net a sig;pin a 65535 65535 65535 65535 top top;pin a 983041 983041 983041 983041 top top;end;route a;|conn 1 1835012 ;cert 1835012 
1 10|board 1 b 40 20;layer top;layer mid;layer bot;class sig;rule top sig 1 2;rule mid sig 1 2;rule bot sig 1 2;viakind thru bot top 5;pad thru sig 2;inner thru sig 1;block mid 5 8 14 12;net a sig;pin a 10 10 10 10 top top;pin a 17 10 17 10 bot bot;pin a 22 10 22 10 mid mid;end;route a;|route a made 2 of 2;conn 1 12 ;cert 12 ;conn 2 5 ;cert 5 
5 10|keepout wires top 18 0 22 14;net a sig;pin a 4 9 6 11 top top;pin a 34 9 36 11 top top;end;route a;|conn 1 38 ;cert 38 
5 10|keepout vias top 18 0 22 14;net a sig;pin a 4 9 6 11 top top;pin a 34 9 36 11 top top;end;route a;|conn 1 28 ;cert 28 
1 10|board 2 demo 40 20;layer top;class sig;class hv;rule top sig 1 2;rule top hv 1 2;net b hv;pin b 18 0 22 14 top top;net a sig;pin a 4 9 6 11 top top;pin a 34 9 36 11 top top;end;route a;|conn 1 40 ;cert 40 
1 10|board 2 demo 40 20;layer top;class sig;class hv;rule top sig 1 2;rule top hv 1 2;clear top hv sig 1;net b hv;pin b 18 0 22 14 top top;net a sig;pin a 4 9 6 11 top top;pin a 34 9 36 11 top top;end;route a;|conn 1 38 ;cert 38 
1 10|board 2 demo 40 20;layer top;class sig;class hv;rule top sig 1 2;rule top hv 1 2;clear top sig hv 3;net b hv;pin b 18 0 22 14 top top;net a sig;pin a 4 9 6 11 top top;pin a 34 9 36 11 top top;end;route a;|conn 1 42 ;cert 42 
1 10|board 2 demo 40 20;layer top;class sig;class hv;rule top sig 1 2;rule top hv 1 2;clear top sig hv 4;net b hv;pin b 18 0 22 14 top top;net a sig;pin a 4 9 6 11 top top;pin a 34 9 36 11 top top;end;route a;|conn 1 44 ;cert 44 
1 10|board 2 demo 40 20;layer top;class sig;class hv;rule top sig 1 2;rule top hv 1 2;clear top sig hv 6;net b hv;pin b 18 0 22 14 top top;net a sig;pin a 4 9 6 11 top top;pin a 34 9 36 11 top top;end;route a;|route a made 0 of 1;none 1;cert - 
1 10|board 2 big 8388608 8388608;layer top;class sig;rule top sig 65535 65535;net a sig;pin a 65535 65535 65535 65535 top top;pin a 8323073 8323073 8323073 8323073 top top;end;route a;|conn 1 16515076 ;cert 16515076 ";

/// The cases in the same form, whose quiet output has these lines and no others.
const QUIET: &str =
    "5 10|block top 18 0 22 17;net a sig;pin a 4 9 6 11 top top;pin a 34 9 36 11 top top;end;route a;|route a made 0 of 1;none 1;
5 10|net a sig;pin a 4 10 4 10 top top;pin a 34 10 34 10 top top;pin a 20 16 20 16 top top;end;route a;|route a made 2 of 2;conn 1 30 1;at 4 10 top;to 34 10 top;conn 2 6 1;at 20 10 top;to 20 16 top;
5 10|net a sig;net b sig;pin a 5 8 5 8 top top;pin a 30 8 30 8 top top;pin b 5 12 5 12 top top;pin b 30 12 30 12 top top;end;route a;route b;rip a;strips top sig;|route a made 1 of 1;conn 1 25 1;at 5 8 top;to 30 8 top;route b made 1 of 1;conn 1 25 1;at 5 12 top;to 30 12 top;rip a removed 1;strips top sig 19;many 0 0 40 0;many 0 1 0 19;free 1 1 39 5;many 40 1 40 19;free 1 6 2 8;one a 3 6 7 8;free 8 6 27 8;one a 28 6 32 8;free 33 6 39 8;free 1 9 1 15;one b 2 9 2 10;many 3 9 7 10;one b 8 9 27 10;many 28 9 32 10;one b 33 9 33 10;free 34 9 39 15;one b 2 11 33 15;free 1 16 39 19;many 0 20 40 20;
1 10|board 1 big 1048576 1048576;layer top;class sig;rule top sig 65535 65535;block top 0 500000 1048576 500000;net a sig;pin a 65535 65535 65535 65535 top top;pin a 983041 983041 983041 983041 top top;end;route a;|route a made 0 of 1;none 1;
1 10|board 1 b 40 20;layer top;layer mid;layer bot;class sig;rule top sig 1 2;rule mid sig 1 2;rule bot sig 1 2;viakind thru bot top 5;pad thru sig 2;block mid 5 8 14 12;net a sig;pin a 10 10 10 10 top top;pin a 17 10 17 10 bot bot;pin a 22 10 22 10 mid mid;end;route a;|route a made 2 of 2;conn 1 14 3;at 10 10 top;to 18 10 top;via thru 18 10 bot;to 17 10 bot;conn 2 4 1;at 18 10 mid;to 22 10 mid;";

/// Asserts that some lines of the output have these parts, in this order.
fn has_in_order(rt: &impl Abort, out: &str, wanted: &str) {
    let mut lines = out.split('\n');
    for part in wanted.split(';') {
        assert!(rt; lines.any(|line| line.contains(part)), "{part} in {out}");
    }
}

/// Runs the program on this text, and looks for parts of some lines of its output.
pub fn expect_parts(
    rt: &(impl Abort + AllocGlobal),
    words: &[&str],
    text: &[u8],
    wanted: &str,
) -> Result<(), Fail> {
    let mut out = MemSink::new(rt.alloc(), 16384, 4096, &[])?;
    expect_into(rt, words, text, &mut out, Status::Done, "")?;
    has_in_order(rt, from_utf8(out.held.as_slice())?, wanted);
    Ok(())
}

/// A case: the text, and what is wanted.
fn case_of<'a>(alloc: Global, case: &'a str) -> Result<(Vec<u8>, &'a str), Fail> {
    let (lines, rest) = case.split_once('|').ok_or("a case has lines")?;
    let (text, wanted) = rest.split_once('|').ok_or("a case has a text")?;
    let (first, last) = lines.split_once(' ').ok_or("a case has two numbers")?;
    let text = changed(alloc, first.parse::<u64>()?, last.parse::<u64>()?, text)?;
    Ok((text, wanted))
}

#[test]
fn connections_are_least(rt: HostRuntime) -> Result<(), Fail> {
    for case in FOUND.split('\n') {
        let (text, wanted) = case_of(rt.alloc(), case)?;
        expect_parts(&rt, &["run"], &text, wanted)?;
    }
    Ok(())
}

/// Runs the program quietly on the text of a case.
fn expect_quiet(rt: &(impl Abort + AllocGlobal), text: &[u8], wanted: &str) -> Result<(), Fail> {
    let mut lines = Vec::new(rt.alloc());
    add(&mut lines, wanted, b';', b"\n")?;
    let words = ["run", "--quiet"];
    expect(
        rt,
        &words,
        from_utf8(text)?,
        Status::Done,
        from_utf8(&lines)?,
        "",
    )
}

#[test]
fn quiet_replies_have_no_certificates(rt: HostRuntime) -> Result<(), Fail> {
    for case in QUIET.split('\n') {
        let (text, wanted) = case_of(rt.alloc(), case)?;
        expect_quiet(&rt, &text, wanted)?;
    }
    Ok(())
}

#[test]
fn a_connector_is_routed(rt: HostRuntime) -> Result<(), Fail> {
    let mut text = Vec::new(rt.alloc());
    add(&mut text, CONNECTOR, b'\n', b"\r\n")?;
    let wanted =
        "route D4 made 1 of 1;conn 1 25700 ;all 12;route GND made 1 of 1;conn 1 19700 ;route D0 made 1 of 1;conn 1 19700 ;route D3 made 1 of 1;conn 1 19700 ;route D4 made 0 of 0;route D5 made 1 of 1;conn 1 19700 ;route D9 made 1 of 1;conn 1 19700 ;route VCC made 1 of 1;conn 1 19700 ;rules 0";
    expect_parts(&rt, &["run", "--quiet"], &text, wanted)
}

/// How each line of a demonstration of one net begins.
const ONE_NET: [&str; 8] = [
    "all 1",
    "route n1 made 1 of 1",
    "conn 1 19720 1",
    "at 140 1",
    "to 19860 1",
    "rules 0",
    "demo 1 made 1 of 1 cost 19720 close 0",
    "",
];

/// Asserts that the output has these lines and no others.
fn has_lines(rt: &impl Abort, out: &str, wanted: &[&str]) {
    assert_eq!(rt; out.split('\n').count(), wanted.len(), "{out}");
    for (line, part) in out.split('\n').zip(wanted) {
        assert!(rt; line.starts_with(*part), "{part} in {out}");
    }
}

#[test]
fn one_net_is_demonstrated(rt: HostRuntime) -> Result<(), Fail> {
    let mut out = MemSink::new(rt.alloc(), 4096, 4096, &[])?;
    let words = ["demo", "1"];
    expect_into(&rt, &words, b"not read", &mut out, Status::Done, "")?;
    has_lines(&rt, from_utf8(out.held.as_slice())?, &ONE_NET);
    Ok(())
}
