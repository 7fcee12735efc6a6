//! Reports, and what follows the commands: lines that were worked out by hand.

use crate::boards::add;
use crate::calls::expect;
use crate::routed::expect_parts;
use contour_core::Status;
use std::alloc::{AllocError, Global};
use std::process::Abort;
use std::str::from_utf8;
use std::test::Fail;

/// The board without commands on which most reports are made. In all texts here a semicolon ends a line.
const BOARD: &str =
    "board 1 demo 40 20;layer top;class sig;rule top sig 1 2;block top 18 0 22 14;net a sig;pin a 4 9 6 11 top top;pin a 34 9 36 11 top top;end;";

/// The same, with a command, and a right reply to it.
const ANSWERED: &str =
    "board 1 demo 40 20;layer top;class sig;rule top sig 1 2;block top 18 0 22 14;net a sig;pin a 4 9 6 11 top top;pin a 34 9 36 11 top top;end;route a;replies;route a made 1 of 1;conn 1 40 3;at 6 11 top;to 6 17 top;to 34 17 top;to 34 11 top;cert 40 8;src 0 top 2 7 8 13 4 9 6 11 0;step 0 top 9 7 15 13 9 9 9 11 3;step 0 top 1 1 15 6 4 6 6 6 3;step 0 top 1 14 15 16 4 14 6 14 3;step 0 top 1 7 1 13 1 9 1 11 3;step 3 top 1 17 39 19 4 17 6 17 6;step 5 top 25 14 39 16 25 16 25 16 26;step 6 top 32 7 38 13 32 13 32 13 36;";

/// A board on which two nets must cross.
const CROSSING: &str =
    "board 1 b 40 20;layer top;class sig;rule top sig 1 2;net a sig;net b sig;pin a 5 8 5 8 top top;pin a 30 8 30 8 top top;pin b 20 2 20 2 top top;pin b 20 17 20 17 top top;end;route a;";

/// The same, where the second net ends before it would cross.
const MEETING: &str =
    "board 1 b 40 20;layer top;class sig;rule top sig 1 2;net a sig;net b sig;pin a 5 8 5 8 top top;pin a 30 8 30 8 top top;pin b 20 12 20 12 top top;pin b 20 17 20 17 top top;end;route a;";

/// A board on which the order of two nets matters.
const ORDERED: &str =
    "board 1 b 40 20;layer top;class sig;rule top sig 1 2;net a sig;net b sig;pin a 4 10 4 10 top top;pin a 36 10 36 10 top top;pin b 20 7 20 7 top top;pin b 20 14 20 14 top top;end;";

/// Pins of one net that share a point.
const SHARED: &str =
    "board 1 demo 40 20;layer top;class sig;rule top sig 1 2;net a sig;pin a 4 9 6 11 top top;pin a 6 11 9 13 top top;end;replies;";

/// Pins of two nets that share a point.
const SHORTED: &str =
    "board 1 close 40 20;layer top;class sig;rule top sig 1 2;net a sig;net b sig;pin a 19 9 20 9 top top;pin b 20 9 20 9 top top;pin b 30 9 30 9 top top;end;replies;";

/// The cases, one a line: the words, the text with which they are called, and what is written. After `~` it is
/// what some lines of the output have, in this order; after `!` it is the line on standard error, and nothing is written
/// to standard output.
const CASES: &str =
    "fill a top 0 0 20 16|BOARD replies;|fill a top 5;box 1 1 15 6;box 1 7 1 13;box 2 7 8 13;box 9 7 15 13;box 1 14 15 16;
fill a top 25 0 40 5|BOARD replies;|fill a top 0;
fill z top 0 0 5 5|BOARD replies;|!line 0 kind 5;
fill a bot 0 0 5 5|BOARD replies;|!line 0 kind 5;
fill a top 41 0 5 5|BOARD replies;|!line 0 kind 4;
fill a top 0 0 5 99999999999999999999|BOARD replies;|!line 0 kind 4;
fill a top 6 0 5 5|BOARD replies;|!line 0 kind 11;
fill z top 0 0 5 5|BOARD replies;bogus;|!line 11 kind 13;
fill z top 0 0 5 5|BOARD rules;replies;|!line 0 kind 5;
fill a top 0 0 5 5|BOARD rules;replies;|!wrong reply 1;
gerber top|BOARD replies;|%FSLAX46Y46*%;%MOMM*%;%LPD*%;G01*;G36*;X4000Y9000D02*;X6000Y9000D01*;X6000Y11000D01*;X4000Y11000D01*;X4000Y9000D01*;G37*;G36*;X34000Y9000D02*;X36000Y9000D01*;X36000Y11000D01*;X34000Y11000D01*;X34000Y9000D01*;G37*;M02*;
gerber bot|BOARD replies;|!line 0 kind 5;
gerber top|BOARD|!line 10 kind 9;
trace|BOARD replies;|trace 2 groups 2;group 1 1;group 2 1;open a 2;
gerber top|ANSWERED|%FSLAX46Y46*%;%MOMM*%;%LPD*%;G01*;G36*;X4000Y9000D02*;X6000Y9000D01*;X6000Y11000D01*;X4000Y11000D01*;X4000Y9000D01*;G37*;G36*;X34000Y9000D02*;X36000Y9000D01*;X36000Y11000D01*;X34000Y11000D01*;X34000Y9000D01*;G37*;G36*;X5000Y10000D02*;X7000Y10000D01*;X7000Y18000D01*;X5000Y18000D01*;X5000Y10000D01*;G37*;G36*;X5000Y16000D02*;X35000Y16000D01*;X35000Y18000D01*;X5000Y18000D01*;X5000Y16000D01*;G37*;G36*;X33000Y10000D02*;X35000Y10000D01*;X35000Y18000D01*;X33000Y18000D01*;X33000Y10000D01*;G37*;M02*;
trace|ANSWERED|trace 5 groups 1;group 1 5;
trace|SHARED|trace 2 groups 1;group 1 2;
trace|SHORTED|trace 3 groups 2;group 1 2;group 3 1;open b 2;short a b;
through b a|CROSSING|route a made 1 of 1;conn 1 25 1;at 5 8 top;to 30 8 top;through b 1;rip a removed 1;route b made 1 of 1;conn 1 15 1;at 20 2 top;to 20 17 top;back a out 1;
through b a|MEETING|route a made 1 of 1;conn 1 25 1;at 5 8 top;to 30 8 top;through b 1;rip a removed 1;route b made 1 of 1;conn 1 5 1;at 20 12 top;to 20 17 top;back a kept 1;
through b b|CROSSING|!line 0 kind 6;
through b a z|CROSSING|!line 0 kind 5;
auto 1|ORDERED|round 1;route a made 1 of 1;conn 1 32 1;at 4 10 top;to 36 10 top;route b made 0 of 1;none 1;best 1 made 1 of 2 cost 32;show a 1 of 1;conn 1 32 1;at 4 10 top;to 36 10 top;show b 0 of 1;
auto 2|ORDERED|~round 1;route a made 1 of 1;conn 1 32 1;route b made 0 of 1;round 2;route b made 1 of 1;conn 1 7 ;route a made 1 of 1;conn 1 46 ;best 2 made 2 of 2 cost 53;show a 1 of 1;conn 1 46 ;show b 1 of 1;conn 1 7 
auto 3|ORDERED|~round 3;route b made 1 of 1;conn 1 7 ;route a made 1 of 1;conn 1 46 ;best 2 made 2 of 2 cost 53;show a 1 of 1;conn 1 46 ;show b 1 of 1;conn 1 7 
auto 1|board 1 b 1 1;layer top;class sig;rule top sig 1 1;end;|round 1;best 1 made 0 of 0 cost 0;
auto 1|board 1 b 1 1;|!line 2 kind 9;
through a b|board 1 b 1 1;|!line 2 kind 9;
trace|board 1 b 1 1;replies;|!line 2 kind 9;";

/// The board that a name in a case stands for, and nothing for another text.
fn board_of(name: &str) -> &'static str {
    match name {
        "BOARD" => BOARD,
        "ANSWERED" => ANSWERED,
        "CROSSING" => CROSSING,
        "MEETING" => MEETING,
        "ORDERED" => ORDERED,
        "SHARED" => SHARED,
        "SHORTED" => SHORTED,
        _ => "",
    }
}

/// The text of a case, in which a name may stand for one of the boards above.
fn text_of(alloc: Global, text: &str) -> Result<Vec<u8>, Fail> {
    let (name, rest) = text.split_once(' ').unwrap_or((text, ""));
    let board = board_of(name);
    let mut bytes = Vec::new(alloc);
    add(&mut bytes, board, b';', b"\n")?;
    let rest = if board.is_empty() { text } else { rest };
    add(&mut bytes, rest, b';', b"\n")?;
    Ok(bytes)
}

/// The status that goes with a line on standard error.
fn status_of(line: &str) -> Status {
    if line.starts_with("wrong") {
        return Status::Wrong;
    }
    Status::BadInput
}

/// Calls the program with these words, and looks at what it writes.
fn expect_case(
    rt: &(impl Abort + AllocGlobal),
    words: &[&str],
    text: &[u8],
    wanted: &str,
) -> Result<(), Fail> {
    if let Some(parts) = wanted.strip_prefix('~') {
        return expect_parts(rt, words, text, parts);
    }
    let mut lines = Vec::new(rt.alloc());
    add(&mut lines, wanted.trim_start_matches('!'), b';', b"\n")?;
    let lines = from_utf8(&lines)?;
    if wanted.starts_with('!') {
        return expect(rt, words, from_utf8(text)?, status_of(lines), "", lines);
    }
    expect(rt, words, from_utf8(text)?, Status::Done, lines, "")
}

/// The words of a line.
fn words_of(alloc: Global, line: &str) -> Result<Vec<&str>, AllocError> {
    let mut words = Vec::new(alloc);
    for word in line.split(' ') {
        words.push(word)?;
    }
    Ok(words)
}

#[test]
fn reports_and_sequels_are_written(rt: HostRuntime) -> Result<(), Fail> {
    for case in CASES.split('\n') {
        let (words, rest) = case.split_once('|').ok_or("a case has words")?;
        let (text, wanted) = rest.split_once('|').ok_or("a case has a text")?;
        let words = words_of(rt.alloc(), words)?;
        let text = text_of(rt.alloc(), text)?;
        expect_case(&rt, &words, &text, wanted)?;
    }
    Ok(())
}
