//! Replies that are checked, right ones and others, and generated boards.

use crate::boards::add;
use crate::calls::expect;
use contour_core::Status;
use std::alloc::{AllocError, Global};
use std::str::from_utf8;
use std::test::Fail;

/// A small board with one command, and a right reply to it.
const CHECKED: &str = "board 1 demo 40 20
layer top
class sig
rule top sig 1 2
block top 18 0 22 14
net a sig
pin a 4 9 6 11 top top
pin a 34 9 36 11 top top
end
route a
replies
route a made 1 of 1
conn 1 40 3
at 6 11 top
to 6 17 top
to 34 17 top
to 34 11 top
cert 40 8
src 0 top 2 7 8 13 4 9 6 11 0
step 0 top 9 7 15 13 9 9 9 11 3
step 0 top 1 1 15 6 4 6 6 6 3
step 0 top 1 14 15 16 4 14 6 14 3
step 0 top 1 7 1 13 1 9 1 11 3
step 3 top 1 17 39 19 4 17 6 17 6
step 5 top 25 14 39 16 25 16 25 16 26
step 6 top 32 7 38 13 32 13 32 13 36
";

/// The cases, one a line: the lines of that text for which another stands, from the first to the last; the
/// other text, in which a semicolon ends a line; and the line that is written.
const CASES: &str = "1 0||right 1
13 17|conn 1 40 4;at 6 11 top;to 10 11 top;to 10 17 top;to 34 17 top;to 34 11 top;|right 1
18 18|cert 39 8;|wrong reply 1
18 26|cert 40 7;src 0 top 2 7 8 13 4 9 6 11 0;step 0 top 9 7 15 13 9 9 9 11 3;step 0 top 1 1 15 6 4 6 6 6 3;step 0 top 1 14 15 16 4 14 6 14 3;step 0 top 1 7 1 13 1 9 1 11 3;step 3 top 1 17 39 19 4 17 6 17 6;step 5 top 25 14 39 16 25 16 25 16 26;|wrong reply 1
13 13|conn 1 41 3;|wrong reply 1
13 13|conn 2 40 3;|wrong reply 1
18 18|cert - 8;|wrong reply 1
12 12|route a made 1 of 2;|line 27 kind 13
18 26|cert 40 9;src 0 top 2 7 8 13 4 9 6 11 0;step 0 top 9 7 15 13 9 9 9 11 3;step 0 top 1 1 15 6 4 6 6 6 3;step 0 top 1 14 15 16 4 14 6 14 3;step 0 top 1 7 1 13 1 9 1 11 3;step 3 top 1 17 39 19 4 17 6 17 6;step 5 top 25 14 39 16 25 16 25 16 26;step 6 top 32 7 38 13 32 13 32 13 36;step 6 top 32 7 38 13 32 13 32 13 36;|right 1
26 26||line 26 kind 13
26 26|step 6 top 32 7 38 13 32 13 32 13 340282366920938463463374607431768211455;|wrong reply 1
26 26|step 6 top 32 7 38 13 32 13 32 13 340282366920938463463374607431768211456;|line 26 kind 13
15 15|to 2147483647 17 top;|wrong reply 1
15 15|to 2147483648 17 top;|line 15 kind 13
14 14|at 7 11 top;|wrong reply 1
19 19|src 1 top 2 7 8 13 4 9 6 11 0;|wrong reply 1
19 19|src 0 top 2 7 8 14 4 9 6 11 0;|wrong reply 1
24 25|step 5 top 25 14 39 16 25 16 25 16 26;step 3 top 1 17 39 19 4 17 6 17 6;|wrong reply 1
13 13|conn 01 40 3;|line 13 kind 13
13 13|conn 1  40 3;|line 13 kind 13
18 18|cert 040 8;|line 18 kind 13
4 4|rule top sig 1 0;|line 4 kind 4
12 26||wrong reply 1
12 26|bogus;|line 12 kind 13
12 26|all 18446744073709551615;|line 13 kind 13
12 26|all 18446744073709551616;|line 12 kind 13
12 26|route a made 0 of 0;route a made 0 of 0;|wrong reply 1
26 26|step 6 top 32 7 38 13 32 13 32 13 36;route a made 1 of 1;conn 1 40 3;at 6 11 top;to 6 17 top;to 34 17 top;to 34 11 top;cert 40 8;src 0 top 2 7 8 13 4 9 6 11 0;step 0 top 9 7 15 13 9 9 9 11 3;step 0 top 1 1 15 6 4 6 6 6 3;step 0 top 1 14 15 16 4 14 6 14 3;step 0 top 1 7 1 13 1 9 1 11 3;step 3 top 1 17 39 19 4 17 6 17 6;step 5 top 25 14 39 16 25 16 25 16 26;step 6 top 32 7 38 13 32 13 32 13 36;|wrong reply 2
11 26||line 11 kind 9
5 26|block top 18 0 22 17;net a sig;pin a 4 9 6 11 top top;pin a 34 9 36 11 top top;end;route a;replies;route a made 0 of 1;none 1;cert - 5;src 0 top 2 7 8 13 4 9 6 11 0;step 0 top 9 7 15 13 9 9 9 11 3;step 0 top 1 1 15 6 4 6 6 6 3;step 0 top 1 14 15 19 4 14 6 14 3;step 0 top 1 7 1 13 1 9 1 11 3;|right 1
5 26|block top 18 0 22 17;net a sig;pin a 4 9 6 11 top top;pin a 34 9 36 11 top top;end;route a;replies;route a made 0 of 1;none 1;cert - 4;src 0 top 2 7 8 13 4 9 6 11 0;step 0 top 9 7 15 13 9 9 9 11 3;step 0 top 1 1 15 6 4 6 6 6 3;step 0 top 1 14 15 19 4 14 6 14 3;|wrong reply 1
5 26|block top 18 0 22 17;net a sig;pin a 4 9 6 11 top top;pin a 34 9 36 11 top top;end;route a;replies;route a made 0 of 1;none 1;|line 14 kind 13";

/// The text with another one for the lines `first` to `last`, counted from 1.
fn changed(alloc: Global, first: usize, last: usize, other: &str) -> Result<Vec<u8>, AllocError> {
    let mut bytes = Vec::new(alloc);
    for (index, line) in CHECKED.lines().enumerate() {
        let number = index + 1;
        if number == first {
            add(&mut bytes, other, b';', b"\n")?;
        }
        if number < first || last < number {
            bytes.extend_from_slice(line.as_bytes())?;
            bytes.push(b'\n')?;
        }
    }
    Ok(bytes)
}

/// The text of a case, and the line that is written.
fn case_of<'a>(alloc: Global, case: &'a str) -> Result<(Vec<u8>, &'a str), Fail> {
    let (lines, rest) = case.split_once('|').ok_or("a case has lines")?;
    let (other, wanted) = rest.split_once('|').ok_or("a case has a text")?;
    let (first, last) = lines.split_once(' ').ok_or("a case has two numbers")?;
    let text = changed(
        alloc,
        first.parse::<usize>()?,
        last.parse::<usize>()?,
        other,
    )?;
    Ok((text, wanted))
}

/// The status that goes with the line that is written.
fn status_of(line: &str) -> Status {
    if line.starts_with("right") {
        return Status::Done;
    }
    if line.starts_with("wrong") {
        return Status::Wrong;
    }
    Status::BadInput
}

#[test]
fn replies_are_checked(rt: HostRuntime) -> Result<(), Fail> {
    for case in CASES.split('\n') {
        let (text, wanted) = case_of(rt.alloc(), case)?;
        let mut line = String::from_str(rt.alloc(), wanted)?;
        line.push_str("\n")?;
        let status = status_of(wanted);
        let (out, err) = if status == Status::Done {
            (line.as_str(), "")
        } else {
            ("", line.as_str())
        };
        expect(&rt, &["check"], from_utf8(&text)?, status, out, err)?;
    }
    Ok(())
}

#[test]
fn a_board_is_generated(rt: HostRuntime) -> Result<(), Fail> {
    let text = "board 1 gen1 20000 300
layer top
layer bot
class sig
rule top sig 10 10
rule bot sig 10 10
viakind v top bot 50
pad v sig 15
block top 9001 160 9201 180
net n1 sig
pin n1 100 100 140 140 top top
pin n1 19860 100 19900 140 top top
end
all
rules
";
    expect(&rt, &["gen", "1"], "", Status::Done, text, "")
}

/// A text of the first version and how it is written in the second; a semicolon ends a line.
const UPGRADED: [(&str, &str); 2] = [
    (
        "board 1 demo 40 20;layer top;class sig;rule top sig 1 2;block top 18 0 22 14;net a sig;pin a 4 9 6 11 top top;pin a 34 9 36 11 top top;end;route a;",
        "board 2 demo 40 20;layer top;class sig;rule top sig 1 2;block top 18 0 22 14;net a sig;pin a 4 9 6 11 top top;pin a 34 9 36 11 top top;end;route a;",
    ),
    (
        "# by hand;board 2 b 040 20;layer top;keepout vias top 1 1 2 2;layer mid;layer bot;class hv;class sig;net a sig;clear bot sig hv 9;clear top hv sig 4;rule top hv 1 4;rule top sig 1 3;rule mid sig 1 2;rule mid hv 1 2;rule bot hv 1 2;rule bot sig 1 2;clear mid hv hv 1;viakind t bot top 5;inner t sig 1;inner t hv 2;pad t hv 2;pad t sig 2;pin a 1 2 3 4 bot mid;block mid 0 0 1 1;end;strips top sig;all",
        "board 2 b 40 20;layer top;layer mid;layer bot;class hv;class sig;rule top hv 1 4;rule top sig 1 3;rule mid hv 1 2;rule mid sig 1 2;rule bot hv 1 2;rule bot sig 1 2;clear mid hv hv 1;clear bot hv sig 9;viakind t top bot 5;pad t hv 2;pad t sig 2;inner t sig 1;block mid 0 0 1 1;keepout vias top 1 1 2 2;net a sig;pin a 1 2 3 4 mid bot;end;strips top sig;all;",
    ),
];

#[test]
fn a_text_is_upgraded(rt: HostRuntime) -> Result<(), Fail> {
    for (old, new) in UPGRADED {
        let mut text = Vec::new(rt.alloc());
        add(&mut text, old, b';', b"\n")?;
        let mut wanted = Vec::new(rt.alloc());
        add(&mut wanted, new, b';', b"\n")?;
        let out = from_utf8(&wanted)?;
        expect(&rt, &["upgrade"], from_utf8(&text)?, Status::Done, out, "")?;
    }
    Ok(())
}
