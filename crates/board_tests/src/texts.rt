//! The reader of board texts: refusals by line and kind, and whole boards.

use board_model::{Board, Keepout};
use board_reader::{Input, ReadInput, read_input, split_check};
use geo_rect::{ClassId, KindId, LayerId};
use std::alloc::{AllocError, Global};
use std::process::Abort;
use std::test::Fail;

/// A board of four layers, two classes and twelve nets, between a connector and a chip.
const CONNECTOR: &str = "# connector J1 to chip U3, four layers
board 1 J1-U3 30000 12500

layer top
layer in1
layer in2
layer bot
class sig
class pwr
# layer class half gap
rule top sig 75 150
rule in1 sig 75 150
rule in2 sig 75 150
rule bot sig 75 150
rule top pwr 250 200
rule in1 pwr 250 200
rule in2 pwr 250 200
rule bot pwr 250 200
viakind v12 top in1 2000
viakind v23 in1 in2 2000
viakind v34 in2 bot 2000
pad v12 sig 300
pad v23 sig 300
pad v34 sig 300
pad v12 pwr 300
pad v23 pwr 300
pad v34 pwr 300
# mounting holes
block top 500 500 1700 1700
block in1 500 500 1700 1700
block in2 500 500 1700 1700
block bot 500 500 1700 1700
block top 28300 10800 29500 12000
block in1 28300 10800 29500 12000
block in2 28300 10800 29500 12000
block bot 28300 10800 29500 12000
net GND pwr
net D0 sig
net D1 sig
net D2 sig
net D3 sig
net D4 sig
net D5 sig
net D6 sig
net D7 sig
net D8 sig
net D9 sig
net VCC pwr
# connector, pads of 300 at a pitch of 650
pin GND  4850 2500  5150 2800  top top
pin D0   4850 3150  5150 3450  top top
pin D1   4850 3800  5150 4100  top top
pin D2   4850 4450  5150 4750  top top
pin D3   4850 5100  5150 5400  top top
pin D4   4850 5750  5150 6050  top top
pin D5   4850 6400  5150 6700  top top
pin D6   4850 7050  5150 7350  top top
pin D7   4850 7700  5150 8000  top top
pin D8   4850 8350  5150 8650  top top
pin D9   4850 9000  5150 9300  top top
pin VCC  4850 9650  5150 9950  top top
# chip
pin GND 24850 2500 25150 2800  top top
pin D0  24850 3150 25150 3450  top top
pin D1  24850 3800 25150 4100  top top
pin D2  24850 4450 25150 4750  top top
pin D3  24850 5100 25150 5400  top top
pin D4  24850 5750 25150 6050  bot bot
pin D5  24850 6400 25150 6700  top top
pin D6  24850 7050 25150 7350  top top
pin D7  24850 7700 25150 8000  top top
pin D8  24850 8350 25150 8650  top top
pin D9  24850 9000 25150 9300  top top
pin VCC 24850 9650 25150 9950  top top
end
route D4
all
rules
";

/// A small board, line by line.
const LINES: [&str; 10] = [
    "board 1 demo 40 20",
    "layer top",
    "class sig",
    "rule top sig 1 2",
    "block top 18 0 22 14",
    "net a sig",
    "pin a 4 9 6 11 top top",
    "pin a 34 9 36 11 top top",
    "end",
    "rules",
];

/// The cases, one a line. The numbers are the first and the last of the lines of the small board for
/// which the text stands, and the line and the kind of the refusal, or zeros where the whole is read.
/// A semicolon in the text stands for a line feed.
const CASES: &str = "4 4 8 8|
8 8 8 4|pin a 34 9 41 11 top top;
4 4 4 4|rule top sig 1 0;
4 4 4 4|rule top sig 65536 2;
4 4 4 4|rule top sig 1 65536;
4 4 0 0|rule top sig 65535 65535;
1 1 1 4|board 1 demo 1048577 20;
1 1 1 4|board 1 demo 40 1048577;
1 1 1 4|board 1 demo 0 20;
1 1 0 0|board 1 demo 1048576 1048576;
8 8 8 11|pin a 36 9 34 11 top top;
3 3 3 6|layer top;
7 7 7 3|pin a 4 9 -6 11 top top;
10 10 10 7|net b sig;
10 10 0 0|route a;all;rip a;show a;
10 10 10 5|route z;
10 10 10 5|rip z;
10 10 10 5|show z;
10 10 10 5|route sig;
10 10 10 2|route;
10 10 10 2|route a a;
10 10 10 2|all a;
10 10 10 2|rip;
10 10 10 2|rip a a;
10 10 10 2|show;
10 10 10 2|show a a;
10 10 10 2|Route a;
6 6 6 7|route a;
6 6 6 7|all;
6 6 6 7|rip z;
6 6 6 7|show a;
6 6 6 2|show;
10 10 11 5|all;show b;
10 10 0 0|
5 5 0 0|# any \u{e9} bytes;; \t;
5 5 5 1|\r# not at the start;
5 5 5 1|lay\u{e9}r;
5 5 5 2|rules now;
5 5 5 7|board x demo 40 20;
5 5 5 3|block low x 0 22 14;
8 8 8 5|net a power;
5 5 5 6|rule top sig 0 0;
5 5 5 4|block top 41 0 22 14;
5 5 5 4|block top 18 0 22 21;
5 5 0 0|block top 0 0 40 20;
5 5 5 4|viakind v top top 65536;
5 5 5 11|viakind v top top 1;
1 1 0 0|board 01 demo 00000000000000000040 20;
1 1 1 3|board 1 demo 000000000000000000040 20;
1 1 1 4|board 1 demo 99999999999999999999 20;
1 1 0 0|board 2 demo 40 20;
1 1 0 0|board 02 demo 40 20;
1 1 1 4|board 0 demo 40 20;
1 1 1 4|board 3 demo 40 20;
1 1 1 4|board 1 demo 8388608 20;
1 1 0 0|board 2 big 8388608 8388608;
1 1 1 4|board 2 big 8388609 8388608;
1 1 1 4|board 2 big 8388608 8388609;
5 5 5 2|clear top sig sig 3;block top 18 0 22 14;
5 5 5 1|clear top sig s\u{e9}g 3;
10 10 10 2|clear top sig sig 3;
1 10 1 2|clear top sig sig 3;
1 3 0 0|board 2 demo 40 20;layer top;class sig;clear top sig sig 65535;
1 3 4 2|board 2 demo 40 20;layer top;class sig;clear top sig 3;
1 3 4 3|board 2 demo 40 20;layer top;class sig;clear top sig sig three;
1 3 4 4|board 2 demo 40 20;layer top;class sig;clear top sig sig 0;
1 3 4 4|board 2 demo 40 20;layer top;class sig;clear top sig sig 65536;
1 3 4 5|board 2 demo 40 20;layer top;class sig;clear low sig sig 3;
1 3 4 5|board 2 demo 40 20;layer top;class sig;clear top sig hv 3;
1 3 4 5|board 2 demo 40 20;layer top;class sig;clear top hv sig 3;
1 10 6 6|board 2 b 9 9;layer top;class sig;class hv;clear top sig hv 4;clear top sig hv 6;
1 10 6 6|board 2 b 9 9;layer top;class sig;class hv;clear top sig hv 4;clear top hv sig 0;
1 10 7 9|board 2 b 9 9;layer top;class sig;class hv;clear top sig hv 4;clear top hv hv 4;
1 10 5 8|board 2 b 9 9;layer top;class sig;clear top sig sig 4;end;
1 10 6 7|board 2 b 9 9;layer top;class sig;rule top sig 1 2;end;clear top sig sig 4;
5 5 5 2|keepout all top 18 0 22 14;
5 5 5 2|keepout Wires top 18 0 22 14;
5 5 5 2|keepout wires top 18 0 22;
5 5 0 0|keepout wires top 18 0 22 14;keepout vias top 0 0 40 20;
5 5 5 3|keepout vias low x 0 22 14;
5 5 5 5|keepout vias low 18 0 22 14;
5 5 5 4|keepout wires top 18 0 41 14;
5 5 5 4|keepout wires top 18 0 22 21;
5 5 5 11|keepout vias top 22 0 18 14;
5 5 5 11|keepout vias top 18 14 22 0;
10 10 10 7|keepout vias top 18 0 22 14;
1 10 1 7|keepout vias top 18 0 22 14;
10 10 10 7|inner v sig 1;
5 5 5 5|inner v sig 1;
1 1 1 3|board one demo 40 20;
6 6 0 0|net a sig;net aaaaaaaaaaaaaaaaaaaaaaaaaaaaaaaaaaaaaaaaaaaaaaaaaaaaaaaaaaaaaaaa sig;
6 6 7 2|net a sig;net aaaaaaaaaaaaaaaaaaaaaaaaaaaaaaaaaaaaaaaaaaaaaaaaaaaaaaaaaaaaaaaaa sig;
2 2 0 0|layer top\r;
1 10 1 9|
1 10 2 9|\r
1 10 3 9|;;
1 10 1 1|\r\r;
1 10 3 9|board 1 b 9 9;layer top
1 10 10 8|board 1 b 9 9;layer a;layer b;layer c;layer d;layer e;layer f;layer g;layer h;end;
1 10 10 10|board 1 b 9 9;layer a;layer b;layer c;layer d;layer e;layer f;layer g;layer h;layer i;
1 10 6 8|board 1 b 9 9;class a;class b;class c;class d;end;
1 10 6 10|board 1 b 9 9;class a;class b;class c;class d;class e;
1 10 12 9|board 1 b 9 9;layer a;layer b;viakind a a b 0;viakind b a b 0;viakind c a b 0;viakind d a b 0;viakind e a b 0;viakind f a b 0;viakind g a b 0;viakind h b a 0;
1 10 12 10|board 1 b 9 9;layer a;layer b;viakind a a b 0;viakind b a b 0;viakind c a b 0;viakind d a b 0;viakind e a b 0;viakind f a b 0;viakind g a b 0;viakind h b a 0;viakind i a b 0;
1 10 12 11|board 1 b 9 9;layer a;layer b;viakind a a b 0;viakind b a b 0;viakind c a b 0;viakind d a b 0;viakind e a b 0;viakind f a b 0;viakind g a b 0;viakind h b a 0;viakind i a a 0;
1 10 1 7|layer a;layer b;layer c;layer d;layer e;layer f;layer g;layer h;
1 10 1 7|viakind a a b 0;viakind b a b 0;viakind c a b 0;viakind d a b 0;viakind e a b 0;viakind f a b 0;viakind g a b 0;viakind h b a 0;
1 10 2 7|board 1 b 9 9;board 1 b 9 9;
1 10 0 0|board 1 b 9 9;layer a;layer b;class c;rule a c 1 1;rule b c 1 1;viakind v b a 65535;pad v c 65535;end;
1 10 8 8|board 1 b 9 9;layer a;layer b;class c;rule a c 1 1;rule b c 1 1;viakind v b a 65535;end;
1 10 8 4|board 1 b 9 9;layer a;layer b;class c;rule a c 1 1;rule b c 1 1;viakind v b a 65535;pad v c 65536;end;
1 10 9 6|board 1 b 9 9;layer a;layer b;class c;rule a c 1 1;rule b c 1 1;viakind v b a 65535;pad v c 1;pad v c 2;
1 10 9 11|board 1 b 40 20;layer top;layer mid;layer bot;class sig;rule top sig 1 2;rule mid sig 1 2;rule bot sig 1 2;viakind thru top top 5;
1 10 0 0|board 1 b 40 20;layer top;layer mid;layer bot;class sig;rule top sig 1 2;rule mid sig 1 2;rule bot sig 1 2;viakind thru bot top 5;pad thru sig 2;end;
1 10 0 0|board 1 b 40 20;layer top;layer mid;layer bot;class sig;rule top sig 1 2;rule mid sig 1 2;rule bot sig 1 2;viakind thru bot top 5;inner thru sig 65535;pad thru sig 2;end;
1 10 11 8|board 1 b 40 20;layer top;layer mid;layer bot;class sig;rule top sig 1 2;rule mid sig 1 2;rule bot sig 1 2;viakind thru bot top 5;inner thru sig 1;end;
1 10 7 11|board 1 b 40 20;layer top;layer mid;layer bot;class sig;viakind v mid top 5;inner v sig 1;
1 10 7 4|board 1 b 40 20;layer top;layer mid;layer bot;class sig;viakind v mid top 5;inner v sig 0;
1 10 7 4|board 1 b 40 20;layer top;layer mid;layer bot;class sig;viakind v bot top 5;inner v sig 65536;
1 10 7 5|board 1 b 40 20;layer top;layer mid;layer bot;class sig;viakind v bot top 5;inner v hv 1;
1 10 7 2|board 1 b 40 20;layer top;layer mid;layer bot;class sig;viakind v bot top 5;inner v sig;
1 10 8 6|board 1 b 40 20;layer top;layer mid;layer bot;class sig;viakind v bot top 5;inner v sig 1;inner v sig 1;
1 10 9 9|board 1 b 40 20;layer top;layer mid;layer bot;class sig;viakind v bot top 5;inner v sig 1;pad v sig 1;
9 10 9 9|
9 10 0 0|end
9 10 0 0|end;
9 10 0 0|end;route a;
9 10 10 2|end;replies;
10 10 0 0|strips top sig;rules;strips top sig;
5 5 5 7|strips top sig;
5 5 5 7|strips low power;
5 5 5 2|strips top;
10 10 10 5|strips low sig;
10 10 10 5|strips top power;
10 10 10 5|strips sig top;
10 10 10 2|strips;
10 10 10 2|strips top;
10 10 10 2|strips top sig 1;
10 10 11 5|strips top sig;strips a sig;";

/// Adds a text in which a mark stands for the end of a line.
fn add(bytes: &mut Vec<u8>, text: &str, mark: u8, end: &[u8]) -> Result<(), AllocError> {
    for byte in text.bytes() {
        if byte == mark {
            bytes.extend_from_slice(end)?;
        } else {
            bytes.push(byte)?;
        }
    }
    Ok(())
}

/// The small board with a text for the lines `first` to `last`, counted from 1.
fn changed(alloc: Global, first: u64, last: u64, text: &str) -> Result<Vec<u8>, AllocError> {
    let mut bytes = Vec::new(alloc);
    for (index, line) in LINES.iter().enumerate() {
        let number = index as u64 + 1;
        if number == first {
            add(&mut bytes, text, b';', b"\n")?;
        }
        if number < first || last < number {
            bytes.extend_from_slice(line.as_bytes())?;
            bytes.push(b'\n')?;
        }
    }
    Ok(bytes)
}

/// A number of a case.
fn number(word: Option<&str>) -> Result<u64, Fail> {
    Ok(word.ok_or("a case has four numbers")?.parse::<u64>()?)
}

/// Line and kind of the refusal, and zeros where the text is read.
fn refusal_of(alloc: Global, bytes: &[u8]) -> Result<(u64, u64), Fail> {
    match read_input(alloc, bytes) {
        Ok(_) => Ok((0, 0)),
        Err(ReadInput::Refused(refusal)) => Ok((refusal.line, u64::from(refusal.kind.number()))),
        Err(ReadInput::NoMemory) => Err("no memory".into()),
    }
}

/// A case: the lines for which its text stands, and the line and the kind of the refusal.
#[derive(Clone, Copy)]
struct Case<'a> {
    first: u64,
    last: u64,
    line: u64,
    kind: u64,
    text: &'a str,
}

fn case_of<'a>(case: &'a str) -> Result<Case<'a>, Fail> {
    let (numbers, text) = case.split_once('|').ok_or("a case has a text")?;
    let mut numbers = numbers.split(' ');
    Ok(Case {
        first: number(numbers.next())?,
        last: number(numbers.next())?,
        line: number(numbers.next())?,
        kind: number(numbers.next())?,
        text,
    })
}

/// Reads the text of a case, and looks at the refusal.
fn expect_refusal(rt: &(impl Abort + AllocGlobal), case: &str) -> Result<(), Fail> {
    let wanted = case_of(case)?;
    let bytes = changed(rt.alloc(), wanted.first, wanted.last, wanted.text)?;
    assert_eq!(rt;
        refusal_of(rt.alloc(), &bytes)?,
        (wanted.line, wanted.kind),
        "{case}"
    );
    Ok(())
}

#[test]
fn tells_the_first_line_and_kind(rt: HostRuntime) -> Result<(), Fail> {
    for case in CASES.split('\n') {
        expect_refusal(&rt, case)?;
    }
    Ok(())
}

/// Texts in which the replies are sought, one a line. The numbers are how many bytes stand before the
/// line `replies` and before what follows it, and its number, or zeros where there is no such line.
const SPLITS: &str = "4 12 2|end;replies;rules 0;
4 11 2|end;replies
0 8 1|replies;replies;
4 16 2|end; \treplies \r;all 0;
9 17 4|# a;;rep;replies;
0 0 0|
0 0 0|end;rules;
0 0 0|end;replies\r\r;
0 0 0|# replies;
0 0 0|replies now;now replies;Replies;repliess;replie;";

/// The ends and the line of a cut, and zeros where there is none.
fn cut_of(bytes: &[u8]) -> (u64, u64, u64) {
    match split_check(bytes) {
        Some(split) => (
            split.text_end as u64,
            split.replies_start as u64,
            split.lines,
        ),
        None => (0, 0, 0),
    }
}

/// The ends and the line of a case.
fn wanted_cut(numbers: &str) -> Result<(u64, u64, u64), Fail> {
    let mut numbers = numbers.split(' ');
    let end = number(numbers.next())?;
    let start = number(numbers.next())?;
    let line = number(numbers.next())?;
    Ok((end, start, line))
}

/// Cuts the text of a case, and looks at the ends and the line.
fn expect_cut(rt: &(impl Abort + AllocGlobal), case: &str) -> Result<(), Fail> {
    let (numbers, text) = case.split_once('|').ok_or("a case has a text")?;
    let wanted = wanted_cut(numbers)?;
    let mut bytes = Vec::new(rt.alloc());
    add(&mut bytes, text, b';', b"\n")?;
    assert_eq!(rt; cut_of(&bytes), wanted, "{case}");
    Ok(())
}

#[test]
fn cuts_at_the_first_line_of_replies(rt: HostRuntime) -> Result<(), Fail> {
    for case in SPLITS.split('\n') {
        expect_cut(&rt, case)?;
    }
    Ok(())
}

/// How many layers, kinds of vias, nets, pins, blockages and commands there are.
fn counts(input: &Input) -> [usize; 6] {
    let board = &input.board;
    [
        board.layers() as usize,
        board.kinds() as usize,
        board.nets() as usize,
        board.pins().len(),
        board.blocks().len(),
        input.commands.len(),
    ]
}

/// Asserts the name and the sides of a board, and how many of each there are.
fn holds(rt: &impl Abort, input: &Input, name: &str, sides: (i32, i32), numbers: [usize; 6]) {
    assert_eq!(rt; input.board.name(), name);
    assert_eq!(rt; (input.board.width(), input.board.height()), sides);
    assert_eq!(rt; counts(input), numbers);
}

/// Reads a text, and looks at the board that it tells.
fn is_read(
    rt: &impl Abort,
    alloc: Global,
    bytes: &[u8],
    name: &str,
    sides: (i32, i32),
    numbers: [usize; 6],
) -> bool {
    match read_input(alloc, bytes) {
        Ok(input) => {
            holds(rt, &input, name, sides, numbers);
            true
        }
        Err(_) => false,
    }
}

#[test]
fn reads_a_board(rt: HostRuntime) -> Result<(), Fail> {
    let text = "rules;strips top sig;route a;all;rip a;show a;";
    let bytes = changed(rt.alloc(), 10, 10, text)?;
    let numbers = [1, 0, 1, 2, 1, 6];
    assert!(rt; is_read(&rt, rt.alloc(), &bytes, "demo", (40, 20), numbers));
    Ok(())
}

#[test]
fn reads_lines_with_carriage_returns(rt: HostRuntime) -> Result<(), Fail> {
    let mut bytes = Vec::new(rt.alloc());
    add(&mut bytes, CONNECTOR, b'\n', b"\r\n")?;
    let numbers = [4, 3, 12, 24, 8, 3];
    assert!(rt; is_read(&rt, rt.alloc(), &bytes, "J1-U3", (30000, 12500), numbers));
    Ok(())
}

/// A board of three layers and two classes, without its end.
const WIDE: &str = "board 2 wide 40 20;layer top;layer mid;layer bot;class sig;class hv;
rule top sig 1 2;rule mid sig 1 2;rule bot sig 1 2;rule top hv 1 4;rule mid hv 1 4;rule bot hv 1 4;
viakind thru bot top 5;pad thru sig 2;pad thru hv 3;keepout vias mid 5 8 14 12;keepout wires top 0 1 2 3;";

/// The gaps on the first layer: of the first class to itself and to the second, and of the second to
/// the first and to itself.
fn gaps_on_top(board: &Board) -> Option<[i32; 4]> {
    if board.layers() < 1 || board.classes() < 2 {
        return None;
    }
    let top = LayerId(0);
    let sig = ClassId(0);
    let hv = ClassId(1);
    Some([
        board.gap(top, sig, sig),
        board.gap(top, sig, hv),
        board.gap(top, hv, sig),
        board.gap(top, hv, hv),
    ])
}

/// The pad and the inner pad of the first kind for the first class, and those for the second.
fn halves_of_thru(board: &Board) -> Option<[i32; 4]> {
    if board.kinds() < 1 || board.classes() < 2 {
        return None;
    }
    let thru = KindId(0);
    let sig = ClassId(0);
    let hv = ClassId(1);
    Some([
        board.pad(thru, sig),
        board.inner(thru, sig),
        board.pad(thru, hv),
        board.inner(thru, hv),
    ])
}

/// The text of the wide board with further lines.
fn wide_text(alloc: Global, lines: &str) -> Result<Vec<u8>, AllocError> {
    let mut bytes = Vec::new(alloc);
    add(&mut bytes, WIDE, b';', b"\n")?;
    add(&mut bytes, lines, b';', b"\n")?;
    add(&mut bytes, "end;", b';', b"\n")?;
    Ok(bytes)
}

/// The gaps and the pads that a text tells.
fn widths_told(alloc: Global, bytes: &[u8]) -> (Option<[i32; 4]>, Option<[i32; 4]>) {
    match read_input(alloc, bytes) {
        Ok(input) => (gaps_on_top(&input.board), halves_of_thru(&input.board)),
        Err(_) => (None, None),
    }
}

#[test]
fn fills_in_gaps_and_inner_pads(rt: HostRuntime) -> Result<(), Fail> {
    for (lines, gaps, halves) in [
        ("", [2, 4, 4, 4], [2, 2, 3, 3]),
        ("clear top hv sig 9;", [2, 9, 9, 4], [2, 2, 3, 3]),
        ("clear top sig hv 1;", [2, 1, 1, 4], [2, 2, 3, 3]),
        ("clear top sig sig 7;", [7, 4, 4, 4], [2, 2, 3, 3]),
        ("clear mid sig hv 9;", [2, 4, 4, 4], [2, 2, 3, 3]),
        ("inner thru sig 1;", [2, 4, 4, 4], [2, 1, 3, 3]),
        ("inner thru hv 9;", [2, 4, 4, 4], [2, 2, 3, 9]),
    ] {
        let bytes = wide_text(rt.alloc(), lines)?;
        let told = widths_told(rt.alloc(), &bytes);
        assert_eq!(rt; told, (Some(gaps), Some(halves)), "{lines}");
    }
    Ok(())
}

/// Whether a keep-out is of this kind, on this layer, from this column and to this row.
fn is_keepout(k: &Keepout, wires: bool, layer: u32, x0: i32, y1: i32) -> bool {
    if k.wires != wires {
        return false;
    }
    if k.layer.0 != layer {
        return false;
    }
    if k.area.x0 != x0 {
        return false;
    }
    k.area.y1 == y1
}

fn has_both_keepouts(board: &Board) -> bool {
    let keepouts = board.keepouts();
    if keepouts.len() != 2 {
        return false;
    }
    if !is_keepout(&keepouts[0], false, 1, 5, 12) {
        return false;
    }
    is_keepout(&keepouts[1], true, 0, 0, 3)
}

fn tells_both_keepouts(alloc: Global, bytes: &[u8]) -> bool {
    match read_input(alloc, bytes) {
        Ok(input) => has_both_keepouts(&input.board),
        Err(_) => false,
    }
}

#[test]
fn reads_keepouts_in_order(rt: HostRuntime) -> Result<(), Fail> {
    let bytes = wide_text(rt.alloc(), "")?;
    assert!(rt; tells_both_keepouts(rt.alloc(), &bytes));
    Ok(())
}

/// A board with so many nets.
fn text_of_nets(alloc: Global, nets: u64) -> Result<String, Fail> {
    let mut text = String::from_str(
        alloc,
        "board 1 b 9 9\nlayer top\nclass sig\nrule top sig 1 1\n",
    )?;
    for number in 0..nets {
        text.push_str(&format!(in alloc; "net n{number} sig\n")?)?;
    }
    text.push_str("end\n")?;
    Ok(text)
}

/// As many nets as a text may have, and one more.
#[test]
fn the_limit_of_nets_is_reached_and_not_passed(rt: HostRuntime) -> Result<(), Fail> {
    for (nets, refused) in [(16_384, (0, 0)), (16_385, (16_389, 10))] {
        let text = text_of_nets(rt.alloc(), nets)?;
        assert_eq!(rt; refusal_of(rt.alloc(), text.as_bytes())?, refused);
    }
    Ok(())
}
