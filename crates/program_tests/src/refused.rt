//! Texts and words that are refused.

use crate::calls::{PLAIN, expect, first_lines, with_line};
use contour_core::Status;
use std::test::Fail;

const USAGE: &str = "usage: contour run [--quiet] / check / upgrade / gen N / demo N\n";

#[test]
fn a_refused_text_is_named_by_its_line(rt: HostRuntime) -> Result<(), Fail> {
    let alloc = rt.alloc();
    for (number, line, err) in [
        (10, "route z", "line 10 kind 5\n"),
        (4, "", "line 8 kind 8\n"),
        (8, "pin a 34 9 41 11 top top", "line 8 kind 4\n"),
        (4, "rule top sig 1 0", "line 4 kind 4\n"),
        (1, "board 1 demo 1048577 20", "line 1 kind 4\n"),
        (8, "pin a 36 9 34 11 top top", "line 8 kind 11\n"),
        (3, "layer top", "line 3 kind 6\n"),
        (7, "pin a 4 9 -6 11 top top", "line 7 kind 3\n"),
        (10, "net b sig", "line 10 kind 7\n"),
        (2, "layer t\u{e9}", "line 2 kind 1\n"),
        (6, "net a sog", "line 6 kind 5\n"),
    ] {
        let text = with_line(alloc, PLAIN, number, line)?;
        expect(&rt, &["run"], text.as_str(), Status::BadInput, "", err)?;
    }
    Ok(())
}

#[test]
fn a_text_without_its_end_is_refused_after_its_last_line(rt: HostRuntime) -> Result<(), Fail> {
    for (count, err) in [
        (0, "line 1 kind 9\n"),
        (1, "line 2 kind 9\n"),
        (2, "line 3 kind 9\n"),
        (3, "line 4 kind 9\n"),
        (4, "line 5 kind 9\n"),
        (5, "line 6 kind 9\n"),
        (6, "line 7 kind 9\n"),
        (7, "line 8 kind 9\n"),
        (8, "line 9 kind 9\n"),
    ] {
        let cut = first_lines(rt.alloc(), PLAIN, count)?;
        expect(&rt, &["run"], cut.as_str(), Status::BadInput, "", err)?;
    }
    Ok(())
}

#[test]
fn other_words_are_refused(rt: HostRuntime) -> Result<(), Fail> {
    let rows: [&[&str]; 23] = [
        &[],
        &["go"],
        &["run", "run"],
        &["run", "x"],
        &["run", "--quiet", "--quiet"],
        &["--quiet", "run"],
        &["--quiet"],
        &["gen"],
        &["gen", "+5"],
        &["gen", "5", "5"],
        &["check", "x"],
        &["demo"],
        &["demo", "0"],
        &["demo", "007"],
        &["demo", "2001"],
        &["gen", "0"],
        &["gen", "007"],
        &["gen", "2001"],
        &["gen", "--", "5"],
        &["--help"],
        &["trace", "x"],
        &["auto", "0"],
        &["auto", "101"],
    ];
    for words in rows {
        expect(&rt, words, PLAIN, Status::BadWords, "", USAGE)?;
    }
    Ok(())
}
