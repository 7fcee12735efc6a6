//! Streams of which a call fails.

use crate::calls::{PLAIN, ended, expect_into, expect_told};
use contour_core::Status;
use io_edge::{MemSink, MemSource};
use std::process::Abort;
use std::test::Fail;

const ROUTED: &str = "board 1 demo 40 20
layer top
class sig
rule top sig 1 2
block top 18 0 22 14
net a sig
pin a 4 9 6 11 top top
pin a 34 9 36 11 top top
end
route a
";

/// A board with one command, and no reply to it.
const UNANSWERED: &str = "board 1 demo 40 20
layer top
class sig
rule top sig 1 2
end
rules
replies
";

/// Runs the program on the text of a route, sixteen bytes a call, of which a call fails.
fn expect_read(
    rt: &(impl Abort + AllocGlobal),
    failing: u64,
    status: Status,
    err: &str,
) -> Result<u64, Fail> {
    let mut source = MemSource::new(rt.alloc(), ROUTED.as_bytes(), 16, &[failing])?;
    let mut out = MemSink::new(rt.alloc(), 4096, 4096, &[])?;
    expect_told(rt, &["run"], &mut source, &mut out, status, err)?;
    assert_eq!(rt; out.held.is_empty(), status == Status::ReadFault);
    Ok(source.calls)
}

#[test]
fn a_failed_read_ends_the_call(rt: HostRuntime) -> Result<(), Fail> {
    // The text has 147 bytes: ten calls, and one that gives none.
    for k in 1..12 {
        let calls = expect_read(&rt, k, Status::ReadFault, "read fault\n")?;
        assert_eq!(rt; calls, k);
    }
    expect_read(&rt, 12, Status::Done, "")?;
    Ok(())
}

/// How the program ends on the text of a route, into a sink that takes ten bytes a call, of which one
/// fails.
fn status_into(
    rt: &(impl Abort + AllocGlobal),
    failing: u64,
    whole: &[u8],
) -> Result<Status, Fail> {
    let mut source = MemSource::new(rt.alloc(), ROUTED.as_bytes(), 4096, &[])?;
    let mut out = MemSink::new(rt.alloc(), 16384, 10, &[failing])?;
    let mut err = MemSink::new(rt.alloc(), 64, 64, &[])?;
    let status = ended(rt.alloc(), &["run"], &mut source, &mut out, &mut err)?;
    assert!(rt; whole.starts_with(out.held.as_slice()));
    Ok(status)
}

/// What the program writes on the text of a route.
fn routed(rt: &(impl Abort + AllocGlobal)) -> Result<MemSink, Fail> {
    let mut source = MemSource::new(rt.alloc(), ROUTED.as_bytes(), 4096, &[])?;
    let mut out = MemSink::new(rt.alloc(), 16384, 4096, &[])?;
    expect_told(rt, &["run"], &mut source, &mut out, Status::Done, "")?;
    Ok(out)
}

#[test]
fn a_failed_write_ends_the_call(rt: HostRuntime) -> Result<(), Fail> {
    let whole = routed(&rt)?;
    let calls = whole.held.len().div_ceil(10) as u64;
    assert!(rt; whole.held.as_slice().starts_with(b"route a made 1 of 1\n"));
    for k in 1..calls + 1 {
        let status = status_into(&rt, k, whole.held.as_slice())?;
        assert_eq!(rt; status, Status::WriteFault);
    }
    let status = status_into(&rt, calls + 1, whole.held.as_slice())?;
    assert_eq!(rt; status, Status::Done);
    Ok(())
}

/// Runs the program on the text of a route, into a sink of which a call fails.
fn expect_cut(rt: &(impl Abort + AllocGlobal), failing: u64, held: &str) -> Result<(), Fail> {
    let mut out = MemSink::new(rt.alloc(), 4096, 10, &[failing])?;
    let text = ROUTED.as_bytes();
    expect_into(
        rt,
        &["run"],
        text,
        &mut out,
        Status::WriteFault,
        "write fault\n",
    )?;
    assert_eq!(rt; out.held.as_slice(), held.as_bytes());
    Ok(())
}

#[test]
fn what_was_written_before_a_fault_stays(rt: HostRuntime) -> Result<(), Fail> {
    expect_cut(&rt, 1, "")?;
    expect_cut(&rt, 2, "route a ma")
}

/// Runs the program over these streams, where its line on standard error cannot be written.
fn expect_untold(
    rt: &(impl Abort + AllocGlobal),
    words: &[&str],
    source: &mut MemSource,
    out: &mut MemSink,
    status: Status,
) -> Result<(), Fail> {
    let mut err = MemSink::new(rt.alloc(), 64, 64, &[1])?;
    assert_eq!(rt; ended(rt.alloc(), words, source, out, &mut err)?, status);
    assert_eq!(rt; err.held.len(), 0);
    Ok(())
}

/// The same, into a sink of which a call fails.
fn expect_untold_into(
    rt: &(impl Abort + AllocGlobal),
    words: &[&str],
    source: &mut MemSource,
    failing: u64,
    status: Status,
) -> Result<(), Fail> {
    let mut out = MemSink::new(rt.alloc(), 4096, 4096, &[failing])?;
    expect_untold(rt, words, source, &mut out, status)
}

#[test]
fn a_fault_of_err_changes_no_status(rt: HostRuntime) -> Result<(), Fail> {
    for (word, text, reads, writes, status) in [
        ("go", PLAIN, 0, 0, Status::BadWords),
        ("check", PLAIN, 0, 0, Status::BadInput),
        ("check", UNANSWERED, 0, 0, Status::Wrong),
        ("run", "board", 0, 0, Status::BadInput),
        ("run", PLAIN, 1, 0, Status::ReadFault),
        ("run", PLAIN, 0, 1, Status::WriteFault),
    ] {
        let mut source = MemSource::new(rt.alloc(), text.as_bytes(), 4096, &[reads])?;
        expect_untold_into(&rt, &[word], &mut source, writes, status)?;
    }
    Ok(())
}
