//! The program: the real words and streams, handed to the library's top call, and the status that it
//! gives.
#![tactic(auto)]

use contour_core::{Status, contour};
use geo_rect::NoMemory;
use io_edge::{ReadSource, WriteSink};
use std::alloc::AllocError;
use std::process::ExitCode;
use std::rt::Env;
use std::{env, io};

/// The words of the command line without the program's own name. Where they cannot be had for
/// another cause than memory, as where one is no UTF-8, there are none.
fn words<R: Env + AllocGlobal>(rt: &R) -> Result<Vec<String>, NoMemory> {
    match env::args(rt) {
        Ok(args) => Ok(args.skip(1).collect(rt.alloc())?),
        Err(error) if error.kind() == io::ErrorKind::OutOfMemory => Err(NoMemory),
        Err(_) => Ok(Vec::new(rt.alloc())),
    }
}

fn main(rt: HostRuntime) -> ExitCode {
    let Ok(words) = words(&rt) else {
        return ExitCode::from(Status::NoMemory as u8);
    };
    let mut source = ReadSource {
        inner: rt.stdin(),
        failed: 0,
    };
    let mut out = WriteSink {
        inner: rt.stdout(),
        failed: 0,
    };
    let mut err = WriteSink {
        inner: rt.stderr(),
        failed: 0,
    };
    let status = contour(
        rt.alloc(),
        words.as_slice(),
        &mut source,
        &mut out,
        &mut err,
    );
    ExitCode::from(status as u8)
}
