ghost use Rattle.std.specs.Prelude.{◌≡◌, ◌+◌, ◌≤◌, [], length, IsErrOf, IsOk};

use geo_rect::List;
use io_edge::{
    MemSink, MemSource, ReadEnd, ReadSource, WriteFault, WriteSink, read_all, write_all,
};
use std::alloc::Global;
use std::io::{self, Read};
use std::test::Fail;

const TEXT: [u8; 9] = [1, 2, 3, 4, 5, 6, 7, 8, 9];

// A source with no failing call is read with no fault.
fn read_plain(alloc: Global, source: &mut MemSource, limit: usize) -> Result<List<u8>, ReadEnd>
    requires fails { source.old.fails ≡ [] }
    requires limit { limit ≤ 100 }
    ensures { IsErrOf result ReadEnd.ReadFault → ⊥ }
{
    read_all(alloc, source, limit)
}

// A sink with no failing call is written with no fault, where it has room for one piece more.
fn write_plain(sink: &mut MemSink, bytes: &[u8]) -> Result<(), WriteFault>
    requires fails { sink.old.fails ≡ [] }
    requires room { length sink.old.held.items + length bytes.now + sink.old.most ≤ sink.old.room }
    ensures { IsOk result }
{
    write_all(sink, bytes)
}

#[test]
fn reads_up_to_the_limit(rt: HostRuntime) -> Result<(), Fail> {
    for most in 1..20 {
        let mut source = MemSource::new(rt.alloc(), &TEXT[..8], most, &[])?;
        let list = read_plain(rt.alloc(), &mut source, 8)?;
        assert_eq!(rt; list.as_slice(), &TEXT[..8]);
        let mut source = MemSource::new(rt.alloc(), &TEXT, most, &[])?;
        let end = read_plain(rt.alloc(), &mut source, 8).err();
        assert_eq!(rt; end, Some(ReadEnd::TooLong));
    }
    Ok(())
}

// Eight bytes, three a call: the fourth call is the end.
#[test]
fn fails_at_each_read(rt: HostRuntime) -> Result<(), Fail> {
    for k in 1..=5u64 {
        let mut source = MemSource::new(rt.alloc(), &TEXT[..8], 3, &[k])?;
        let end = read_all(rt.alloc(), &mut source, 8).err();
        let want = (k <= 4).then_some(ReadEnd::ReadFault);
        assert_eq!(rt; end, want, "at {k}");
        assert_eq!(rt; source.calls, k.min(4), "at {k}");
    }
    Ok(())
}

#[test]
fn fails_at_the_second_write(rt: HostRuntime) -> Result<(), Fail> {
    let text = [7; 25];
    let mut sink = MemSink::new(rt.alloc(), 100, 10, &[2])?;
    assert_eq!(rt; write_all(&mut sink, &text), Err(WriteFault));
    assert_eq!(rt; sink.held.as_slice(), &text[..10]);
    assert_eq!(rt; (sink.calls, sink.full), (2, 0));
    Ok(())
}

#[test]
fn fails_without_room(rt: HostRuntime) -> Result<(), Fail> {
    let mut sink = MemSink::new(rt.alloc(), 20, 10, &[])?;
    assert_eq!(rt; write_all(&mut sink, &TEXT), Ok(()));
    assert_eq!(rt; write_all(&mut sink, &[7; 25]), Err(WriteFault));
    assert_eq!(rt; (sink.held.len(), sink.full), (19, 1));
    Ok(())
}

#[test]
fn writes_with_room(rt: HostRuntime) -> Result<(), Fail> {
    let mut sink = MemSink::new(rt.alloc(), 19, 10, &[])?;
    write_plain(&mut sink, &TEXT).unwrap();
    assert_eq!(rt; sink.held.as_slice(), TEXT.as_slice());
    Ok(())
}

#[derive(Drop)]
struct Broken;

impl Read for Broken {
    fn read(&mut self, _buf: &mut [u8]) -> io::Result<usize> {
        Err(io::Error::from(io::ErrorKind::Interrupted))
    }
}

#[test]
fn adapts_readers_and_writers(rt: HostRuntime) -> Result<(), Fail> {
    let mut source = ReadSource {
        inner: &TEXT[..],
        failed: 0,
    };
    let list = read_all(rt.alloc(), &mut source, 9)?;
    assert_eq!(rt; list.as_slice(), TEXT.as_slice());

    let mut broken = ReadSource {
        inner: Broken,
        failed: u64::MAX - 1,
    };
    for _ in 0..2 {
        assert_eq!(rt;
            read_all(rt.alloc(), &mut broken, 9).err(),
            Some(ReadEnd::ReadFault)
        );
        assert_eq!(rt; broken.failed, u64::MAX);
    }

    let mut sink = WriteSink {
        inner: Vec::new(rt.alloc()),
        failed: 0,
    };
    assert_eq!(rt; write_all(&mut sink, list.as_slice()), Ok(()));
    assert_eq!(rt; sink.inner.as_slice(), TEXT.as_slice());

    let mut space = [0; 4];
    let mut narrow = WriteSink {
        inner: &mut space[..],
        failed: 0,
    };
    assert_eq!(rt; write_all(&mut narrow, &TEXT), Err(WriteFault));
    assert_eq!(rt; narrow.failed, 1);
    Ok(())
}
