//! Readers and writers that give and take pieces, and that fail.

use byte_io::{
    Failed, MemSink, MemSource, ReadAllError, Sink, Source, StdSink, StdSource, read_all, write_all,
};

/// Ways to cut and to fail, and what becomes of a text of ten bytes under a limit.
#[test]
fn reads_and_writes_in_pieces(rt: HostRuntime) {
    let alloc = rt.alloc();
    for (most, fails, limit, wanted) in [
        (1, 0, 10, "whole"),
        (4096, 0, 10, "whole"),
        (3, 0, 9, "too long"),
        (3, 2, 10, "read fault"),
    ] {
        let fails = vec![in alloc; fails].expect(&rt, "memory");
        let bytes = b"ten bytes!".to_vec(alloc).expect(&rt, "memory");
        let mut src = MemSource::new(bytes, most, fails);
        let got = match read_all(alloc, &mut src, limit) {
            Ok(bytes) => {
                assert_eq!(&rt; bytes.as_slice(), b"ten bytes!".as_slice());
                "whole"
            }
            Err(ReadAllError::Memory) => "out of memory",
            Err(ReadAllError::Read) => "read fault",
            Err(ReadAllError::TooLong) => "too long",
        };
        assert_eq!(&rt; got, wanted);
    }
    for (room, most, fails, wanted) in [
        (10, 1, 0, b"ten bytes!".as_slice()),
        (4, 4096, 0, b"ten ".as_slice()),
        (10, 3, 3, b"ten by".as_slice()),
    ] {
        let fails = vec![in alloc; fails].expect(&rt, "memory");
        let mut out = MemSink::new(alloc, room, most, fails).expect(&rt, "memory");
        let all = write_all(&mut out, b"ten bytes!").is_ok();
        assert_eq!(&rt; out.bytes(), wanted);
        assert_eq!(&rt; all, wanted.len() == 10);
    }
}

/// The standard reader and writer, over slices and vectors in place of the process's own.
#[test]
fn adapts_the_standard_ones(rt: HostRuntime) {
    let alloc = rt.alloc();
    let mut src = StdSource::new(b"abc".as_slice());
    let mut buf = [0u8; 2];
    assert_eq!(&rt; src.read(&mut buf), Ok(2));
    assert_eq!(&rt; src.read(&mut buf), Ok(1));
    assert_eq!(&rt; src.read(&mut buf), Ok(0));
    let mut room = [0u8; 2];
    let mut out = StdSink::new(room.as_mut_slice());
    assert_eq!(&rt; out.write(b"ab"), Ok(2));
    assert_eq!(&rt; out.write(b"c"), Err(Failed));
    let _ = alloc;
}
