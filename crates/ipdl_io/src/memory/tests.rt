//! Tests of the source and the sink in memory.

use super::*;
use std::test::Fail;

// How many bytes a read has room for.
const SIZE: usize = 4;

// One read through the bound.
fn read<S: Source>(source: &mut S, into: &mut [u8; SIZE]) -> Got {
    source.read(into)
}

// One write of three bytes through the bound.
fn write<K: Sink>(sink: &mut K) -> Put {
    sink.write(b"xyz")
}

#[test]
fn source_gives_all_in_pieces(rt: HostRuntime) -> Result<(), Fail> {
    use Got::{Bytes, End, Failed};
    // No test comes to a call of number 9.
    for (piece, failing, want, faults) in [
        (2, [9, 9], [Bytes(2), Bytes(2), Bytes(1), End, End], 0),
        (2, [1, 9], [Bytes(2), Failed, Bytes(2), Bytes(1), End], 1),
        (9, [0, 3], [Failed, Bytes(4), Bytes(1), Failed, End], 2),
    ] {
        assert!(rt; 0 < piece);
        let bytes = b"abcde".to_vec(rt.alloc())?;
        let mut source = MemSource::new(bytes, piece, failing.to_vec(rt.alloc())?);
        let mut given = Vec::new(rt.alloc());
        let mut into = [0; SIZE];
        for answer in want {
            let got = read(&mut source, &mut into);
            assert_eq!(rt; got, answer);
            if let Bytes(count) = got {
                assert!(rt; count <= SIZE);
                given.extend_from_slice(&into[..count])?;
            }
        }
        assert_eq!(rt; given.as_slice(), b"abcde".as_slice());
        assert_eq!(rt; source.faults, faults);
    }
    Ok(())
}

#[test]
fn sink_takes_up_to_its_room(rt: HostRuntime) -> Result<(), Fail> {
    use Put::{Failed, Took};
    for (room, piece, failing, want, taken, faults) in [
        (8, 4, [9, 9], [Took(3), Took(3), Took(2)], "xyzxyzxy", 0),
        (3, 2, [9, 9], [Took(2), Took(1), Failed], "xyx", 1),
        (8, 4, [1, 9], [Took(3), Failed, Took(3)], "xyzxyz", 1),
        (0, 1, [9, 9], [Failed, Failed, Failed], "", 3),
    ] {
        assert!(rt; 0 < piece);
        let fails = failing.to_vec(rt.alloc())?;
        let mut sink = MemSink::new(rt.alloc(), room, piece, fails).map_err(|_| "no memory")?;
        assert!(rt; sink.taken().is_empty());
        for answer in want {
            assert_eq!(rt; write(&mut sink), answer);
        }
        assert_eq!(rt; sink.taken(), taken.as_bytes());
        assert_eq!(rt; sink.faults, faults);
    }
    let none = Vec::new(rt.alloc());
    assert!(rt; MemSink::new(rt.alloc(), usize::MAX, 1, none).is_err());
    Ok(())
}
