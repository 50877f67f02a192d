//! Tests of bits, names, paths, lists and limits.

use crate::{Bits, Limit, List, Name, NameFault, OutOfBits, Path};
use std::cmp::Ordering;
use std::test::Fail;

// A width with a value.
type Told = (u8, u128);

fn told(bits: Bits) -> Told {
    (bits.width(), bits.value())
}

#[test]
fn makes_bits_within_the_width(rt: HostRuntime) {
    for (width, value, fits) in [
        (2, 3, true),
        (2, 4, false),
        (0, 0, true),
        (0, 1, false),
        (128, u128::MAX, true),
        (129, 0, false),
        (255, 1, false),
    ] {
        let want = fits.then_some((width, value));
        assert_eq!(rt;
            Bits::new(width, value).map(told),
            want,
            "{value} in {width} bits"
        );
    }
}

// The operands, and what `xor`, `and`, `cat` and `same` make of them.
const OF_TWO: [(Told, Told, [Option<Told>; 4]); 6] = [
    (
        (4, 0b0011),
        (4, 0b0101),
        [
            Some((4, 0b0110)),
            Some((4, 0b0001)),
            Some((8, 0b0011_0101)),
            Some((1, 0)),
        ],
    ),
    (
        (0, 0),
        (0, 0),
        [Some((0, 0)), Some((0, 0)), Some((0, 0)), Some((1, 1))],
    ),
    (
        (4, 0b0011),
        (3, 0b011),
        [None, None, Some((7, 0b0011_011)), None],
    ),
    (
        (128, u128::MAX),
        (128, u128::MAX),
        [Some((128, 0)), Some((128, u128::MAX)), None, Some((1, 1))],
    ),
    ((2, 0b01), (1, 0b1), [None, None, Some((3, 0b011)), None]),
    (
        (0, 0),
        (128, u128::MAX),
        [None, None, Some((128, u128::MAX)), None],
    ),
];

// What `xor`, `and`, `cat` and `same` make of the two.
fn made(a: Bits, b: Bits) -> [Option<Told>; 4] {
    [a.xor(b), a.and(b), a.cat(b), a.same(b)].map(|bits| bits.map(told))
}

#[test]
fn works_on_two(rt: HostRuntime) -> Result<(), Fail> {
    for (left, right, want) in OF_TWO {
        let a = Bits::new(left.0, left.1).ok_or("no such bits")?;
        let b = Bits::new(right.0, right.1).ok_or("no such bits")?;
        assert!(rt; made(a, b) == want && (a == b) == (left == right));
    }
    Ok(())
}

#[test]
fn works_on_one(rt: HostRuntime) -> Result<(), Fail> {
    for (width, value, from, count, not, cut) in [
        (3, 0b011, 0, 2, 0b100, Ok((2, 0b01))),
        (3, 0b011, 1, 2, 0b100, Ok((2, 0b11))),
        (3, 0b011, 3, 0, 0b100, Ok((0, 0))),
        (3, 0b011, 1, 3, 0b100, Err(OutOfBits { end: 4, width: 3 })),
        (0, 0, 0, 0, 0, Ok((0, 0))),
        (128, u128::MAX, 0, 128, 0, Ok((128, u128::MAX))),
        (
            128,
            u128::MAX,
            255,
            255,
            0,
            Err(OutOfBits {
                end: 510,
                width: 128,
            }),
        ),
    ] {
        let bits = Bits::new(width, value).ok_or("no such bits")?;
        assert_eq!(rt; told(bits.not()), (width, not));
        assert_eq!(rt; bits.cut(from, count).map(told), cut);
    }
    Ok(())
}

#[test]
fn reads_names(rt: HostRuntime) -> Result<(), Fail> {
    for text in [
        "k_1",
        "_",
        "é",
        "aaaaaaaaaaaaaaaaaaaaaaaaaaaaaaaaaaaaaaaaaaaaaaaaaaaaaaaaaaaaaaaa",
        "éééééééééééééééééééééééééééééééé",
    ] {
        let name = Name::read(rt.alloc(), text)?;
        assert_eq!(rt; name.text(), text);
        assert!(rt; name.copy(rt.alloc())? == name);
    }
    Ok(())
}

#[test]
fn refuses_other_texts(rt: HostRuntime) {
    for text in [
        "",
        "1k",
        "a-b",
        "a ",
        "aaaaaaaaaaaaaaaaaaaaaaaaaaaaaaaaaaaaaaaaaaaaaaaaaaaaaaaaaaaaaaaaa",
        "ééééééééééééééééééééééééééééééééa",
    ] {
        assert_eq!(rt; Name::read(rt.alloc(), text).err(), Some(NameFault::Bad));
    }
}

#[test]
fn orders_names_by_bytes(rt: HostRuntime) -> Result<(), Fail> {
    for (low, high) in [("B", "a"), ("a", "a1"), ("a1", "é")] {
        let low = Name::read(rt.alloc(), low)?;
        let high = Name::read(rt.alloc(), high)?;
        assert_eq!(rt; low.cmp(&high), Ordering::Less);
    }
    Ok(())
}

#[test]
fn grows_paths(rt: HostRuntime) -> Result<(), Fail> {
    let mut path = Path::root(rt.alloc());
    path.push(1)?;
    assert!(rt; path.parts() == [1].as_slice() && path != Path::root(rt.alloc()));
    assert!(rt; Path::from_parts(rt.alloc(), path.parts())? == path);
    Ok(())
}

#[test]
fn grows_lists(rt: HostRuntime) -> Result<(), Fail> {
    let mut list = List::from_vec(vec![in rt.alloc(); 1u8]?);
    list.push(2)?;
    assert!(rt; list.as_slice() == [1, 2].as_slice() && list != List::empty(rt.alloc()));
    assert_eq!(rt; list.into_vec().len(), 2);
    Ok(())
}

#[test]
fn tells_limits(rt: HostRuntime) {
    for (limit, number) in [
        (Limit::Source, 1_048_576),
        (Limit::Depth, 200),
        (Limit::Items, 512),
        (Limit::Channels, 512),
        (Limit::Nodes, 4_096),
        (Limit::Steps, 2_048),
        (Limit::Chain, 8_192),
        (Limit::Output, 16_777_216),
        (Limit::Coins, 16),
    ] {
        assert_eq!(rt; limit.number(), number, "{limit:?}");
    }
}
