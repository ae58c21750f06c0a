// Each kind of word at the edges of its fields, read and written; words that stand for nothing.
use words::entry::Entry;
use words::fault::Fault;
use words::kind::Kind;

const WORDS: [(u32, Entry); 24] = [
    (
        0x100A_0258,
        Entry::Open {
            fc: 4000,
            fy: 60000,
        },
    ),
    (
        0x2258_04B0,
        Entry::Lay {
            thickness: 2400,
            width: 1200,
        },
    ),
    (
        0x3050_C866,
        Entry::Place {
            bar: 8,
            count: 3,
            depth: 2150,
        },
    ),
    (
        0x6400_09C4,
        Entry::Moment {
            member: 1,
            mu: 2500,
        },
    ),
    (0x7000_0000, Entry::Solve),
    (0x1000_0000, Entry::Open { fc: 0, fy: 0 }),
    (0x1000_4000, Entry::Open { fc: 100, fy: 0 }),
    (
        0x1FFF_FFFF,
        Entry::Open {
            fc: 1638300,
            fy: 1638300,
        },
    ),
    (
        0x2FFF_C000,
        Entry::Lay {
            thickness: 16383,
            width: 0,
        },
    ),
    (
        0x2000_3FFF,
        Entry::Lay {
            thickness: 0,
            width: 16383,
        },
    ),
    (
        0x3000_0000,
        Entry::Place {
            bar: 3,
            count: 0,
            depth: 0,
        },
    ),
    (
        0x300F_C000,
        Entry::Place {
            bar: 3,
            count: 63,
            depth: 0,
        },
    ),
    (
        0x3090_7FFF,
        Entry::Place {
            bar: 14,
            count: 1,
            depth: 16383,
        },
    ),
    (
        0x30AF_FFFF,
        Entry::Place {
            bar: 18,
            count: 63,
            depth: 16383,
        },
    ),
    (0x4000_0000, Entry::Lift { row: 0 }),
    (0x4FFF_FFFF, Entry::Lift { row: 268435455 }),
    (0x5000_0000, Entry::Axial { pu: 0 }),
    (0x57FF_FFFF, Entry::Axial { pu: 134217727 }),
    (0x5800_0000, Entry::Axial { pu: -134217728 }),
    (0x5FFF_FFFF, Entry::Axial { pu: -1 }),
    (0x6000_0000, Entry::Moment { member: 0, mu: 0 }),
    (
        0x63FF_FFFF,
        Entry::Moment {
            member: 0,
            mu: 67108863,
        },
    ),
    (0x6C00_0000, Entry::Moment { member: 3, mu: 0 }),
    (
        0x6FFF_FFFF,
        Entry::Moment {
            member: 3,
            mu: 67108863,
        },
    ),
];

// unknown kinds; stray bits of a solve and of a place; positions past the last bar
const NO_ENTRIES: [u32; 12] = [
    0x0000_0000,
    0x0FFF_FFFF,
    0x8000_0000,
    0xF000_0000,
    0xFFFF_FFFF,
    0x7000_0001,
    0x7800_0000,
    0x3100_0000,
    0x3800_0000,
    0x3F00_0000,
    0x30B0_0000,
    0x30F0_0000,
];

#[test]
fn words_stand_for_entries(rt: HostRuntime) {
    for (word, entry) in WORDS.iter() {
        assert_eq!(rt; Entry::try_from(*word), Ok(*entry));
        assert_eq!(rt; u32::try_from(*entry), Ok(*word));
    }
}

#[test]
fn words_stand_for_nothing(rt: HostRuntime) {
    for word in NO_ENTRIES.iter() {
        assert_eq!(rt; Entry::try_from(*word), Err(Fault::Unreadable));
    }
    assert_eq!(rt; u32::from(Fault::Unreadable), 13);
    assert_eq!(rt; u32::from(Fault::Unwritable), 13);
    assert_eq!(rt; u32::from(Fault::Unfinished), 15);
}

#[test]
fn codes_stand_for_kinds(rt: HostRuntime) {
    assert_eq!(rt; Kind::try_from(1), Ok(Kind::Open));
    assert_eq!(rt; Kind::try_from(7), Ok(Kind::Solve));
    assert_eq!(rt; Kind::try_from(0), Err(Fault::Unreadable));
    assert_eq!(rt; Kind::try_from(8), Err(Fault::Unreadable));
}
