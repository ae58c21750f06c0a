// Entries that fit no word.
use words::entry::Entry;
use words::fault::Fault;

const NO_WORDS: [Entry; 28] = [
    Entry::Open {
        fc: 4050,
        fy: 60000,
    },
    Entry::Open {
        fc: 4000,
        fy: 60010,
    },
    Entry::Open {
        fc: -100,
        fy: 60000,
    },
    Entry::Open { fc: 4000, fy: -100 },
    Entry::Open { fc: 1638400, fy: 0 },
    Entry::Open {
        fc: 0,
        fy: i64::MIN,
    },
    Entry::Lay {
        thickness: 16384,
        width: 1,
    },
    Entry::Lay {
        thickness: 1,
        width: 16384,
    },
    Entry::Lay {
        thickness: -1,
        width: 1,
    },
    Entry::Lay {
        thickness: 1,
        width: i64::MIN,
    },
    Entry::Place {
        bar: 12,
        count: 1,
        depth: 1,
    },
    Entry::Place {
        bar: -3,
        count: 1,
        depth: 1,
    },
    Entry::Place {
        bar: i64::MAX,
        count: 1,
        depth: 1,
    },
    Entry::Place {
        bar: 3,
        count: 64,
        depth: 1,
    },
    Entry::Place {
        bar: 3,
        count: -1,
        depth: 1,
    },
    Entry::Place {
        bar: 3,
        count: 1,
        depth: 16384,
    },
    Entry::Place {
        bar: 3,
        count: 1,
        depth: i64::MIN,
    },
    Entry::Lift { row: -1 },
    Entry::Lift { row: 268435456 },
    Entry::Lift { row: i64::MIN },
    Entry::Axial { pu: 134217728 },
    Entry::Axial { pu: -134217729 },
    Entry::Axial { pu: i64::MIN },
    Entry::Axial { pu: i64::MAX },
    Entry::Moment { member: 4, mu: 0 },
    Entry::Moment { member: -1, mu: 0 },
    Entry::Moment {
        member: 1,
        mu: 67108864,
    },
    Entry::Moment {
        member: 1,
        mu: i64::MIN,
    },
];

#[test]
fn entries_fit_no_word(rt: HostRuntime) {
    for entry in NO_WORDS.iter() {
        assert_eq!(rt; u32::try_from(*entry), Err(Fault::Unwritable));
    }
}
