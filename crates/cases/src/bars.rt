// The table of bars, by position and by number.
use section::bars::{Bar, bar_at, bar_numbered, position_of};

const FIRST: Bar = Bar {
    number: 3,
    area: 1100,
};

const LAST: Bar = Bar {
    number: 18,
    area: 40000,
};

const EIGHT: Bar = Bar {
    number: 8,
    area: 7900,
};

const NO_BARS: [i64; 9] = [0, 1, 2, 12, 13, 15, 17, 19, -3];

#[test]
fn by_position(rt: HostRuntime) {
    assert_eq!(rt; bar_at(0), Some(FIRST));
    assert_eq!(rt; bar_at(10), Some(LAST));
    assert_eq!(rt; bar_at(11), None);
    assert_eq!(rt; bar_at(usize::MAX), None);
}

#[test]
fn by_number(rt: HostRuntime) {
    assert_eq!(rt; bar_numbered(8), Some(EIGHT));
    assert_eq!(rt; position_of(3), Some(0));
    assert_eq!(rt; position_of(14), Some(9));
    for number in NO_BARS.iter() {
        assert_eq!(rt; bar_numbered(*number), None);
        assert_eq!(rt; position_of(*number), None);
    }
    assert_eq!(rt; bar_numbered(i64::MIN), None);
    assert_eq!(rt; bar_numbered(i64::MAX), None);
}
