// A mill curve that is written out: any points may stand past those that are its own.
use exact::bounds::Bounds;
use laws::asking::ask;
use laws::mill::Mill;
use laws::mill::point::Point;

#[test]
fn points_past_the_count_are_any(rt: HostRuntime) {
    let yields = Point {
        ratio: 690,
        stress: 60_000,
    };
    let past = Point {
        ratio: u32::MAX,
        stress: u32::MAX,
    };
    let curve = Mill {
        points: [Point::ORIGIN, yields, past, past, past, past, past, past],
        count: 2,
    };
    // the rise of 60,000 psi over 0.69, and flat from there on
    for (n, m, floor, ceiling) in [
        (0, 1, 0, 0),
        (69, 200, 30_000, 30_000),
        (1, 7, 12_422, 12_423),
        (-1, 7, -12_423, -12_422),
        (1, 1, 60_000, 60_000),
        (-120, 1, -60_000, -60_000),
    ] {
        assert_eq!(rt; ask(&curve, n, m), Ok(Bounds { floor, ceiling }));
    }
}
