// Streams of bytes, listed.
use listing::list;
use std::test::Fail;

const STREAMS: [(&[u8], &str); 6] = [
    (&[], ""),
    (&[0x70], "refused 15 at 0\n"),
    (&[0x70, 0, 0, 0], "0 solve\n"),
    (
        &[0x70, 0, 0, 0, 0x5F, 0xFF, 0x3C, 0xB0, 9, 9],
        "0 solve\n1 axial pu -50000\nrefused 15 at 2\n",
    ),
    (
        &[0x70, 0, 0, 1, 0x40, 0, 0, 2, 0, 0, 0],
        "refused 13 at 0\n1 lift row 2\nrefused 15 at 2\n",
    ),
    (
        &[
            0x10, 0x0A, 0x02, 0x58, 0x80, 0, 0, 0, 0x22, 0x58, 0x04, 0xB0,
        ],
        "0 open fc 4000 fy 60000\nrefused 13 at 1\n2 lay thickness 2400 width 1200\n",
    ),
];

#[test]
fn streams_are_listed(rt: HostRuntime) -> Result<(), Fail> {
    for (bytes, text) in STREAMS.iter() {
        let listed = list(rt.alloc(), *bytes)?;
        assert_eq!(rt; listed.as_str(), *text);
    }
    Ok(())
}
