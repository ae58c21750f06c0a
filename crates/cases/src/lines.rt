// Lines of text, as words or as refusals that tell the line and what was expected of it.
use composing::compose::{Failure, compose};
use std::test::Fail;

const SOLVE: &[u8] = &[0x70, 0, 0, 0];

const TEXTS: [(&str, &[u8]); 10] = [
    ("", &[]),
    ("\n\n \t\r\n# solve\n  #solve\n", &[]),
    ("solve", SOLVE),
    ("solve\r\n", SOLVE),
    ("7 solve\n", SOLVE),
    ("99999999999999999999999999 \t solve \n", SOLVE),
    ("lift row 2\n\nsolve\n", &[0x40, 0, 0, 2, 0x70, 0, 0, 0]),
    ("axial pu -1", &[0x5F, 0xFF, 0xFF, 0xFF]),
    ("axial pu +007", &[0x50, 0, 0, 7]),
    (
        "0 place bar 18 count 63 depth 16383\n",
        &[0x30, 0xAF, 0xFF, 0xFF],
    ),
];

const REFUSED: [(&str, &str); 18] = [
    (
        "solve\nfoo\nbar\n",
        "line 2: expected open, lay, place, lift, axial, moment or solve",
    ),
    (
        "\n\n12\n",
        "line 3: expected open, lay, place, lift, axial, moment or solve",
    ),
    (
        "1 2 solve",
        "line 1: expected open, lay, place, lift, axial, moment or solve",
    ),
    (
        "refused 13 at 0",
        "line 1: expected open, lay, place, lift, axial, moment or solve",
    ),
    (
        "Solve",
        "line 1: expected open, lay, place, lift, axial, moment or solve",
    ),
    ("open fc 4000", "line 1: expected open fc N fy N"),
    (
        "lay thickness 1 width 2 3",
        "line 1: expected lay thickness N width N",
    ),
    (
        "place count 1 bar 3 depth 1",
        "line 1: expected place bar N count N depth N",
    ),
    (
        "lift row 9223372036854775808",
        "line 1: expected lift row N",
    ),
    ("axial pu", "line 1: expected axial pu N"),
    (
        "moment member 1 mu x",
        "line 1: expected moment member N mu N",
    ),
    ("solve # now", "line 1: expected solve alone"),
    (
        "#\nopen fc 4050 fy 60000",
        "line 2: expected fc and fy multiples of 100 from 0 to 1638300",
    ),
    (
        "lay thickness 16384 width 1",
        "line 1: expected thickness and width from 0 to 16383",
    ),
    (
        "place bar 12 count 1 depth 1",
        "line 1: expected count from 0 to 63, depth from 0 to 16383, bar one of 3 4 5 6 7 8 9 10 11 14 18",
    ),
    ("lift row -1", "line 1: expected row from 0 to 268435455"),
    (
        "axial pu 134217728",
        "line 1: expected pu from -134217728 to 134217727",
    ),
    (
        "moment member 4 mu 0",
        "line 1: expected member from 0 to 3, mu from 0 to 67108863",
    ),
];

#[test]
fn lines_ask_for_words(rt: HostRuntime) -> Result<(), Fail> {
    for (text, words) in TEXTS.iter() {
        let bytes = compose(rt.alloc(), text.as_bytes())?;
        assert_eq!(rt; bytes.as_slice(), *words);
    }
    Ok(())
}

#[test]
fn want_of_memory_is_told(rt: HostRuntime) -> Result<(), Fail> {
    let failure = Failure::Memory;
    assert_eq!(rt;
        format!(in rt.alloc(); "{failure}")?.as_str(),
        "out of memory"
    );
    Ok(())
}

#[test]
fn lines_are_refused(rt: HostRuntime) -> Result<(), Fail> {
    for (text, told) in REFUSED.iter() {
        match compose(rt.alloc(), text.as_bytes()) {
            Ok(_) => return Err(Fail::new(*text)),
            Err(failure) => assert_eq!(rt; format!(in rt.alloc(); "{failure}")?.as_str(), *told),
        }
    }
    Ok(())
}
