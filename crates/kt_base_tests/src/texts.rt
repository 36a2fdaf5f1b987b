//! Texts as code units and as bytes.

use kt_base::Text16;
use std::alloc::Global;
use std::process::Abort;
use std::test::Fail;

/// Texts and their code units. The second row is the example of Unicode §3.9, D91.
fn texts() -> [(&'static str, &'static [u16]); 9] {
    [
        ("", &[]),
        (
            "\u{4D}\u{430}\u{4E8C}\u{10302}",
            &[0x4D, 0x430, 0x4E8C, 0xD800, 0xDF02],
        ),
        ("\0a~\u{7F}", &[0, 0x61, 0x7E, 0x7F]),
        ("\u{80}\u{7FF}", &[0x80, 0x7FF]),
        ("\u{800}\u{D7FF}\u{E000}", &[0x800, 0xD7FF, 0xE000]),
        ("\u{FFFF}", &[0xFFFF]),
        ("\u{10000}", &[0xD800, 0xDC00]),
        ("a\u{1F600}b", &[0x61, 0xD83D, 0xDE00, 0x62]),
        ("\u{10FFFF}", &[0xDBFF, 0xDFFF]),
    ]
}

#[test]
fn units_of_texts(rt: HostRuntime) -> Result<(), Fail> {
    for (text, units) in texts() {
        let found = Text16::of(rt.alloc(), text)?;
        assert_eq!(rt; found.units(), units, "of {text}");
        let same = Text16::from_units(Vec::from_slice(rt.alloc(), units)?);
        assert_eq!(rt; found.clone()?, same, "of {text}");
        appends(&rt, rt.alloc(), units, text.as_bytes())?;
    }
    assert_eq!(rt; Text16::new(rt.alloc()).units().len(), 0);
    Ok(())
}

/// Checks that the bytes of the units come behind what stands there.
fn appends(rt: &impl Abort, alloc: Global, units: &[u16], bytes: &[u8]) -> Result<(), Fail> {
    let text = Text16::from_units(Vec::from_slice(alloc, units)?);
    let mut into = Vec::from_slice(alloc, b"=")?;
    let mut want = Vec::from_slice(alloc, b"=")?;
    want.extend_from_slice(bytes)?;
    text.put_utf8(&mut into)?;
    assert_eq!(rt; into, want, "of {units:?}");
    Ok(())
}

/// Code units and their bytes. The first row is the example of Unicode §3.9, D92.
fn spelled() -> [(&'static [u16], &'static [u8]); 12] {
    [
        (
            &[0x4D, 0x430, 0x4E8C, 0xD800, 0xDF02],
            b"\x4D\xD0\xB0\xE4\xBA\x8C\xF0\x90\x8C\x82",
        ),
        (&[0xD800], b"?"),
        (&[0xDBFF], b"?"),
        (&[0xDC00], b"?"),
        (&[0xDFFF], b"?"),
        (&[0xD83D, 0xD83D, 0xDE00], b"?\xF0\x9F\x98\x80"),
        (&[0xD83D, 0xDE00, 0xDE00], b"\xF0\x9F\x98\x80?"),
        (&[0xDE00, 0xD83D], b"??"),
        (&[0xD83D, 0x41], b"?A"),
        (&[0x41, 0xDE00], b"A?"),
        (&[0xD7FF, 0xE000], b"\xED\x9F\xBF\xEE\x80\x80"),
        (&[0xDBFF, 0xDFFF], b"\xF4\x8F\xBF\xBF"),
    ]
}

#[test]
fn bytes_of_units(rt: HostRuntime) -> Result<(), Fail> {
    for (units, bytes) in spelled() {
        appends(&rt, rt.alloc(), units, bytes)?;
    }
    Ok(())
}
