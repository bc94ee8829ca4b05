use crate::{Mark, Out, ending, fits_field, header};
use std::test::Fail;

#[test]
fn headers_of_lengths(rt: HostRuntime) {
    // Field, little, the length and its field.
    let rows: [(u8, bool, u64, &[u8]); 9] = [
        (1, false, 0, b"\x00"),
        (1, true, 255, b"\xff"),
        (1, false, 257, b"\x01"),
        (2, false, 258, b"\x01\x02"),
        (2, true, 258, b"\x02\x01"),
        (4, false, 0x0a0b_0c0d, b"\x0a\x0b\x0c\x0d"),
        (4, true, 0x0a0b_0c0d, b"\x0d\x0c\x0b\x0a"),
        (
            8,
            false,
            0x0102_0304_0506_0708,
            b"\x01\x02\x03\x04\x05\x06\x07\x08",
        ),
        (
            8,
            true,
            0x0102_0304_0506_0708,
            b"\x08\x07\x06\x05\x04\x03\x02\x01",
        ),
    ];
    for (field, little, n, want) in rows {
        let head = header(&Out::Length { field, little }, n);
        assert_eq!(rt; &head.bytes[..head.used], want, "{n} in {field}");
    }
    assert_eq!(rt; header(&Out::Line { crlf: true }, 7).used, 0);
    assert_eq!(rt; header(&Out::Raw, 7).used, 0);
}

#[test]
fn lengths_that_fit(rt: HostRuntime) {
    let rows = [
        (1, 255, true),
        (1, 256, false),
        (2, 65_535, true),
        (2, 65_536, false),
        (4, 4_294_967_295, true),
        (4, 4_294_967_296, false),
        (8, 18_446_744_073_709_551_615, true),
    ];
    for (field, n, want) in rows {
        let out = Out::Length {
            field,
            little: true,
        };
        assert_eq!(rt; fits_field(&out, n), want, "{n} in {field}");
    }
    assert!(rt; fits_field(&Out::Raw, u64::MAX));
}

#[test]
fn endings_of_frames(rt: HostRuntime) -> Result<(), Fail> {
    assert_eq!(rt; ending(&Out::Line { crlf: false }), b"\n".as_slice());
    assert_eq!(rt; ending(&Out::Line { crlf: true }), b"\r\n".as_slice());
    let mark = Mark::new(Vec::from_slice(rt.alloc(), b"--")?);
    assert_eq!(rt; ending(&Out::Delim { mark }), b"--".as_slice());
    assert_eq!(rt; ending(&Out::Raw), b"".as_slice());
    let out = Out::Length {
        field: 1,
        little: true,
    };
    assert_eq!(rt; ending(&out), b"".as_slice());
    Ok(())
}
