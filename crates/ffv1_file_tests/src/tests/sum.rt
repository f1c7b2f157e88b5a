//! The CRC-32: values that zlib gives, whole and in parts.

use ffv1_sum::{crc32, more};

/// The numbers from 0 to 255.
fn numbers() -> [u8; 256] {
    let mut bytes = [0; 256];
    for (byte, number) in bytes.iter_mut().zip(0..=255u8) {
        *byte = number;
    }
    bytes
}

#[test]
fn sums(rt: HostRuntime) {
    let bytes = numbers();
    assert!(rt; crc32(b"") == 0);
    assert!(rt; crc32(b"a") == 0xE8B7_BE43);
    assert!(rt; crc32(b"123456789") == 0xCBF4_3926);
    assert!(rt; crc32(&bytes[100..123]) == 0x2608_E551);
    assert!(rt; crc32(&bytes) == 0x2905_8C73);
}

/// Of every two parts.
#[test]
fn in_parts(rt: HostRuntime) {
    let bytes = numbers();
    for place in 0..257usize {
        let (first, last) = bytes.split_at(place);
        assert!(rt; more(more(!0, first), last) == 0x2905_8C73 ^ !0, "{place}");
    }
}
