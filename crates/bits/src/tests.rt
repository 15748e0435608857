// Examples of fields read from bytes.
use super::{read_field, read_signed};

#[test]
fn fields_at_any_place(rt: HostRuntime) {
    let bytes: [u8; 4] = [0x12, 0x34, 0x56, 0x78];
    assert_eq!(rt; read_field(&bytes, 8, 16), 0x3456, "aligned");
    assert_eq!(rt; read_field(&bytes, 4, 12), 0x234, "unaligned");
    assert_eq!(rt; read_field(&bytes, 28, 8), 0x80, "past the end");
}

#[test]
fn signed_fields(rt: HostRuntime) {
    // 3 bits, then the 21 bits of -2, then 8 bits.
    let bytes: [u8; 4] = [0x1f, 0xff, 0xfe, 0x55];
    assert_eq!(rt; read_signed(&bytes, 3, 21), -2, "negative");
    assert_eq!(rt; read_signed(&bytes, 24, 8), 0x55, "positive");
    assert_eq!(rt; read_signed(&bytes, 0, 32), 0x1fff_fe55, "all 32 bits");
}
