//! Digests of long outputs, by FNV-1a of 64 bits.

/// The digest of these bytes.
pub(crate) fn digest(bytes: &[u8]) -> u64 {
    let mut digest: u64 = 0xCBF2_9CE4_8422_2325;
    for byte in bytes {
        digest = (digest ^ *byte as u64).wrapping_mul(0x0100_0000_01B3);
    }
    digest
}
