//! Digests of long texts, by FNV-1a of 64 bits.

/// The digest of no bytes.
pub(crate) const NO_BYTES: u64 = 0xCBF2_9CE4_8422_2325;

/// The digest of these bytes after those that gave `start`.
pub(crate) fn digest(start: u64, bytes: &[u8]) -> u64 {
    let mut digest = start;
    for byte in bytes {
        digest = (digest ^ *byte as u64).wrapping_mul(0x0100_0000_01B3);
    }
    digest
}
