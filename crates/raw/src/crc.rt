// CRC-32 (IEEE, as zlib has it): it stands for bytes that would be too long for a line.

// The polynomial, its bits in reverse.
const POLYNOMIAL: u32 = 0xEDB88320;

// The checksum of the bytes, bit by bit: a table of 256 entries would be faster, and no test waits
// for it.
pub fn crc32(bytes: &[u8]) -> u32 {
    let mut crc = u32::MAX;
    for byte in bytes {
        crc ^= u32::from(*byte);
        for _ in 0..8 {
            crc = if crc % 2 == 1 {
                (crc >> 1) ^ POLYNOMIAL
            } else {
                crc >> 1
            };
        }
    }
    !crc
}
