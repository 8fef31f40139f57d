//! The checksum of a message: CRC-32C (RFC 3720, appendix B.4).

ghost use Rattle.std.specs.Prelude.{◌≡◌, ◌≤◌, ◌↔◌, IsTrue, length};
ghost use Rattle.bson_message.specs.Checksum.{HasChecksum, IsSummed, bit_further, byte_further, crc32c};

use crate::words::word_at;

/// The polynomial 1EDC6F41, its lowest bit first.
const POLYNOMIAL: u32 = 0x82F6_3B78;

/// One bit further.
#[tactic(auto, unfolding(crate::specs::Checksum::bit_further))]
fn bit_further(left: u32) -> u32
    ensures { result ≡ bit_further left }
{
    if left % 2 == 1 {
        left / 2 ^ POLYNOMIAL
    } else {
        left / 2
    }
}

/// One byte further.
#[tactic(auto, unfolding(crate::specs::Checksum::byte_further))]
fn byte_further(left: u32, byte: u8) -> u32
    ensures { result ≡ byte_further left byte }
{
    let half = bit_further(bit_further(bit_further(bit_further(left ^ byte as u32))));
    bit_further(bit_further(bit_further(bit_further(half))))
}

/// The checksum of bytes.
#[tactic(auto, unfolding(crate::specs::Checksum::crc32c))]
fn crc32c(bytes: &[u8]) -> u32
    ensures { result ≡ crc32c bytes.now }
{
    let mut left = u32::MAX;
    let mut rest = bytes;
    while let Some((byte, behind)) = rest.split_first() {
        left = byte_further(left, *byte);
        rest = behind;
    }
    left ^ u32::MAX
}

/// Whether the last four bytes are the checksum of those before them.
fn has_checksum(bytes: &[u8]) -> bool
    requires { 4 ≤ length bytes.now }
    ensures { IsTrue result ↔ HasChecksum bytes.now }
{
    let (before, last) = bytes.split_at(bytes.len() - 4);
    match word_at(last) {
        Some((number, _)) => number == crc32c(before),
        None => false,
    }
}

/// The bit of the flags that says that four bytes at the end are a checksum ("checksumPresent").
pub(crate) const CHECKSUM: u32 = 1;

/// Whether a message with these flags has its checksum, if it has to have one.
pub(crate) fn is_summed(flags: u32, bytes: &[u8]) -> bool
    requires { 4 ≤ length bytes.now }
    ensures { IsTrue result ↔ IsSummed flags bytes.now }
{
    if flags % 2 == CHECKSUM {
        has_checksum(bytes)
    } else {
        true
    }
}
