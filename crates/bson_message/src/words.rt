//! Numbers of four bytes, the lowest first, and the limits of lengths.

ghost use Rattle.std.specs.Prelude.{◌≡◌, ◌<◌, ◌≤◌, ◌↔◌, IsTrue, length, drop, MatchOption};
ghost use Rattle.bson_frame.specs.Frame.{number};
ghost use Rattle.bson_message.specs.Taking.{IsMessageLength};

/// How many bytes the header of a message has.
pub const HEADER_SIZE: u32 = 16;

/// The greatest number of bytes of a message ("maxMessageSizeBytes").
pub const MESSAGE_LIMIT: u32 = 48000000;

/// Whether a message may have so many bytes.
pub(crate) fn is_message_length(length: u32) -> bool
    ensures { IsTrue result ↔ IsMessageLength length }
{
    HEADER_SIZE <= length && length <= MESSAGE_LIMIT
}

/// The number in the first four bytes, and what follows them.
pub(crate) fn word_at(bytes: &[u8]) -> Option<(u32, &[u8])>
    ensures { MatchOption result (length bytes.now < 4)
        (λ r. (4 ≤ length bytes.now) × (r.0 ≡ number bytes.now) × (r.1.now ≡ drop 4 bytes.now)) }
{
    let [a, b, c, d, rest @ ..] = bytes else {
        return None;
    };
    Some((u32::from_le_bytes([*a, *b, *c, *d]), rest))
}
