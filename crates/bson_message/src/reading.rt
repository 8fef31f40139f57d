//! One message from a source.

ghost use Rattle.std.specs.Prelude.{◌≡◌, ◌≤◌, MatchResult};
ghost use Rattle.bson_base.specs.Device.{CanFail};
ghost use Rattle.bson_frame.specs.Frame.{number};
ghost use Rattle.bson_message.specs.Taking.{IsMessageLength, ReadsHead, ReadsRest, TakesMessage};
ghost use Rattle.bson_message.specs.declared.fault.ReadFault.TheVariants.{BadLength};

use crate::fault::ReadFault;
use crate::words::is_message_length;
use bson_base::{Source, read_full};

/// The first four bytes, unless nothing was left.
fn read_head<R: Source>(source: &mut R) -> Result<Option<[u8; 4]>, ReadFault>
    requires { CanFail (R.feed source.old) }
    ensures { ReadsHead (R.feed source.old) (R.feed source.new) result }
{
    let mut head = [0u8; 4];
    match read_full(source, &mut head) {
        Ok(n) => {
            if n == 0 {
                return Ok(None);
            }
            if n < 4 {
                return Err(ReadFault::EndInside);
            }
            Ok(Some(head))
        }
        Err(_) => Err(ReadFault::Reader),
    }
}

/// The length that the first four bytes declare, if a message may have it.
fn declared(head: [u8; 4]) -> Result<usize, ReadFault>
    ensures { MatchResult result (λ n. (n ≡ number head) × IsMessageLength n)
        (λ e. (e ≡ BadLength) × (IsMessageLength (number head) → ⊥)) }
{
    let number = u32::from_le_bytes(head);
    if !is_message_length(number) {
        return Err(ReadFault::BadLength);
    }
    Ok(number as usize)
}

/// Replaces what was in `room` by the first four bytes and those after them, up to a length.
fn read_rest<R: Source>(
    source: &mut R,
    head: [u8; 4],
    declared: usize,
    room: &mut Vec<u8>,
) -> Result<(), ReadFault>
    requires failures { CanFail (R.feed source.old) }
    requires declared { 4 ≤ declared }
    ensures { ReadsRest (R.feed source.old) (R.feed source.new) head declared room.new.items result }
{
    room.clear();
    room.resize(declared, 0)?;
    let (front, rest) = room.split_at_mut(4);
    front.copy_from_slice(&head);
    match read_full(source, rest) {
        Ok(n) => {
            if n < declared - 4 {
                return Err(ReadFault::EndInside);
            }
            Ok(())
        }
        Err(_) => Err(ReadFault::Reader),
    }
}

/// Replaces what was in `room` by the bytes of the next message; false if nothing was left. Exactly the bytes that the
/// message declares are taken from the source. The caller makes sure that fewer than 2⁶⁴ - 1 calls of the source have
/// failed.
///
/// `Reader` if a read failed; `EndInside` if the source ended after at least one byte of the message, which took all
/// that was left; `BadLength` if the declared length is under 16 or over 48000000, and `Memory` if a growth was
/// refused, which took four bytes. After an error nothing is promised of what `room` holds.
pub fn next_message<R: Source>(source: &mut R, room: &mut Vec<u8>) -> Result<bool, ReadFault>
    requires { CanFail (R.feed source.old) }
    ensures { TakesMessage (R.feed source.old) (R.feed source.new) room.new.items result }
{
    match read_head(source)? {
        Some(head) => {
            let declared = declared(head)?;
            read_rest(source, head, declared, room)?;
            Ok(true)
        }
        None => Ok(false),
    }
}
