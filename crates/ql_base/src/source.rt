//! A source of bytes.
ghost use Rattle.std.specs.Prelude.{◌≡◌, ◌≢◌, ◌+◌, ◌<◌, ◌≤◌, ◌^◌, List, ℕ, length, take, drop, vec_len};
ghost use Rattle.std.specs.Prelude.{IfOk, IfErr, IfSome, IsErrOf, OnOk, OnErr};
ghost use Rattle.std.specs.Io.{StartsWith};
ghost use Rattle.std.specs.declared.option.Option.{Option};
ghost use Rattle.std.specs.Io.KnownBytes.{ReadConsumes, Consumes, IsAtEnd, Keeps};
ghost use Rattle.ql_base.specs.Bytes.{Takes, TakesUpTo};
ghost use Rattle.ql_base.specs.Causes.{HasCause, Rose};

use crate::{Failed, ReadFault};
use std::alloc::{AllocError, Global};

/// What bytes are read from.
pub trait Source {
    /// The bytes still to come, where the source tells them.
    ghost left: { Self → Option (List ℕ) };

    /// How often a read has failed. The count never falls, and stands still at 2^64 - 1.
    ghost faults: { Self → ℕ };

    /// Reads into the front of the buffer, and says how many bytes. None into a buffer that isn't empty is the end of
    /// the input.
    fn read(&mut self, buf: &mut [u8]) -> Result<usize, Failed>
        ensures bound { IfOk result (λ n. n ≤ length buf.new) }

        // The bytes read are the front of what was left, which loses them. A failed read leaves it as it was.
        ensures bytes { ReadConsumes (left self.old) (left self.new) result buf.new }
        ensures cause { HasCause (faults self.old) (faults self.new) result };
}

/// How many bytes one read is asked for at most.
const PIECE: usize = 64 * 1024;

/// Reads the source to its end, up to `limit` bytes. Where more come, it has taken exactly one byte more, and no read
/// follows.
///
/// The bytes are read straight into their place, at most 64 KiB at a time, so a read costs no copy. Room is made before
/// each read, so that a want of memory loses no byte that was taken and follows at most `limit` bytes.
pub fn read_to_end<S: Source>(
    alloc: Global,
    source: &mut S,
    limit: usize,
) -> Result<Vec<u8>, ReadFault>
    requires { limit < usize.MAX }

    // All that was left came, and nothing is left.
    ensures all { IfOk result (λ bytes.
        Consumes (S.left source.old) (S.left source.new) bytes.items) }
    ensures whole { IfOk result (λ bytes. IfSome (S.left source.old) (λ left. bytes.items ≡ left)) }
    ensures end { IfOk result (λ bytes. IsAtEnd (S.left source.new)) }
    ensures short { IfOk result (λ bytes. length bytes.items ≤ limit) }

    // One byte more than the limit was taken, so more was left than it allows.
    ensures long { IsErrOf result ReadFault.TooLong →
        Takes (S.left source.old) (S.left source.new) (limit + 1) }
    ensures more { IsErrOf result ReadFault.TooLong →
        IfSome (S.left source.old) (λ left. limit < length left) }

    // After any other fault what was taken is within the limit.
    ensures within { IfErr result (λ e. e ≢ ReadFault.TooLong →
        TakesUpTo (S.left source.old) (S.left source.new) limit) }
    ensures fault { IsErrOf result ReadFault.Fault →
        Rose (S.faults source.old) (S.faults source.new) }
    ensures later { S.faults source.old ≤ S.faults source.new }
{
    let mut bytes = Vec::new(alloc);
    let mut filled = 0;
    while filled <= limit {
        let count = read_piece(source, &mut bytes, filled, limit - filled + 1)?;
        if count == 0 {
            bytes.truncate(filled);
            return Ok(bytes);
        }
        filled += count;
    }
    Err(ReadFault::TooLong)
}

// One read of at most `most` bytes, into the place after the first `filled`.
fn read_piece<S: Source>(
    source: &mut S,
    bytes: &mut Vec<u8>,
    filled: usize,
    most: usize,
) -> Result<usize, ReadFault>
    requires filled { filled ≤ vec_len bytes.old }
    requires some { 0 < most }
    requires fits { filled + most < 2 ^ 64 }
    ensures front { take filled bytes.new.items ≡ take filled bytes.old.items }
    ensures within { filled ≤ vec_len bytes.new }
    ensures bound { IfOk result (λ n. n ≤ most) }
    ensures fits { IfOk result (λ n. filled + n ≤ vec_len bytes.new) }
    ensures ok { IfOk result (λ n.
        Consumes (S.left source.old) (S.left source.new) (take n (drop filled bytes.new.items))) }
    ensures end { IfOk result (λ n. n ≡ 0 → IsAtEnd (S.left source.new)) }
    ensures err { OnErr result (Keeps (S.left source.old) (S.left source.new)) }
    ensures later { S.faults source.old ≤ S.faults source.new }
    ensures fault { IsErrOf result ReadFault.Fault →
        Rose (S.faults source.old) (S.faults source.new) }
    ensures kind { IfErr result (λ e. e ≢ ReadFault.TooLong) }
{
    let end = filled + most.min(PIECE);
    make_room(bytes, end)?;
    Ok(read_at(source, bytes.as_mut_slice(), filled, end)?)
}

// Makes the bytes at least so many, by zeros at the end.
fn make_room(bytes: &mut Vec<u8>, end: usize) -> Result<(), AllocError>
    ensures front { StartsWith bytes.new.items bytes.old.items }
    ensures room { OnOk result (end ≤ vec_len bytes.new) }
{
    if bytes.len() < end {
        bytes.resize(end, 0)?;
    }
    Ok(())
}

// One read into `buf[at..end]`.
fn read_at<S: Source>(
    source: &mut S,
    buf: &mut [u8],
    at: usize,
    end: usize,
) -> Result<usize, Failed>
    requires some { at < end }
    requires within { end ≤ length buf.old }
    ensures front { take at buf.new ≡ take at buf.old }
    ensures fits { IfOk result (λ n. at + n ≤ end) }
    ensures ok { IfOk result (λ n.
        Consumes (S.left source.old) (S.left source.new) (take n (drop at buf.new))) }
    ensures end { IfOk result (λ n. n ≡ 0 → IsAtEnd (S.left source.new)) }
    ensures err { OnErr result (Keeps (S.left source.old) (S.left source.new)) }
    ensures cause { HasCause (S.faults source.old) (S.faults source.new) result }
{
    source.read(&mut buf[at..end])
}
