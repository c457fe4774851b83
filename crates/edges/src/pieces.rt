//! What is read of std's readers, and put into its writers.
ghost use Rattle.std.specs.Prelude.{◌≡◌, ◌≤◌, ◌<◌, ◌↔◌, ◌≢◌, ℕ, Some, [], take, length, IfOk, IfSome, IsErrOf, MatchResult, OnOk, vec_len};
ghost use Rattle.outside.specs.Source.{IsWithin};
ghost use Rattle.std.specs.Io.KnownBytes.{Appends, Consumes, IsAtEnd, Keeps};
ghost use Rattle.std.specs.IoError.{error_kind};

use outside::{LoadFault, Put, Read};
use std::alloc::Global;
use std::io::{self, Error, ErrorKind, Read as _, Write};

/// Want of memory exactly where the system says so, or else a failure.
pub(crate) fn fault_of(error: Error) -> LoadFault
    ensures memory { (result ≡ LoadFault.NoMemory) ↔ (error_kind error ≡ ErrorKind.OutOfMemory) }
    ensures long { result ≢ LoadFault.TooLong }
{
    if error.kind() == ErrorKind::OutOfMemory {
        LoadFault::NoMemory
    } else {
        LoadFault::Failed
    }
}

/// The first octets of a reader, so many at most, in room for as many as are expected.
fn read_most<T: io::Read + Drop>(
    reader: T,
    alloc: Global,
    most: u64,
    expected: u64,
) -> Result<Vec<u8>, LoadFault>
    ensures first { IfOk result (λ bytes.
        IfSome (T.remaining reader) (λ octets. bytes.items ≡ take most octets)) }
    ensures long { IsErrOf result LoadFault.TooLong → ⊥ }
{
    let room = expected.min(most) as usize;
    let mut bytes = Vec::with_capacity(alloc, room).map_err(|_| LoadFault::NoMemory)?;
    match reader.take(most).read_to_end(&mut bytes) {
        Ok(_) => Ok(bytes),
        Err(error) => Err(fault_of(error)),
    }
}

/// All octets of a reader, if there are at most `limit`, or else its first ones, one more than that.
pub(crate) fn read_past<T: io::Read + Drop>(
    reader: T,
    alloc: Global,
    limit: usize,
    expected: u64,
) -> Result<Vec<u8>, LoadFault>
    ensures whole { IfOk result (λ bytes. vec_len bytes ≤ limit
        → IfSome (T.remaining reader) (λ octets. bytes.items ≡ octets)) }
    ensures more { IfOk result (λ bytes. limit < vec_len bytes
        → IfSome (T.remaining reader) (λ octets. limit < length octets)) }
    ensures long { IsErrOf result LoadFault.TooLong → ⊥ }
{
    read_most(reader, alloc, (limit as u64).saturating_add(1), expected)
}

/// These octets, if there are at most `limit`.
pub(crate) fn within(bytes: Vec<u8>, limit: usize) -> Result<Vec<u8>, LoadFault>
    ensures { MatchResult result
        (λ given. (given ≡ bytes) × (vec_len bytes ≤ limit))
        (λ fault. (fault ≡ LoadFault.TooLong) × (limit < vec_len bytes)) }
{
    if bytes.len() > limit {
        return Err(LoadFault::TooLong);
    }
    Ok(bytes)
}

/// All octets of a reader, if there are at most `limit`. No more than one past it are read. Room is taken once for as
/// many as are expected, and more where more come.
///
/// # Errors
///
/// `TooLong` only where there are more; `Failed` where the reader failed; `NoMemory`.
pub fn read_within<T: io::Read + Drop>(
    reader: T,
    alloc: Global,
    limit: usize,
    expected: u64,
) -> Result<Vec<u8>, LoadFault>
    ensures within { IfOk result (λ bytes. vec_len bytes ≤ limit) }
    ensures whole { IfOk result (λ bytes.
        IfSome (T.remaining reader) (λ octets. bytes.items ≡ octets)) }
    ensures long { IsErrOf result LoadFault.TooLong
        → IfSome (T.remaining reader) (λ octets. limit < length octets) }
{
    let bytes = read_past(reader, alloc, limit, expected)?;
    within(bytes, limit)
}

/// The next octets of a reader, at the front of the buffer.
pub fn read_piece<T: io::Read>(reader: &mut T, buffer: &mut [u8]) -> Read
    requires { 1 ≤ length buffer.old }
    ensures within { IsWithin result (length buffer.old) }
    ensures got { (n : ℕ) → result ≡ Read.Got n
        → Consumes (T.remaining reader.old) (T.remaining reader.new) (take n buffer.new) }
    ensures end { result ≡ Read.End → IsAtEnd (T.remaining reader.new)
        × Keeps (T.remaining reader.old) (T.remaining reader.new) }
    ensures failed { result ≡ Read.Failed
        → Keeps (T.remaining reader.old) (T.remaining reader.new) }
{
    match reader.read(buffer) {
        Ok(0) => Read::End,
        Ok(count) => Read::Got(count),
        Err(_) => Read::Failed,
    }
}

/// The most tries of one piece. The system breaks a try off now and then.
const MOST_TRIES: u64 = 1 << 48;

/// Puts a piece into a writer, and then what the writer held back too. It says how many octets at the front of the piece
/// the writer took, and whether it took all and kept nothing back.
pub fn put_whole<W: Write>(writer: &mut W, piece: &[u8]) -> (usize, Put)
    ensures within { result.0 ≤ length piece.now }
    ensures took { Appends
        (W.contents writer.old) (W.contents writer.new) (take result.0 piece.now) }
    ensures done { result.1 ≡ Put.Done → result.0 ≡ length piece.now }
{
    let mut at = 0;
    for _ in 0..MOST_TRIES {
        if at >= piece.len() {
            let put = match writer.flush() {
                Ok(()) => Put::Done,
                Err(_) => Put::Failed,
            };
            return (at, put);
        }
        match writer.write(&piece[at..]) {
            Ok(0) => return (at, Put::Failed),
            Ok(count) => at += count,
            Err(error) => {
                if error.kind() != ErrorKind::Interrupted {
                    return (at, Put::Failed);
                }
            }
        }
    }
    (at, Put::Failed)
}
