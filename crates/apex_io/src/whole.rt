// Reading to the end, and writing a whole text.

ghost use Rattle.std.specs.Prelude.{◌≡◌, ℕ, ◌+◌, ◌-◌, ◌<◌, ◌≤◌, List, [], ◌++◌, length, take, MatchResult, IfOk};
ghost use Rattle.std.specs.Vec.{vec_len};
ghost use Rattle.apex_io.specs.Outside.{Rose, Takes, IsAtEnd, Adds};
ghost use Rattle.apex_io.specs.Whole.{ReadCause, WriteCause, TookPiece};

use crate::outside::{Pulled, Pushed, Sink, Source};
use std::alloc::{AllocError, Global};

// The room of one call of `pull`, in bytes.
const ROOM: usize = 65536;

/// Why reading stopped before the end.
#[derive(Clone, Copy, Debug, PartialEq, Eq, Drop)]
pub enum ReadFault {
    /// The source failed.
    Failed,
    /// The source gave more bytes than are read.
    TooLong,
    /// Memory was refused.
    NoMemory,
}

impl From<AllocError> for ReadFault {
    ghost use Rattle.std.specs.Prelude.{◌≡◌};
    ghost use Rattle.apex_io.specs.declared.whole.ReadFault.TheVariants.{NoMemory};

    ghost from_gives = { λ _ e. e ≡ NoMemory };

    fn from(_: AllocError) -> ReadFault {
        ReadFault::NoMemory
    }
}

/// Why a text wasn't written whole.
#[derive(Clone, Copy, Debug, PartialEq, Eq, Drop)]
pub enum WriteFault {
    /// The sink failed. It got a front of the text.
    Failed,
}

/// Reads a source to its end, where it gives at most `most` bytes before that. It asks for one byte past them
/// and for no more.
pub fn read_all<S: Source>(alloc: Global, source: &mut S, most: usize) -> Result<Vec<u8>, ReadFault>
    // All bytes that were left, where they are told, or why not.
    ensures answer { MatchResult result
        (λ bytes. (length bytes.items ≤ most) × Takes (S.left source.old) bytes.items (S.left source.new) × IsAtEnd (S.left source.new))
        (λ fault. ReadCause fault most (S.left source.old) (S.left source.new) (S.faults source.old) (S.faults source.new)) }
    ensures counted { S.faults source.old ≤ S.faults source.new }
    ensures asked { S.calls source.new ≤ S.calls source.old + most + 2 }
{
    let mut room = blank_room(alloc, ROOM)?;
    let mut bytes = Vec::new(alloc);
    'pulls: loop {
        match read_piece(source, &mut bytes, &mut room, most) {
            Ok(false) => {}
            Ok(true) => return Ok(bytes),
            Err(fault) => return Err(fault),
        }
    }
}

// Room for the bytes of one call.
fn blank_room(alloc: Global, size: usize) -> Result<Vec<u8>, AllocError>
    requires { 0 < size }
    ensures { IfOk result (λ room. 0 < length room.items) }
{
    vec![in alloc; 0u8; size]
}

// One call of `pull`, whose bytes come to the end of those so far. True at the end.
fn read_piece<S: Source>(
    source: &mut S,
    bytes: &mut Vec<u8>,
    room: &mut [u8],
    most: usize,
) -> Result<bool, ReadFault>
    requires fits { length bytes.old.items ≤ most }
    requires room { 0 < length room.old }
    ensures answer { MatchResult result
        (λ ended. TookPiece ended most (S.left source.old) (S.left source.new) bytes.old.items bytes.new.items)
        (λ fault. ReadCause fault (most - length bytes.old.items) (S.left source.old) (S.left source.new) (S.faults source.old) (S.faults source.new)) }
    ensures counted { S.faults source.old ≤ S.faults source.new }
    ensures asked { S.calls source.new ≤ S.calls source.old + 1 }
    ensures room { length room.new ≡ length room.old }
{
    let spare = most - bytes.len();
    let wanted = if spare < room.len() {
        spare + 1
    } else {
        room.len()
    };
    match source.pull(&mut room[..wanted]) {
        Pulled::Failed => Err(ReadFault::Failed),
        Pulled::End | Pulled::Bytes(0) => Ok(true),
        Pulled::Bytes(n) => {
            if n > spare {
                return Err(ReadFault::TooLong);
            }
            bytes.extend_from_slice(&room[..n])?;
            Ok(false)
        }
    }
}

/// Writes a whole text, in as many pieces as the sink wants. It takes no memory.
pub fn write_all<K: Sink>(sink: &mut K, text: &[u8]) -> Result<(), WriteFault>
    ensures answer { MatchResult result
        (λ _. Adds (K.held sink.old) text.now (K.held sink.new))
        (λ _. WriteCause text.now (K.held sink.old) (K.held sink.new) (K.faults sink.old) (K.faults sink.new)) }
    ensures counted { K.faults sink.old ≤ K.faults sink.new }
{
    let mut rest = text;
    while !rest.is_empty() {
        match sink.push(rest) {
            Pushed::Failed => return Err(WriteFault::Failed),
            Pushed::Took(n) => rest = rest.split_at(n).1,
        }
    }
    Ok(())
}

#[cfg(test)]
mod tests {
    use super::*;
    use crate::memory::{MemSink, MemSource};
    use std::test::Fail;

    #[test]
    fn reads_in_pieces(rt: HostRuntime) -> Result<(), Fail> {
        let rows = [("", 3, 1), ("abc", 3, 1), ("abc", 3, 2), ("abc", 100, 7)];
        for (text, most, give) in rows {
            let bytes = Vec::from_slice(rt.alloc(), text.as_bytes())?;
            assert!(rt; give > 0);
            let mut source = MemSource::new(bytes, give, Vec::new(rt.alloc()));
            match read_all(rt.alloc(), &mut source, most) {
                Ok(got) => assert_eq!(rt; got.as_slice(), text.as_bytes()),
                Err(_) => return Err("a fault".into()),
            }
        }
        Ok(())
    }

    #[test]
    fn reads_one_byte_past_the_limit(rt: HostRuntime) -> Result<(), Fail> {
        let bytes = Vec::from_slice(rt.alloc(), b"abcdefgh")?;
        let mut source = MemSource::new(bytes, 100, Vec::new(rt.alloc()));
        let got = read_all(rt.alloc(), &mut source, 3);
        assert!(rt; matches!(got, Err(ReadFault::TooLong)));
        // the bytes behind that one are still there
        match read_all(rt.alloc(), &mut source, 100) {
            Ok(rest) => assert_eq!(rt; rest.as_slice(), b"efgh".as_slice()),
            Err(_) => return Err("a fault".into()),
        }
        Ok(())
    }

    #[test]
    fn a_pull_fails(rt: HostRuntime) -> Result<(), Fail> {
        let bytes = Vec::from_slice(rt.alloc(), b"abc")?;
        let mut source = MemSource::new(bytes, 1, Vec::from_slice(rt.alloc(), &[2])?);
        let got = read_all(rt.alloc(), &mut source, 100);
        assert!(rt; matches!(got, Err(ReadFault::Failed)));
        assert_eq!(rt; source.faults(), 1);
        assert_eq!(rt; source.calls(), 3);
        Ok(())
    }

    #[test]
    fn writes_in_pieces(rt: HostRuntime) -> Result<(), Fail> {
        let mut sink = MemSink::new(rt.alloc(), 2, Vec::new(rt.alloc()));
        assert!(rt; write_all(&mut sink, b"abcde").is_ok());
        assert!(rt; write_all(&mut sink, b"").is_ok());
        assert_eq!(rt; sink.bytes(), b"abcde".as_slice());
        assert_eq!(rt; sink.calls(), 3);
        Ok(())
    }

    #[test]
    fn a_push_fails(rt: HostRuntime) -> Result<(), Fail> {
        let mut sink = MemSink::new(rt.alloc(), 2, Vec::from_slice(rt.alloc(), &[1])?);
        assert!(rt; write_all(&mut sink, b"abcde").is_err());
        assert_eq!(rt; sink.bytes(), b"ab".as_slice());
        assert_eq!(rt; sink.faults(), 1);
        Ok(())
    }
}
