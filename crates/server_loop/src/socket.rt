//! Reading and writing a connection that does not wait.

ghost use Rattle.std.specs.Prelude.{◌≤◌, ◌+◌, length, IfOk};
ghost use Rattle.server_loop.specs.Socket.{IsLeft, IsWithin, IsWrittenOf};

use mio::net::TcpStream;
use std::io;
use std::io::{ErrorKind, IoSlice, Read, Write};

/// How many pieces of what a connection sends are read before the others have their turn.
pub const MOST_PIECES: u32 = 4;

/// How many bytes a piece has.
pub const PIECE_BYTES: usize = 4096;

/// What came from a connection.
#[derive(Clone, Copy, PartialEq, Eq)]
pub enum Intake {
    /// This many bytes came.
    Bytes(usize),
    /// Nothing more has arrived yet. The system reports when something has.
    Nothing,
    /// Its output has ended.
    End,
    /// It has failed.
    Failed,
}

/// How a connection took what was due.
#[derive(Clone, Copy, PartialEq, Eq)]
pub enum Delivery {
    /// It took everything.
    All,
    /// It takes no more now. The system reports when it does again.
    Blocked,
    /// It has failed.
    Failed,
}

/// How a connection took what was written at once.
#[derive(Clone, Copy, PartialEq, Eq)]
pub enum Written {
    /// It took the first so many bytes.
    Bytes(usize),
    /// It takes nothing now. The system reports when it does again.
    Blocked,
    /// It has failed.
    Failed,
}

/// Reads once. What came is the first part of `buf`.
pub fn receive(stream: &mut TcpStream, buf: &mut [u8]) -> Intake
    ensures { IsWithin result (length buf.new) }
{
    for _ in 0..u64::MAX {
        match stream.read(buf) {
            Ok(0) => return Intake::End,
            Ok(n) => return Intake::Bytes(n),
            Err(error) if error.kind() == ErrorKind::WouldBlock => return Intake::Nothing,
            Err(error) if error.kind() == ErrorKind::Interrupted => {}
            Err(_) => return Intake::Failed,
        }
    }
    Intake::Failed
}

/// Writes these bytes, until all are written or the connection takes no more. Returns how many it took.
pub fn send(stream: &TcpStream, bytes: &[u8]) -> (usize, Delivery)
    ensures part { result.0 ≤ length bytes.now }
    ensures left { IsLeft result.1 result.0 (length bytes.now) }
{
    let mut sent = 0;
    for _ in 0..u64::MAX {
        if sent == bytes.len() {
            return (sent, Delivery::All);
        }
        match write_once(stream, &bytes[sent..], &[]) {
            Written::Bytes(n) => sent += n,
            Written::Blocked => return (sent, Delivery::Blocked),
            Written::Failed => return (sent, Delivery::Failed),
        }
    }
    (sent, Delivery::Failed)
}

/// Writes once, of this piece, which is not empty, and then of what is behind it.
pub fn write_once(stream: &TcpStream, piece: &[u8], behind: &[u8]) -> Written
    ensures { IsWrittenOf result (length piece.now + length behind.now) }
{
    for _ in 0..u64::MAX {
        match write(stream, piece, behind) {
            Ok(0) => return Written::Failed,
            Ok(n) => return Written::Bytes(n),
            Err(error) if error.kind() == ErrorKind::WouldBlock => return Written::Blocked,
            Err(error) if error.kind() == ErrorKind::Interrupted => {}
            Err(_) => return Written::Failed,
        }
    }
    Written::Failed
}

/// Writes in one call of the system. At a `&mut` of the stream the last line would be a call for each piece.
fn write(mut stream: &TcpStream, piece: &[u8], behind: &[u8]) -> io::Result<usize>
    ensures { IfOk result (λ n. n ≤ length piece.now + length behind.now) }
{
    if behind.is_empty() {
        return stream.write(piece);
    }
    stream.write_vectored(&[IoSlice::new(piece), IoSlice::new(behind)])
}
