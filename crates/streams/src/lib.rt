// Bytes read from a reader and written to a writer of std. A call that is interrupted is made again, and one that fails is told.

#![tactic(auto)]

ghost use Rattle.std.specs.Prelude.{IsTrue, OnOk, ◌≡◌, ◌↔◌};
ghost use Rattle.std.specs.Io.KnownBytes.{Appends};
ghost use Rattle.std.specs.IoError.{error_kind};
ghost use Rattle.streams.specs.Moved.{Within, ReadsSome, ReadsFull, WritesSome};

use std::io::{Error, ErrorKind, Read, Write};

// So often a call is tried: more often than any machine can, but every function ends.
const TRIES: u64 = u64::MAX;

fn interrupted(error: &Error) -> bool
    ensures { IsTrue result ↔ (error_kind error.now ≡ ErrorKind.Interrupted) }
{
    error.kind() == ErrorKind::Interrupted
}

fn read_some<R: Read>(reader: &mut R, buf: &mut [u8]) -> Result<usize, ErrorKind>
    ensures within { Within result buf.new }
    ensures bytes { ReadsSome (R.remaining reader.old) (R.remaining reader.new) result buf.new }
{
    for _ in 0..TRIES {
        match reader.read(buf) {
            Err(error) if interrupted(&error) => {}
            answer => return answer.map_err(|error| error.kind()),
        }
    }
    Err(ErrorKind::Interrupted)
}

fn write_some<W: Write>(writer: &mut W, buf: &[u8]) -> Result<usize, ErrorKind>
    ensures within { Within result buf.now }
    ensures bytes { WritesSome (W.contents writer.old) (W.contents writer.new) result buf.now }
{
    for _ in 0..TRIES {
        match writer.write(buf) {
            Err(error) if interrupted(&error) => {}
            answer => return answer.map_err(|error| error.kind()),
        }
    }
    Err(ErrorKind::Interrupted)
}

// Reads until buf is full or the input ends, and answers how many bytes. Nothing more is asked for once buf is full.
pub fn read_full<R: Read>(reader: &mut R, buf: &mut [u8]) -> Result<usize, ErrorKind>
    ensures within { Within result buf.new }
    ensures bytes { ReadsFull (R.remaining reader.old) (R.remaining reader.new) result buf.new }
{
    let mut done = 0;
    // A `while`, since a call tells how many bytes it moved.
    while done < buf.len() {
        let more = read_some(reader, &mut buf[done..])?;
        if more == 0 {
            break;
        }
        done += more;
    }
    Ok(done)
}

// Writes all of buf. A call that takes nothing counts as failed.
pub fn write_all<W: Write>(writer: &mut W, buf: &[u8]) -> Result<(), ErrorKind>
    ensures { OnOk result (Appends (W.contents writer.old) (W.contents writer.new) buf.now) }
{
    let mut done = 0;
    // A `while`, since a call tells how many bytes it moved.
    while done < buf.len() {
        let taken = write_some(writer, &buf[done..])?;
        if taken == 0 {
            return Err(ErrorKind::WriteZero);
        }
        done += taken;
    }
    Ok(())
}
