// Lines for a writer, gathered in a buffer of a fixed size: std's `BufWriter` allocates.
ghost use Rattle.std.specs.Prelude.{◌≡◌, ◌+◌, ◌≤◌, ◌↔◌, IsTrue};

use std::io;
use std::io::Write;

// The bytes of the buffer.
const ROOM: usize = 65536;

// The lines that wait to be written: the first `used` bytes of the buffer.
#[derive(Drop)]
pub struct Lines<W> {
    out: W,
    pub(crate) buffer: [u8; ROOM],
    pub(crate) used: usize,
    ghost within: { used ≤ 65536 },
}

impl<W: Write> Lines<W> {
    pub fn new(out: W) -> Lines<W>
        ensures { result.used ≡ 0 }
    {
        Lines {
            out,
            buffer: [0; ROOM],
            used: 0,
        }
    }

    // Writes what waits, once: where that fails, it waits no more.
    pub(crate) fn write_waiting(&mut self) -> io::Result<()>
        ensures { self.new.used ≡ 0 }
    {
        let waiting = self.used;
        self.used = 0;
        self.out.write_all(&self.buffer[..waiting])
    }

    // Is there room for `n` more bytes?
    pub(crate) fn has_room(&self, n: usize) -> bool
        ensures { IsTrue result ↔ (self.now.used + n ≤ 65536) }
    {
        n <= ROOM - self.used
    }
}

// So that lines are written by `write!`.
impl<W: Write> Write for Lines<W> {
    fn write(&mut self, bytes: &[u8]) -> io::Result<usize> {
        if !self.has_room(1) {
            self.write_waiting()?;
        }
        let count = bytes.len().min(ROOM - self.used);
        self.buffer[self.used..self.used + count].copy_from_slice(&bytes[..count]);
        self.used += count;
        Ok(count)
    }

    fn flush(&mut self) -> io::Result<()> {
        self.write_waiting()?;
        self.out.flush()
    }
}
