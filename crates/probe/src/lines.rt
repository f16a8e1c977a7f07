// Lines of text on standard output, gathered in a buffer that is written out whenever it is full.
ghost use Rattle.std.specs.Prelude.{◌≡◌, []};

use arrayvec::ArrayVec;
use std::io;
use std::io::Write;

const ROOM: usize = 4096;

#[derive(Drop)]
pub struct Lines<W> {
    to: W,
    waiting: ArrayVec<u8, ROOM>,
}

impl<W: Write> Lines<W> {
    ghost use Rattle.probe.specs.Lines.{waiting};

    pub fn new(to: W) -> Self
        ensures { waiting result ≡ [] }
    {
        Lines {
            to,
            waiting: ArrayVec::new(),
        }
    }
}

impl<W: Write> Write for Lines<W> {
    // As many of the bytes as the buffer has room for. A full one is written out first.
    fn write(&mut self, bytes: &[u8]) -> io::Result<usize> {
        if self.waiting.is_full() {
            self.flush()?;
        }
        self.waiting.write(bytes)
    }

    // A write that fails ends it, and is not tried again, interrupted or not. Each turn puts a byte at the least.
    fn write_all(&mut self, bytes: &[u8]) -> io::Result<()> {
        let mut rest = bytes;
        for _ in bytes {
            if rest.is_empty() {
                return Ok(());
            }
            let n = self.write(rest)?;
            rest = &rest[n..];
        }
        Ok(())
    }

    fn flush(&mut self) -> io::Result<()> {
        self.to.write_all(&self.waiting)?;
        self.waiting.clear();
        Ok(())
    }
}
