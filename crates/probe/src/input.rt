// The bytes of requests, and how many were read so far.
ghost use Rattle.std.specs.Prelude.{◌≡◌, ◌+◌, ◌%◌, ◌^◌, ◌≤◌, ◌<◌, length, take, Err, IfOk, OnOk, IsNone, option_to_list};

use std::io;
use std::io::Read;
use streams::read_full;

// Why a request is not answered: it is cut short, of another letter or over a limit; or a read failed.
#[derive(Debug, Drop)]
pub enum Failure {
    Bad,
    Lost(io::Error),
}

impl From<io::Error> for Failure {
    ghost use Rattle.probe.specs.declared.input.Failure.{Failure};

    ghost from_gives = { λ error failure. failure ≡ Failure.Lost error };

    fn from(error: io::Error) -> Self {
        Failure::Lost(error)
    }
}

// A reader, and the offset of its next byte.
#[derive(Drop)]
pub struct Input<R> {
    from: R,
    offset: u64,
}

impl<R: Read> Input<R> {
    ghost use Rattle.probe.specs.Input.{offset_of, left_of, Gives, IsEnded};

    pub fn new(from: R) -> Self
        ensures offset { offset_of result ≡ 0 }
        ensures left { left_of R.remaining result ≡ R.remaining from }
    {
        Input { from, offset: 0 }
    }

    pub fn offset(&self) -> u64
        ensures { result ≡ offset_of self.now }
    {
        self.offset
    }

    // Reads until the buffer is full or the input ends: how many bytes it got.
    fn get(&mut self, buf: &mut [u8]) -> io::Result<usize>
        ensures within { IfOk result (λ n. n ≤ length buf.new) }
        ensures bytes { IfOk result (λ n. Gives R.remaining self.old self.new (take n buf.new)) }
        ensures end { IfOk result (λ n. n < length buf.new → IsEnded R.remaining self.new) }
        ensures counted { IfOk result (λ n. offset_of self.new ≡ (offset_of self.old + n) % 2 ^ 64) }
    {
        let got = read_full(&mut self.from, buf)?;
        self.offset = self.offset.wrapping_add(got as u64);
        Ok(got)
    }

    // The letter of a request, or `None` at the end of the input.
    pub fn letter(&mut self) -> io::Result<Option<u8>>
        ensures bytes { IfOk result (λ letter. Gives R.remaining self.old self.new (option_to_list letter)) }
        ensures end { IfOk result (λ letter. IsNone letter → IsEnded R.remaining self.new) }
    {
        let mut letter = [0];
        if self.get(&mut letter)? == 0 {
            return Ok(None);
        }
        Ok(Some(letter[0]))
    }

    // Fills the buffer, or the request is bad: it is cut short.
    pub fn fill(&mut self, buf: &mut [u8]) -> Result<(), Failure>
        ensures bytes { OnOk result (Gives R.remaining self.old self.new buf.new) }
        ensures counted { OnOk result (offset_of self.new ≡ (offset_of self.old + length buf.new) % 2 ^ 64) }
        ensures short { result ≡ Err Failure.Bad → IsEnded R.remaining self.new }
    {
        if self.get(buf)? < buf.len() {
            return Err(Failure::Bad);
        }
        Ok(())
    }

    // The bytes of a number.
    pub fn bytes<const N: usize>(&mut self) -> Result<[u8; N], Failure>
        ensures bytes { IfOk result (λ bytes. Gives R.remaining self.old self.new bytes) }
        ensures short { result ≡ Err Failure.Bad → IsEnded R.remaining self.new }
    {
        let mut bytes = [0; N];
        self.fill(&mut bytes)?;
        Ok(bytes)
    }
}
