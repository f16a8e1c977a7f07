// Requests, read into space of the program's own.
ghost use Rattle.std.specs.Prelude.{IfOk, MatchOption};
ghost use Rattle.probe.specs.Input.{Gives, IsEnded};
ghost use Rattle.probe.specs.Requests.{count_bytes, part_bytes, entry_bytes, fuel_bytes, request_bytes};

use crate::input::{Failure, Input};
use std::io::Read;

// What the parts of a request are read into.
#[derive(Default, Drop)]
pub struct Space {
    file: [u8; 65536],
    marking: [u8; 4096],
    memory: [u64; 8192],
}

// A request, and what it hands to its call.
#[derive(Drop)]
pub enum Request<'a> {
    Read {
        file: &'a [u8],
    },
    Check {
        file: &'a [u8],
        marking: &'a [u8],
    },
    Infer {
        file: &'a [u8],
        marking: &'a mut [u8],
    },
    Run {
        file: &'a [u8],
        marking: &'a [u8],
        fuel: u32,
        memory: &'a mut [u64],
    },
}

// The start of a space, as many entries as the 16-bit number in front says.
fn room<'a, T, R: Read>(input: &mut Input<R>, space: &'a mut [T]) -> Result<&'a mut [T], Failure>
    ensures { IfOk result (λ room. Gives R.remaining input.old input.new (count_bytes room.now)) }
{
    let n = u16::from_le_bytes(input.bytes()?);
    space.get_mut(..usize::from(n)).ok_or(Failure::Bad)
}

// Bytes, a file's or a marking's.
fn part<'a, R: Read>(input: &mut Input<R>, space: &'a mut [u8]) -> Result<&'a mut [u8], Failure>
    ensures { IfOk result (λ part. Gives R.remaining input.old input.new (part_bytes part.now)) }
{
    let part = room(input, space)?;
    input.fill(part)?;
    Ok(part)
}

// Entries of the lent memory.
fn entries<'a, R: Read>(
    input: &mut Input<R>,
    space: &'a mut [u64],
) -> Result<&'a mut [u64], Failure>
    ensures { IfOk result (λ entries. Gives R.remaining input.old input.new (entry_bytes entries.now)) }
{
    let entries = room(input, space)?;
    for entry in entries.iter_mut() {
        *entry = u64::from_le_bytes(input.bytes()?);
    }
    Ok(entries)
}

// The fuel of a run.
fn fuel<R: Read>(input: &mut Input<R>) -> Result<u32, Failure>
    ensures { IfOk result (λ fuel. Gives R.remaining input.old input.new (fuel_bytes fuel)) }
{
    Ok(u32::from_le_bytes(input.bytes()?))
}

impl Space {
    // The next request, or `None` at the end of the input.
    pub fn request<R: Read>(&mut self, input: &mut Input<R>) -> Result<Option<Request<'_>>, Failure>
        ensures { IfOk result (λ next. MatchOption next (IsEnded R.remaining input.new) (λ request. Gives R.remaining input.old input.new (request_bytes request))) }
    {
        let Some(letter) = input.letter()? else {
            return Ok(None);
        };
        let Space {
            file,
            marking,
            memory,
        } = self;
        match letter {
            b'R' => Ok(Some(Request::Read {
                file: part(input, file)?,
            })),
            b'C' => Ok(Some(Request::Check {
                file: part(input, file)?,
                marking: part(input, marking)?,
            })),
            b'I' => Ok(Some(Request::Infer {
                file: part(input, file)?,
                marking: part(input, marking)?,
            })),
            b'X' => Ok(Some(Request::Run {
                file: part(input, file)?,
                marking: part(input, marking)?,
                fuel: fuel(input)?,
                memory: entries(input, memory)?,
            })),
            _ => Err(Failure::Bad),
        }
    }
}
