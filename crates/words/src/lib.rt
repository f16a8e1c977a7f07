// The table that a run goes by: 1,024 words for expression rows, 1,024 for command rows, then one for each of 256 homes.
//
// bit         0       8               24      32      40              56      64
// expression  | op    | a             | 0     | b                             |
// command     | op    | a             | b             | c             | d     |
// home        | start                         | size                          |
#![tactic(auto)]

ghost use Rattle.std.specs.Prelude.{◌≡◌, ◌+◌, ◌*◌, ◌<◌};
ghost use Rattle.words.specs.Words.{op_in, field_in, d_in, low_in, high_in, start_in, size_in, Packed, PackedCommand};

pub mod ops;

// Words in the table, and where those of commands and of homes begin. Its size is fixed, as that of every table: no call asks for memory, so none fails for want of it.
pub const WORDS: usize = 2304;

pub const COMMANDS: usize = 1024;

pub const HOMES: usize = 2048;

// Where a field begins, as the power of two that moves it there; and how many numbers a field of 16 bits has.
pub const A: u64 = 256;

pub const B: u64 = 16777216;

pub const C: u64 = 1099511627776;

const D: u64 = 72057594037927936;

const HIGH: u64 = 4294967296;

const FIELD: u64 = 65536;

// What a row does, with the kinds of its types folded in.
pub fn op_of(w: u64) -> u64
    ensures { result ≡ op_in w }
{
    w % A
}

// The field of 16 bits that begins at A, B or C. An expression's b is its high half.
pub fn field<const AT: u64>(w: u64) -> u32
    requires { 0 < AT }
    ensures { result ≡ field_in AT w }
{
    (w / AT % FIELD) as u32
}

pub fn d_of(w: u64) -> u32
    ensures { result ≡ d_in w }
{
    (w / D) as u32
}

// The halves of a word.
pub fn low(w: u64) -> u32
    ensures { result ≡ low_in w }
{
    (w % HIGH) as u32
}

pub fn high(w: u64) -> u32
    ensures { result ≡ high_in w }
{
    (w / HIGH) as u32
}

// Home g's start and size.
pub fn start_of(t: &[u64; WORDS], g: u32) -> u32
    requires { g < 256 }
    ensures { result ≡ start_in t.now g }
{
    low(t[HOMES + g as usize])
}

pub fn size_of(t: &[u64; WORDS], g: u32) -> u32
    requires { g < 256 }
    ensures { result ≡ size_in t.now g }
{
    high(t[HOMES + g as usize])
}

// A word of its parts.
pub fn word(op: u64, a: u32, b: u32) -> u64
    requires { (op < 256) × (a < 65536) }
    ensures { Packed result op a b }
{
    op + u64::from(a) * A + u64::from(b) * HIGH
}

pub fn command_word(op: u64, a: u32, b: u32, c: u32, d: u32) -> u64
    requires { (op < 256) × (a < 65536) × (b < 65536) × (c < 65536) × (d < 256) }
    ensures { PackedCommand result op a b c d }
{
    op + u64::from(a) * A + u64::from(b) * B + u64::from(c) * C + u64::from(d) * D
}

// A word of its halves: a home's, or an entry of memory.
pub fn of_halves(low: u32, high: u32) -> u64
    ensures { result ≡ low + 4294967296 * high }
{
    u64::from(low) + HIGH * u64::from(high)
}
