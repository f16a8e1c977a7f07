// The rules for values, over the table's homes: conversions, accesses, operators, and the entries of memory.
#![tactic(auto)]

ghost use Rattle.std.specs.Prelude.{◌≡◌, ◌<◌, ◌≤◌};
ghost use Rattle.rules.specs.Table.{operator_of};
ghost use Rattle.rules.specs.Memory.{encode, decode};
ghost use Rattle.rules.specs.Ruled.{gives, onward};
ghost use Rattle.rules.specs.Operators.{applied};
ghost use Rattle.words.specs.Words.{Named};
ghost use Rattle.values.specs.Values.{number_of, plus_of, to_int_in, to_pair, to_safe_in, not_null, reach_seq_in, reach_dynamic_in, reach_in, kept_in, checked};

use rules::{Check, Value};
use words::{WORDS, high, low, of_halves, ops, size_of, start_of};

// That a pair's home has a word in the table stands in each contract that needs it: the enum is the form that was asked for by name
// (docs/DECISIONS.md, Forms), takes no ghost field and no model, and a struct round it would be taken off at every match.

// ---- entries of memory: functions and no `From`, since `encode` asks for a home of the table

pub fn decode(x: u64) -> Value
    ensures { result ≡ decode x }
{
    let n = low(x);
    match high(x) {
        0 => Value::Number(n),
        h => Value::Pair(h - 1, n),
    }
}

pub fn encode(v: Value) -> u64
    requires { Named v }
    ensures { result ≡ encode v }
{
    match v {
        Value::Number(n) => u64::from(n),
        Value::Pair(g, n) => of_halves(n, g + 1),
    }
}

// ---- conversions

// The number of an int or SAFE value. No rule covers a pair; its arm reads the same word as the other.
pub fn number(v: Value) -> u32
    ensures { result ≡ number_of v }
{
    match v {
        Value::Number(n) => n,
        Value::Pair(g, _) => g,
    }
}

pub fn to_int(t: &[u64; WORDS], v: Value) -> u32
    requires { Named v }
    ensures { result ≡ to_int_in t.now v }
{
    match v {
        Value::Number(n) => n,
        Value::Pair(g, n) => start_of(t, g).wrapping_add(n),
    }
}

pub fn to_pair(v: Value) -> Value
    ensures { result ≡ to_pair v }
{
    match v {
        Value::Number(n) => Value::Pair(0, n),
        Value::Pair(_, _) => v,
    }
}

pub fn to_safe(t: &[u64; WORDS], v: Value) -> Result<u32, Check>
    requires { Named v }
    ensures { result ≡ checked (to_safe_in t.now v) }
{
    match v {
        Value::Number(n) => Ok(n),
        Value::Pair(g, n) if n < size_of(t, g) => Ok(start_of(t, g).wrapping_add(n)),
        Value::Pair(_, _) => Err(Check::Bounds),
    }
}

// The pointer v plus n. A pointer that is added to is a pair: no rule covers a number, which stays as it is.
pub fn plus(v: Value, n: u32) -> Value
    ensures { result ≡ plus_of v n }
{
    match v {
        Value::Number(_) => v,
        Value::Pair(g, o) => Value::Pair(g, o.wrapping_add(n)),
    }
}

// ---- accesses: the address that a pointer reaches

fn not_null(a: u32) -> Result<u32, Check>
    ensures { result ≡ checked (not_null a) }
{
    if a == 0 {
        return Err(Check::Null);
    }
    Ok(a)
}

pub fn reach_safe(v: Value) -> Result<u32, Check>
    ensures { result ≡ checked (not_null (number_of v)) }
{
    not_null(number(v))
}

pub fn reach_seq(t: &[u64; WORDS], v: Value) -> Result<u32, Check>
    requires { Named v }
    ensures { result ≡ checked (reach_seq_in t.now v) }
{
    not_null(to_safe(t, v)?)
}

// A DYNAMIC pointer is a pair: no rule covers a number, which fails as a pair of home 0 does.
pub fn reach_dynamic(t: &[u64; WORDS], v: Value) -> Result<u32, Check>
    requires { Named v }
    ensures { result ≡ checked (reach_dynamic_in t.now v) }
{
    match v {
        Value::Number(_) | Value::Pair(0, _) => Err(Check::NoHome),
        Value::Pair(g, o) if o < size_of(t, g) => Ok(start_of(t, g).wrapping_add(o)),
        Value::Pair(_, _) => Err(Check::Bounds),
    }
}

// By the access. No rule covers one past DYNAMIC's, which goes as DYNAMIC.
pub fn reach(t: &[u64; WORDS], access: u32, v: Value) -> Result<u32, Check>
    requires { Named v }
    ensures { result ≡ checked (reach_in t.now access v) }
{
    match access {
        ops::BY_SAFE => reach_safe(v),
        ops::BY_SEQ => reach_seq(t, v),
        _ => reach_dynamic(t, v),
    }
}

// ---- what a store keeps

// The entry, by how it is kept. No rule covers a number past the last, which goes as the last.
pub fn kept(t: &[u64; WORDS], how: u32, v: Value) -> Result<u64, Check>
    requires { Named v }
    ensures { result ≡ checked (onward (kept_in t.now how v) (λ x. gives (encode x))) }
{
    match how {
        ops::KEEP_INT => Ok(u64::from(to_int(t, v))),
        ops::KEEP_PAIR => Ok(encode(to_pair(v))),
        ops::KEEP_SAFE => to_safe(t, v).map(u64::from),
        _ => Ok(encode(Value::Pair(0, to_int(t, v)))),
    }
}

// ---- operators

// Operator k, from 0 on, of m and n: by number, as `ops` says. No rule covers one past the last, which goes as the last.
pub fn applied(k: u64, m: u32, n: u32) -> Result<u32, Check>
    ensures { result ≡ checked (applied (operator_of k) m n) }
{
    match k {
        0 => Ok(m.wrapping_add(n)),
        1 => Ok(m.wrapping_sub(n)),
        2 => Ok(m.wrapping_mul(n)),
        3 => m.checked_div(n).ok_or(Check::ByZero),
        4 => m.checked_rem(n).ok_or(Check::ByZero),
        5 => Ok(u32::from(m == n)),
        6 => Ok(u32::from(m < n)),
        7 => Ok(m & n),
        _ => Ok(m.checked_shr(n).unwrap_or(0)),
    }
}
