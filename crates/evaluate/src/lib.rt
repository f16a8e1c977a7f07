// Expression rows, run from the table.
#![tactic(auto)]

ghost use Rattle.std.specs.Prelude.{◌≡◌, ℕ, ◌≤◌};
ghost use Rattle.words.specs.Ops.{op_sum};
ghost use Rattle.values.specs.Values.{checked};
ghost use Rattle.evaluate.specs.Rows.{Asked, Operands, Inside, Ready, told, meant, entered, says, cell_in, one_in, two_in};

use rules::{Check, Value};
use words::{A, WORDS, field, high, op_of, ops};

// A value, beside the fuel left.
#[derive(Clone, Copy, Debug, PartialEq, Eq)]
pub struct Got {
    pub left: u32,
    pub value: Value,
}

// Why a row stops the run: it has no fuel; or a check of it fails, with this fuel left.
#[derive(Clone, Copy, Debug, PartialEq, Eq)]
pub enum Cause {
    Fuel,
    Check(Check, u32),
}

// The row that stops a run, as the table numbers rows, and why. A struct: as an enum of the two causes with the row in each, deep commands ran a tenth slower.
#[derive(Clone, Copy, Debug, PartialEq, Eq)]
pub struct Stop {
    pub row: u32,
    pub cause: Cause,
}

// What a rule of the row gives, with this fuel left.
fn answer(row: u32, left: u32, rule: Result<Value, Check>) -> Result<Got, Stop>
    ensures { result ≡ says row left rule }
{
    match rule {
        Ok(value) => Ok(Got { left, value }),
        Err(check) => Err(Stop {
            row,
            cause: Cause::Check(check, left),
        }),
    }
}

// ---- one operand

// The cell at an address.
fn load(memory: &[u64], a: u32) -> Value
    requires { Inside memory.now a }
    ensures { result ≡ cell_in memory.now a }
{
    values::decode(memory[(a - 1) as usize])
}

// By the operation: the last is a cell of a DYNAMIC home, read as an int.
#[tactic(auto, unfolding(crate::specs::Rows::one_in))]
fn one(t: &[u64; WORDS], memory: &[u64], op: u64, v: Value) -> Result<Value, Check>
    requires { Ready t.now memory.now op v }
    ensures { result ≡ checked (one_in t.now memory.now op v) }
{
    Ok(match op {
        ops::TO_INT => Value::Number(values::to_int(t, v)),
        ops::TO_PAIR => values::to_pair(v),
        ops::TO_SAFE => Value::Number(values::to_safe(t, v)?),
        ops::READ_SAFE => load(memory, values::reach_safe(v)?),
        ops::READ_SEQ => load(memory, values::reach_seq(t, v)?),
        ops::READ_DYNAMIC => load(memory, values::reach_dynamic(t, v)?),
        _ => Value::Number(values::to_int(t, load(memory, values::reach_dynamic(t, v)?))),
    })
}

// What a row of one operand answers, whose value is x.
fn single(t: &[u64; WORDS], memory: &[u64], op: u64, row: u32, x: Got) -> Result<Got, Stop>
    requires { Ready t.now memory.now op x.value }
    ensures { result ≡ says row x.left (checked (one_in t.now memory.now op x.value)) }
{
    answer(row, x.left, one(t, memory, op, x.value))
}

// ---- two operands

#[tactic(auto, unfolding(crate::specs::Rows::two_in))]
fn two(op: u64, v: Value, k: Value) -> Result<Value, Check>
    requires { op_sum ≤ op }
    ensures { result ≡ checked (two_in op v k) }
{
    let n = values::number(k);
    if op == ops::SUM {
        return Ok(values::plus(v, n));
    }
    values::applied(op - ops::OPERATORS, values::number(v), n).map(Value::Number)
}

// ---- rows. An answer is taken apart by `let .. else`, the form that was asked for by name (docs/DECISIONS.md, Forms).
// The table and the memory go apart: as one struct they were tried, and deep commands ran a seventh slower.
// Each contract asks for the row's routine and marking, as a record: they are lists and functions, which no ghost field holds.

// A row of the word w that has been entered and has operands: the operands left to right, then the row's rule.
#[cycle(compound_eval)]
fn compound(t: &[u64; WORDS], memory: &[u64], row: u32, w: u64, left: u32) -> Result<Got, Stop>
    requires { Operands t.now memory.now row w }
    ensures { (g : Asked t.now memory.now row) → told g.rows.routine result ≡ entered g left }
{
    let op = op_of(w);
    let first = eval(t, memory, field::<A>(w), left);
    let Ok(x) = first else {
        return first;
    };
    if op < ops::SUM {
        return single(t, memory, op, row, x);
    }
    let second = eval(t, memory, high(w), x.left);
    let Ok(y) = second else {
        return second;
    };
    answer(row, y.left, two(op, x.value, y.value))
}

// The row's value with the fuel left, or what stopped it. Inlined, a leaf is answered where it is asked for, in registers.
#[cycle(compound_eval)]
#[inline(always)]
pub fn eval(t: &[u64; WORDS], memory: &[u64], row: u32, fuel: u32) -> Result<Got, Stop>
    requires { Asked t.now memory.now row }
    ensures { (g : Asked t.now memory.now row) → told g.rows.routine result ≡ meant g fuel }
{
    if fuel == 0 {
        return Err(Stop {
            row,
            cause: Cause::Fuel,
        });
    }
    let left = fuel - 1;
    let w = t[row as usize];
    match op_of(w) {
        ops::NUMBER => Ok(Got {
            left,
            value: Value::Number(high(w)),
        }),
        ops::PAIR => Ok(Got {
            left,
            value: Value::Pair(high(w), 0),
        }),
        _ => compound(t, memory, row, w, left),
    }
}
