// Command rows, run from the table.
#![tactic(auto)]

ghost use Rattle.std.specs.Prelude.{◌≡◌};
ghost use Rattle.words.specs.Ops.{op_then, op_store, op_if, op_while};
ghost use Rattle.execute.specs.Commands.{Commanded, Entered, Storing, ran_told, meant_run, entered_run, storing_run, stopped_of};

use evaluate::{Cause, Got, Stop, eval};
use words::{A, B, C, COMMANDS, WORDS, d_of, field, op_of, ops};

// Each contract asks for the row's routine, marking and homes, as a record: they are lists and functions, which no ghost field holds.
// An answer is taken apart by `let .. else`, the form that was asked for by name (docs/DECISIONS.md, Forms), and not by `?`.
// Rows are told as the table numbers them, commands from 1,024 on: an enum of the two sections would be put in and taken out at each stop.
// The table, the memory, the row, its word and the fuel go apart, in registers: a struct of the first two was tried, and deep commands ran a seventh slower.

// What a command answers where its expression has stopped.
fn stopped(x: Result<Got, Stop>) -> Result<u32, Stop>
    ensures { result ≡ stopped_of x }
{
    x.map(|x| x.left)
}

// ---- stores

// The pointer's checks are made, and it reaches address a: the value, its conversion, then the store.
fn put(
    t: &[u64; WORDS],
    memory: &mut [u64],
    row: u32,
    w: u64,
    a: u32,
    left: u32,
) -> Result<u32, Stop>
    requires { Storing t.now memory.old row w a }
    ensures { (g : Commanded t.now memory.old row) → ran_told g.rows.routine g.homes.list result memory.new ≡ storing_run g a left }
{
    let value = eval(t, memory, field::<B>(w), left);
    let Ok(y) = value else {
        return stopped(value);
    };
    match values::kept(t, d_of(w), y.value) {
        Ok(entry) => {
            memory[(a - 1) as usize] = entry;
            Ok(y.left)
        }
        Err(check) => Err(Stop {
            row: 1024 + row,
            cause: Cause::Check(check, y.left),
        }),
    }
}

fn store(t: &[u64; WORDS], memory: &mut [u64], row: u32, w: u64, left: u32) -> Result<u32, Stop>
    requires { Entered t.now memory.old row w op_store }
    ensures { (g : Commanded t.now memory.old row) → ran_told g.rows.routine g.homes.list result memory.new ≡ entered_run g left }
{
    let pointer = eval(t, memory, field::<A>(w), left);
    let Ok(x) = pointer else {
        return stopped(pointer);
    };
    match values::reach(t, field::<C>(w), x.value) {
        Ok(a) => put(t, memory, row, w, a, x.left),
        Err(check) => Err(Stop {
            row: 1024 + row,
            cause: Cause::Check(check, x.left),
        }),
    }
}

// ---- rows that hold commands

#[cycle(choose_exec_repeat_then)]
fn then(t: &[u64; WORDS], memory: &mut [u64], row: u32, w: u64, left: u32) -> Result<u32, Stop>
    requires { Entered t.now memory.old row w op_then }
    ensures { (g : Commanded t.now memory.old row) → ran_told g.rows.routine g.homes.list result memory.new ≡ entered_run g left }
{
    let rest = exec(t, memory, field::<A>(w), left)?;
    exec(t, memory, field::<B>(w), rest)
}

#[cycle(choose_exec_repeat_then)]
fn choose(t: &[u64; WORDS], memory: &mut [u64], row: u32, w: u64, left: u32) -> Result<u32, Stop>
    requires { Entered t.now memory.old row w op_if }
    ensures { (g : Commanded t.now memory.old row) → ran_told g.rows.routine g.homes.list result memory.new ≡ entered_run g left }
{
    let test = eval(t, memory, field::<A>(w), left);
    let Ok(x) = test else {
        return stopped(test);
    };
    if values::number(x.value) == 0 {
        exec(t, memory, field::<C>(w), x.left)
    } else {
        exec(t, memory, field::<B>(w), x.left)
    }
}

// The turns of a while whose row has been entered; it is entered again for each further test. A `loop`: what ends it is the routine's own test.
#[cycle(choose_exec_repeat_then)]
fn repeat(t: &[u64; WORDS], memory: &mut [u64], row: u32, w: u64, fuel: u32) -> Result<u32, Stop>
    requires { Entered t.now memory.old row w op_while }
    ensures { (g : Commanded t.now memory.old row) → ran_told g.rows.routine g.homes.list result memory.new ≡ entered_run g fuel }
{
    let mut left = fuel;
    loop {
        let test = eval(t, memory, field::<A>(w), left);
        let Ok(turn) = test else {
            return stopped(test);
        };
        if values::number(turn.value) == 0 {
            return Ok(turn.left);
        }
        let after = exec(t, memory, field::<B>(w), turn.left)?;
        if after == 0 {
            return Err(Stop {
                row: 1024 + row,
                cause: Cause::Fuel,
            });
        }
        left = after - 1;
    }
}

// The fuel left once the row is carried out, or what stopped it; and the memory as after the last store.
#[cycle(choose_exec_repeat_then)]
pub fn exec(t: &[u64; WORDS], memory: &mut [u64], row: u32, fuel: u32) -> Result<u32, Stop>
    requires { Commanded t.now memory.old row }
    ensures { (g : Commanded t.now memory.old row) → ran_told g.rows.routine g.homes.list result memory.new ≡ meant_run g fuel }
{
    if fuel == 0 {
        return Err(Stop {
            row: 1024 + row,
            cause: Cause::Fuel,
        });
    }
    let left = fuel - 1;
    let w = t[COMMANDS + row as usize];
    match op_of(w) {
        ops::SKIP => Ok(left),
        ops::THEN => then(t, memory, row, w, left),
        ops::STORE => store(t, memory, row, w, left),
        ops::IF => choose(t, memory, row, w, left),
        _ => repeat(t, memory, row, w, left),
    }
}
