// Whether a row is in range, section by section: refusal 3.
#![tactic(auto, unfolding(rules::specs::Reading::row_good))]

ghost use Rattle.std.specs.Prelude.{◌≡◌, ℕ, ◌+◌, ◌*◌, ◌≤◌, length};
ghost use Rattle.rules.specs.Basic.{half};
ghost use Rattle.rules.specs.Reading.{row_bytes, row_good};
ghost use Rattle.reader.specs.Steps.{Sighted, expr_fields, command_fields};

use rules::Section;
use view::{CommandRow, ExprRow, HomeRow, StartRow, TypeRow, half_at};

// Tags are numbers here: the bytes that are judged may be a row of no form, and `view::Expr` is what comes after this test.

// The fields of expression row `i` of a file with so many types and homes: known tag, unused fields zero, the others in range.
fn expr_fields(tag: u8, a: usize, b: usize, types: usize, homes: usize, i: usize) -> bool
    ensures { result ≡ expr_fields tag a b types homes i }
{
    match tag {
        0 => true,
        1 => b == 0 && (1..=homes).contains(&a),
        3 => a < i && b <= types,
        4 => b == 0 && (1..=types).contains(&a),
        5 | 16..=24 => a < i && b < i,
        6 => b == 0 && a < i,
        _ => false,
    }
}

// The fields of command row `i` of a file with so many expressions.
fn command_fields(tag: u8, a: usize, b: usize, c: usize, exprs: usize, i: usize) -> bool
    ensures { result ≡ command_fields tag a b c exprs i }
{
    match tag {
        0 => a == 0 && b == 0 && c == 0,
        1 => c == 0 && a < i && b < i,
        2 => c == 0 && a < exprs && b < exprs,
        3 => a < exprs && b < i && c < i,
        4 => c == 0 && a < exprs && b < i,
        _ => false,
    }
}

// A type row, at `place`: its target is a lower number.
fn type_good(file: &[u8], i: usize, place: usize) -> bool
    requires { place + 2 ≤ length file.now }
    ensures { result ≡ row_good file.now Section.Types i place }
{
    TypeRow::at(file, place).target as usize <= i
}

// A home row, at `place`: its type is a type of the file, and its size 1 to 1,024.
fn home_good(file: &[u8], types: usize, place: usize) -> bool
    requires { place + 4 ≤ length file.now }
    ensures { (i : ℕ) → result ≡ row_good file.now (Section.Homes types) i place }
{
    let row = HomeRow::at(file, place);
    (1..=types).contains(&(row.ty as usize)) && (1..=1024).contains(&row.size)
}

// An expression row, at `place`.
fn expr_good(file: &[u8], types: usize, homes: usize, i: usize, place: usize) -> bool
    requires { place + 5 ≤ length file.now }
    ensures { result ≡ row_good file.now (Section.Exprs types homes) i place }
{
    let row = ExprRow::at(file, place);
    expr_fields(row.tag, row.a as usize, row.b as usize, types, homes, i)
}

// A command row, at `place`.
fn command_good(file: &[u8], exprs: usize, i: usize, place: usize) -> bool
    requires { place + 7 ≤ length file.now }
    ensures { result ≡ row_good file.now (Section.Commands exprs) i place }
{
    let row = CommandRow::at(file, place);
    command_fields(
        row.tag,
        row.a as usize,
        row.b as usize,
        row.c as usize,
        exprs,
        i,
    )
}

// A start row, at `place`: its home is a home of the file, and its cell one of that home's. The homes' count stands at `homes_at`.
fn value_good(file: &[u8], homes_at: usize, place: usize) -> bool
    requires row { place + 8 ≤ length file.now }
    requires homes { homes_at + 2 + 4 * half file.now homes_at ≤ length file.now }
    ensures { (i : ℕ) → result ≡ row_good file.now (Section.Values homes_at) i place }
{
    let row = StartRow::at(file, place);
    let in_homes = (1..=half_at(file, homes_at)).contains(&row.home);
    in_homes && row.cell < half_at(file, homes_at + 4 * row.home as usize)
}

// Whether row `i` of a section, which stands at `place`, is in range. `Sighted` stays a clause: it ties a section, an enum that code and definitions share, to the file.
pub fn row_good(file: &[u8], part: Section, i: usize, place: usize) -> bool
    requires row { place + row_bytes part ≤ length file.now }
    requires sighted { Sighted file.now part }
    ensures { result ≡ row_good file.now part i place }
{
    match part {
        Section::Types => type_good(file, i, place),
        Section::Homes(types) => home_good(file, types, place),
        Section::Exprs(types, homes) => expr_good(file, types, homes, i, place),
        Section::Commands(exprs) => command_good(file, exprs, i, place),
        Section::Values(homes_at) => value_good(file, homes_at, place),
    }
}
