// The explanation, with rows as a lent slice of small structs.
#![tactic(auto)]

ghost use Rattle.std.specs.Prelude.{◌≡◌, [], map, ◌≤◌, ◌<◌, length, get_or, take};
ghost use Rattle.model.specs.Calls.{over, explain as explaining};
ghost use Rattle.table.specs.View.{memory};
ghost use Rattle.request.specs.Asks.{request_of};
ghost use Rattle.rows.specs.Rows.{from_numbers, row_of, leaving, count_of, Tells};

use answer::Refusal;
use explain::Explanation;
use request::Request;

// A row of the explanation.
#[repr(C)]
#[derive(Clone, Copy)]
pub struct Row {
    pub alternative: u32,
    pub argument: u32,
    pub right: u32,
    pub cause: u32,
    pub number: u32,
    pub attribute: u32,
    pub target: u32,
    pub rights: u32,
}

// A row of numbers as a row of the explanation.
fn row_of(numbers: &[[u32; 8]], i: usize) -> Row
    requires { i < length numbers.now }
    ensures { result ≡ from_numbers (get_or numbers.now i []) }
{
    Row {
        alternative: numbers[i][0],
        argument: numbers[i][1],
        right: numbers[i][2],
        cause: numbers[i][3],
        number: numbers[i][4],
        attribute: numbers[i][5],
        target: numbers[i][6],
        rights: numbers[i][7],
    }
}

// Stores the first n rows; those beyond keep their contents.
fn copy_rows(rows: &mut [Row], numbers: &[[u32; 8]], n: usize)
    requires { (n ≤ length rows.old) × (n ≤ length numbers.now) }
    ensures { rows.new ≡ over (map from_numbers (take n numbers.now)) rows.old }
{
    for i in 0..n {
        rows[i] = row_of(numbers, i);
    }
}

// How many rows an explanation has.
fn count(explanation: Explanation) -> usize
    ensures { result ≡ count_of explanation }
{
    match explanation {
        Explanation::Grant(_, n) => n as usize,
        Explanation::Deny(n) => n as usize,
    }
}

// The answer where `room` rows are lent, 10 where they are too few, and the numbers of its rows.
fn tell(
    mem: &[u32],
    q: Request,
    room: usize,
    numbers: &mut [[u32; 8]],
) -> Result<Explanation, Refusal>
    requires { 1533 ≤ length numbers.old }
    ensures { Tells (memory mem.now) (request_of q) room result numbers.old numbers.new }
{
    let explanation = explain::explain_numbers(mem, q, numbers)?;
    if room < count(explanation) {
        return Err(Refusal::NoRoom);
    }
    Ok(explanation)
}

// The explanation: answers as the plain decision does and fills the lent rows. It has at most 1,533 rows: three rights over 511 classes each.
pub fn explain(mem: &[u32], q: Request, rows: &mut [Row]) -> Result<Explanation, Refusal>
    ensures { leaving result rows.new ≡ explaining (memory mem.now) (request_of q) (map row_of rows.old) }
{
    let mut numbers = [[0u32; 8]; 1536];
    let explanation = tell(mem, q, rows.len(), &mut numbers)?;
    let n = count(explanation);
    copy_rows(rows, &numbers, n);
    Ok(explanation)
}
