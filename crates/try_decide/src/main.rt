// Runs a script of steps on a table, its index, a request and lent rows, and prints what the steps answer. A step is nine bytes: a letter, two
// numbers of two bytes and one of four, the high byte first. second/ has the script's meaning and makes the stored input and output.
#![tactic(auto)]

ghost use Rattle.std.specs.Prelude.{◌<◌};
ghost use Rattle.table.specs.Facts.{Table};
ghost use Rattle.store.specs.Given.{prohibition_of};
ghost use Rattle.store.specs.ProhibitionWords.{Storable};

use answer::Refusal;
use decide::Decision;
use explain::Explanation;
use request::Request;
use store::{Association, Prohibition};
use trial::Order;

// How many words of the memory and bytes of the index are lent.
#[derive(Clone, Copy)]
struct Lent {
    words: u32,
    bytes: u32,
}

// A prohibition that is being made.
#[derive(Clone, Copy)]
struct Draft {
    sort: u32,
    form: u32,
    subject: u32,
    rights: u32,
    inclusions: [u32; 4],
}

// What a script keeps from step to step, besides the memory and the index.
#[derive(Clone, Copy)]
struct Kept {
    lent: Lent,
    request: Request,
    draft: Draft,
}

// A number, and a space or the end of the line.
fn say_number(n: u32, end: u8) {
    io::print_decimal(1, n as u64);
    io::write_all(1, &[end]);
}

// A letter, a number and the end of the line.
fn say(letter: u8, n: u32) {
    io::write_all(1, &[letter, b' ']);
    say_number(n, b'\n');
}

// Says a refusal, and nothing of what was done.
fn say_refusal(r: Result<(), Refusal>) {
    if let Err(refusal) = r {
        say(b'R', u32::from(refusal));
    }
}

// Says what was decided.
fn say_decision(d: Result<Decision, Refusal>) {
    match d {
        Ok(Decision::Grant(k)) => say(b'G', k),
        Ok(Decision::Deny) => {
            io::write_all(1, &[b'D', b'\n']);
        }
        Err(refusal) => say(b'R', u32::from(refusal)),
    }
}

// A decision as one number.
fn number_of(d: Result<Decision, Refusal>) -> u32 {
    match d {
        Ok(Decision::Grant(k)) => k % 256,
        Ok(Decision::Deny) => 256,
        Err(refusal) => 512 + u32::from(refusal) % 256,
    }
}

// Gives process i a user, 0 for none; says 2 where it is no id.
fn give_user(mem: &mut [u32], i: u32, user: u32)
    requires table { Table mem.old }
    requires i_bound { i < 256 }
{
    if 511 < user {
        say(b'R', 2);
        return;
    }
    store::set_user(mem, i, user);
}

// Puts an association in; says 3 where it is there, and 10 at the limit.
fn associate(mem: &mut [u32], a: Association)
    requires table { Table mem.old }
    requires attribute_bound { a.attribute < 512 }
    requires target_bound { a.target < 512 }
{
    if store::has_association(mem, a) {
        say(b'R', 3);
        return;
    }
    say_refusal(store::add_association(mem, a));
}

// Four ids from the three numbers of a step.
fn listed(a: u32, b: u32, v: u32) -> [u32; 4] {
    [a, b, v / 65536, v % 65536]
}

// How many ids a list has: those before the first 0.
fn count(ids: [u32; 4]) -> u32 {
    if ids[0] == 0 {
        return 0;
    }
    if ids[1] == 0 {
        return 1;
    }
    if ids[2] == 0 {
        return 2;
    }
    if ids[3] == 0 {
        return 3;
    }
    4
}

// Puts a prohibition in; says 3 where it is there, and 10 at the limit.
fn prohibit(mem: &mut [u32], b: Prohibition)
    requires table { Table mem.old }
    requires storable { Storable (prohibition_of b) }
{
    if store::has_prohibition(mem, b) {
        say(b'R', 3);
        return;
    }
    say_refusal(store::add_prohibition(mem, b));
}

// Puts in the prohibition that was being made, with these exclusions.
fn finish(mem: &mut [u32], d: Draft, inclusions: [u32; 4], exclusions: [u32; 4])
    requires { Table mem.old }
{
    let n = trial::first_of(count(inclusions), &inclusions);
    let m = trial::first_of(count(exclusions), &exclusions);
    let b = Prohibition {
        sort: d.sort % 4,
        subject: d.subject % 512,
        form: d.form % 2,
        rights: d.rights,
        inclusion: &inclusions[..n],
        exclusion: &exclusions[..m],
    };
    prohibit(mem, b);
}

// The steps that change the table; on memory that holds none they say 1.
fn change(mem: &mut [u32], d: Draft, letter: u8, a: u32, b: u32, v: u32) {
    if letter == b'K' {
        say_refusal(trial::give_kind(mem, a, b));
        return;
    }
    if letter == b'A' {
        say_refusal(trial::assign(mem, a, b));
        return;
    }
    if !table::holds(mem) {
        say(b'R', 1);
        return;
    }
    if letter == b'U' {
        give_user(mem, a % 256, b);
        return;
    }
    if letter == b'S' {
        let given = Association {
            attribute: a % 512,
            target: b % 512,
            rights: v,
        };
        associate(mem, given);
        return;
    }
    let inclusions = d.inclusions;
    finish(mem, d, inclusions, listed(a, b, v));
}

// A byte from such a number, 0 but in about `share` of 256 cases.
fn byte_of(x: u32, share: u32) -> u8 {
    if x / 65536 % 256 < share {
        return (x / 16777216) as u8;
    }
    0
}

// Makes the bytes foreign ones.
fn scatter(idx: &mut [u8], seed: u32, share: u32) {
    let mut x = seed;
    for byte in idx.iter_mut() {
        x = trial::mix(x, 0);
        *byte = byte_of(x, share);
    }
}

// The byte with the bit that the mask has, or without it.
fn with_bit(byte: u8, mask: u8, set: bool) -> u8 {
    if set {
        return byte | mask;
    }
    byte & (255 - mask)
}

// Sets or clears the bit of x and y, where there is such a byte.
fn put_bit(idx: &mut [u8], x: u32, y: u32, set: bool) {
    let i = (64 * (x % 512) + y % 512 / 8) as usize;
    if idx.len() <= i {
        return;
    }
    idx[i] = with_bit(idx[i], 128 >> (y % 8), set);
}

// The steps that change the index.
fn change_index(mem: &[u32], idx: &mut [u8], letter: u8, a: u32, b: u32, v: u32) {
    if letter == b'B' {
        say_refusal(index::build(mem, idx));
        return;
    }
    if letter == b'Z' {
        idx.fill((a % 256) as u8);
        return;
    }
    if letter == b'F' {
        scatter(idx, v, a);
        return;
    }
    put_bit(idx, a, b, v % 2 == 1);
}

// Decides plainly or by the index.
fn decide_once(mem: &[u32], idx: &[u8], q: Request, indexed: bool) -> Result<Decision, Refusal> {
    if indexed {
        return decide::decide_indexed(mem, idx, q);
    }
    decide::decide(mem, q)
}

// Decides some times and says the decision once, or `X` and the turn if one was another. Word 7, which is free, counts the turns, so that the
// memory of no turn is that of the turn before it.
fn ask(mem: &mut [u32], idx: &[u8], q: Request, indexed: bool, times: u32) {
    let first = decide_once(mem, idx, q, indexed);
    let number = number_of(first);
    for i in 1..times {
        trial::put(mem, 7, i);
        if number_of(decide_once(mem, idx, q, indexed)) != number {
            say(b'X', i);
            return;
        }
    }
    say_decision(first);
}

// What row i holds before an explanation.
fn unused_row(i: usize) -> [u32; 8] {
    let n = 1000000 + 8 * (i % 65536) as u32;
    [n, n + 1, n + 2, n + 3, n + 4, n + 5, n + 6, n + 7]
}

// Makes each row an unused one.
fn clear_rows(rows: &mut [[u32; 8]]) {
    for (i, row) in rows.iter_mut().enumerate() {
        *row = unused_row(i);
    }
}

// Says a row: eight numbers.
fn say_row(row: [u32; 8]) {
    for n in &row[..7] {
        say_number(*n, b' ');
    }
    say_number(row[7], b'\n');
}

// Says n rows and the first one beyond, as far as there are rows.
fn say_rows(rows: &[[u32; 8]], n: u32) {
    for row in rows.iter().take(n as usize + 1) {
        say_row(*row);
    }
}

// Says a letter and two numbers.
fn say_two(letter: u8, n: u32, m: u32) {
    io::write_all(1, &[letter, b' ']);
    say_number(n, b' ');
    say_number(m, b'\n');
}

// Explains into unused rows, and says the explanation and the rows.
fn explain_into(mem: &[u32], q: Request, rows: &mut [[u32; 8]]) {
    clear_rows(rows);
    match explain::explain_numbers(mem, q, rows) {
        Ok(Explanation::Grant(alternative, n)) => {
            say_two(b'G', alternative, n);
            say_rows(rows, n);
        }
        Ok(Explanation::Deny(n)) => {
            say(b'D', n);
            say_rows(rows, n);
        }
        Err(refusal) => {
            say(b'R', u32::from(refusal));
            say_rows(rows, 0);
        }
    }
}

// Explains with so many rows lent.
fn explain_in(mem: &[u32], q: Request, room: u32) {
    let mut rows = [[0u32; 8]; 1600];
    let n = trial::first_of(room % 1601, &rows);
    explain_into(mem, q, &mut rows[..n]);
}

// The steps that ask.
fn answer(mem: &mut [u32], idx: &[u8], q: Request, letter: u8, v: u32) {
    if letter == b'D' {
        ask(mem, idx, q, false, v);
        return;
    }
    if letter == b'I' {
        ask(mem, idx, q, true, v);
        return;
    }
    if letter == b'E' {
        explain_in(mem, q, v);
        return;
    }
    if letter == b'C' {
        ask(mem, idx, q, false, 1);
        ask(mem, idx, q, true, 1);
    }
}

// Whether the step writes words of the memory.
fn is_write(letter: u8) -> bool {
    if letter == b'N' {
        return true;
    }
    if letter == b'W' {
        return true;
    }
    if letter == b'K' {
        return true;
    }
    if letter == b'U' {
        return true;
    }
    if letter == b'A' {
        return true;
    }
    if letter == b'S' {
        return true;
    }
    letter == b'X'
}

// Whether the step is about the index.
fn is_index_change(letter: u8) -> bool {
    if letter == b'B' {
        return true;
    }
    if letter == b'Z' {
        return true;
    }
    if letter == b'F' {
        return true;
    }
    letter == b'T'
}

// The steps that write words.
fn write(mem: &mut [u32], d: Draft, letter: u8, a: u32, b: u32, v: u32) {
    if letter == b'N' {
        say_refusal(table::new(mem));
        return;
    }
    if letter == b'W' {
        trial::put(mem, a as usize, v);
        return;
    }
    change(mem, d, letter, a, b, v);
}

// One step on what is lent.
fn step(mem: &mut [u32], idx: &mut [u8], k: Kept, letter: u8, a: u32, b: u32, v: u32) {
    if is_write(letter) {
        write(mem, k.draft, letter, a, b, v);
        return;
    }
    if is_index_change(letter) {
        change_index(mem, idx, letter, a, b, v);
        return;
    }
    answer(mem, idx, k.request, letter, v);
}

// One step on as much as is lent.
fn lend(mem: &mut [u32], idx: &mut [u8], k: Kept, letter: u8, a: u32, b: u32, v: u32) {
    let l = k.lent;
    let words = trial::first_of(l.words, mem);
    let bytes = trial::first_of(l.bytes, idx);
    step(&mut mem[..words], &mut idx[..bytes], k, letter, a, b, v);
}

// How much is lent after a step.
fn lent_after(l: Lent, letter: u8, a: u32, b: u32) -> Lent {
    if letter == b'L' {
        return Lent {
            words: a % 8194,
            bytes: b % 32770,
        };
    }
    l
}

// The request with its number k put anew: 0 process, 1 operation, 2 to 4 the arguments.
fn with_number(q: Request, k: u32, v: u32) -> Request {
    let mut r = q;
    if k == 0 {
        r.process = v;
        return r;
    }
    if k == 1 {
        r.operation = v;
        return r;
    }
    if k == 2 {
        r.first = v;
        return r;
    }
    if k == 3 {
        r.second = v;
        return r;
    }
    r.third = v;
    r
}

// The request after a step.
fn request_after(q: Request, letter: u8, a: u32, b: u32, v: u32) -> Request {
    if letter == b'Q' {
        return Request {
            process: a,
            operation: b,
            first: v,
            second: 0,
            third: 0,
        };
    }
    if letter == b'M' {
        return Request {
            process: q.process,
            operation: q.operation,
            first: q.first,
            second: a,
            third: b,
        };
    }
    if letter == b'V' {
        return with_number(q, a % 5, v);
    }
    q
}

// The prohibition after a step.
fn draft_after(d: Draft, letter: u8, a: u32, b: u32, v: u32) -> Draft {
    if letter == b'P' {
        return Draft {
            sort: a / 2,
            form: a % 2,
            subject: b,
            rights: v,
            inclusions: [0; 4],
        };
    }
    if letter == b'J' {
        let ids = listed(a, b, v);
        return Draft {
            sort: d.sort,
            form: d.form,
            subject: d.subject,
            rights: d.rights,
            inclusions: ids,
        };
    }
    d
}

// What is kept after a step.
fn kept_after(k: Kept, letter: u8, a: u32, b: u32, v: u32) -> Kept {
    let lent = lent_after(k.lent, letter, a, b);
    let request = request_after(k.request, letter, a, b, v);
    let draft = draft_after(k.draft, letter, a, b, v);
    Kept {
        lent,
        request,
        draft,
    }
}

// One step, and what is kept after it.
fn turn(o: Order, mem: &mut [u32], idx: &mut [u8], k: Kept) -> Kept {
    let after = kept_after(k, o.letter, o.a, o.b, o.c);
    lend(mem, idx, after, o.letter, o.a, o.b, o.c);
    after
}

// All steps of a script.
fn run(script: &[u8], mem: &mut [u32], idx: &mut [u8]) {
    let mut k = Kept {
        lent: Lent {
            words: 8192,
            bytes: 32768,
        },
        request: Request {
            process: 0,
            operation: 0,
            first: 0,
            second: 0,
            third: 0,
        },
        draft: Draft {
            sort: 0,
            form: 0,
            subject: 0,
            rights: 0,
            inclusions: [0; 4],
        },
    };
    for s in script.as_chunks::<9>().0 {
        k = turn(trial::short_order(s), mem, idx, k);
    }
}

fn main() {
    let mut script = [0u8; 327680];
    let n = io::read_full(0, &mut script);
    let mut mem = [0u32; 8193];
    let mut idx = [0u8; 32769];
    run(&script[..n], &mut mem, &mut idx);
}
