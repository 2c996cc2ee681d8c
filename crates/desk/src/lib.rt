// The desk: what the desk program prints, as functions from input bytes to output bytes. One call tells how many bytes the length and the image are;
// one reads the image and prints the first line; one answers a request and prints its line; one answers all requests of a piece and prints their lines.
#![tactic(auto)]

ghost use Rattle.std.specs.Prelude.{◌≡◌, Ok, [], ◌∷◌, ◌+◌, ◌*◌, ◌≤◌, ◌<◌, length};
ghost use Rattle.model.specs.Bits.{bits_of};
ghost use Rattle.model.specs.Contain.{contained};
ghost use Rattle.model.specs.Request.{deny, verdict};
ghost use Rattle.model.specs.Explain.{rows};
ghost use Rattle.model.specs.Calls.{decide};
ghost use Rattle.model.specs.Desk.{line, R, counts_line, request_in, deny_line, answer_line, request_line, requests_of};
ghost use Rattle.table.specs.View.{policy_of, memory};
ghost use Rattle.table.specs.Facts.{Table};
ghost use Rattle.request.specs.Asks.{request_of, Accepted};
ghost use Rattle.decide.specs.Answers.{told as told_decided};
ghost use Rattle.lines.specs.Typing.{Typed};
ghost use Rattle.desk.specs.Printing.{line_room, first_line, request_count, image_length};
ghost use Rattle.desk.specs.Allows as allows;

use answer::Refusal;
use bits::Cursor;
use decide::Decision;
use request::Request;

// A line needs no more bytes.
pub const LINE: usize = 64;

// Bytes of the length before the image.
const HEAD: usize = 2;

// Bytes of a request.
pub const REQUEST: usize = 5;

// The letters of the lines.
const REFUSED_IMAGE: u8 = 76;

const POLICY: u8 = 80;

const GRANT: u8 = 71;

const DENY: u8 = 68;

const REFUSED: u8 = 82;

// An accepted image: how many bytes were printed, and where the requests start. A refused image: how many bytes were printed.
#[derive(Clone, Copy)]
pub enum Opened {
    Open(usize, usize),
    Closed(usize),
}

// The request that forty bits are.
fn request_in(s: &[u8]) -> Request
    requires { length s.now ≡ 5 }
    ensures { request_of result ≡ request_in (bits_of s.now) }
{
    let process = Cursor { at: 0 }.take(s, 8);
    let c = process.next;
    let operation = c.take(s, 4);
    let d = operation.next;
    let first = d.take(s, 9);
    let e = first.next;
    let second = e.take(s, 9);
    let f = second.next;
    let third = f.take(s, 9);
    Request {
        process: process.value,
        operation: operation.value,
        first: first.value,
        second: second.value,
        third: third.value,
    }
}

// Puts the line of a deny: a deny has two rows at most, and the first says why the first alternative fails.
fn put_denial(mem: &[u32], q: Request, out: &mut [u8]) -> usize
    requires table { Table mem.now }
    requires accepted { Accepted mem.now q }
    requires q_value { verdict (contained (policy_of mem.now)) (policy_of mem.now) (request_of q) ≡ deny }
    requires in_bounds { 64 ≤ length out.old }
    ensures { Typed (deny_line (rows (contained (policy_of mem.now)) (policy_of mem.now) (request_of q))) 0 out.old out.new result }
{
    let mut why = [[0u32; 8]; 2];
    let _explained = policy::explain_numbers(mem, q, &mut why);
    let numbers = [why[0][1], why[0][2], why[0][3], why[0][4]];
    lines::put_line(out, DENY, &numbers)
}

// Puts the line of a verdict on a request; only a deny is explained.
#[tactic(auto, using(crate::proofs::Answering::denied_verdict))]
fn put_verdict(mem: &[u32], q: Request, verdict: Decision, out: &mut [u8]) -> usize
    requires table { Table mem.now }
    requires decided { told_decided (Ok verdict) ≡ decide (memory mem.now) (request_of q) }
    requires in_bounds { 64 ≤ length out.old }
    ensures { Typed (answer_line (rows (contained (policy_of mem.now)) (policy_of mem.now) (request_of q)) (decide (memory mem.now) (request_of q))) 0 out.old out.new result }
{
    match verdict {
        Decision::Grant(k) => lines::put_line(out, GRANT, &[k]),
        Decision::Deny => put_denial(mem, q, out),
    }
}

// Puts the line of a request that is not cut: decides first.
fn put_answer(mem: &[u32], s: &[u8], out: &mut [u8]) -> usize
    requires table { Table mem.now }
    requires s_len { length s.now ≡ 5 }
    requires in_bounds { 64 ≤ length out.old }
    ensures { Typed (request_line (policy_of mem.now) (bits_of s.now)) 0 out.old out.new result }
{
    let last = Cursor { at: 39 }.take(s, 1);
    if last.value == 1 {
        return lines::put_line(out, REFUSED, &[2]);
    }
    let q = request_in(s);
    match policy::decide(mem, q) {
        Ok(verdict) => put_verdict(mem, q, verdict, out),
        Err(refusal) => lines::put_line(out, REFUSED, &[u32::from(refusal)]),
    }
}

// Puts the line of a request that is cut short.
fn put_cut(out: &mut [u8]) -> usize
    requires { 64 ≤ length out.old }
    ensures typed { Typed (line R (12 ∷ [])) 0 out.old out.new result }
    ensures upper_bound { result ≤ 57 }
{
    lines::put_line(out, REFUSED, &[12])
}

// Answers the first request among the bytes: prints its line in front of the lent bytes, which must be at least 64.
pub fn answer(mem: &[u32], s: &[u8], out: &mut [u8]) -> Result<usize, Refusal>
    ensures { allows.answer mem.now s.now out.old result out.new }
{
    if !table::holds(mem) {
        return Err(Refusal::NoTable);
    }
    if out.len() < LINE {
        return Err(Refusal::NoRoom);
    }
    if s.len() == 0 {
        return Ok(0);
    }
    if s.len() < REQUEST {
        return Ok(put_cut(out));
    }
    Ok(put_answer(mem, &s[0..REQUEST], out))
}

// How many requests the bytes are.
fn request_count(s: &[u8]) -> usize
    ensures { result ≡ request_count s.now }
{
    let n = s.len();
    if n % REQUEST == 0 {
        return n / REQUEST;
    }
    n / REQUEST + 1
}

// Puts the line of one request, or of one that is cut short.
#[tactic(auto, using(crate::proofs::Requests::cut_line, lines::proofs::Texts::typed_as))]
fn put_one(mem: &[u32], s: &[u8], out: &mut [u8]) -> usize
    requires table { Table mem.now }
    requires some { 0 < length s.now }
    requires s_len_bound { length s.now ≤ 5 }
    requires in_bounds { 64 ≤ length out.old }
    ensures { Typed (first_line (policy_of mem.now) s.now) 0 out.old out.new result }
{
    if s.len() < REQUEST {
        put_cut(out)
    } else {
        put_answer(mem, s, out)
    }
}

// Puts the lines of the requests, one behind the other.
#[tactic(auto, using(crate::proofs::Lined::lined_turn))]
fn put_lines(mem: &[u32], s: &[u8], out: &mut [u8]) -> usize
    requires table { Table mem.now }
    requires s_in_bounds { line_room * request_count s.now ≤ length out.old }
    ensures { Typed (requests_of (policy_of mem.now) s.now) 0 out.old out.new result }
{
    let mut used = 0;
    for request in s.chunks(REQUEST) {
        used += put_one(mem, request, &mut out[used..]);
    }
    used
}

// Answers all requests among the bytes: prints their lines, one behind the other, in front of the lent bytes, which must be at least 64 for each request.
#[tactic(auto, using(crate::proofs::Answering::all_no_table, crate::proofs::Answering::all_no_room, table::proofs::Asked::tested, crate::proofs::Answering::room_enough))]
pub fn answer_all(mem: &[u32], s: &[u8], out: &mut [u8]) -> Result<usize, Refusal>
    ensures { allows.answer_all mem.now s.now out.old result out.new }
{
    if !table::holds(mem) {
        return Err(Refusal::NoTable);
    }
    let requests = request_count(s);
    if out.len() / LINE < requests {
        return Err(Refusal::NoRoom);
    }
    Ok(put_lines(mem, s, out))
}

// Puts the line of the table's counts.
fn put_counts(mem: &[u32], out: &mut [u8]) -> usize
    requires table { Table mem.now }
    requires in_bounds { 64 ≤ length out.old }
    ensures { Typed (counts_line (policy_of mem.now)) 0 out.old out.new result }
{
    let elements = weigh::element_count(mem) as u32;
    let assignments = table::assignment_count(mem) as u32;
    let associations = table::association_count(mem) as u32;
    let prohibitions = table::prohibition_count(mem) as u32;
    let processes = weigh::process_count(mem) as u32;
    lines::put_line(
        out,
        POLICY,
        &[elements, assignments, associations, prohibitions, processes],
    )
}

// The length of the image, as its two bytes say.
fn image_length(s: &[u8]) -> usize
    requires { 2 ≤ length s.now }
    ensures value { result ≡ image_length s.now }
    ensures upper_bound { result < 65536 }
{
    usize::from(u16::from_be_bytes([s[0], s[1]]))
}

// How many bytes the length and the image are, as the first bytes of the input say: two where the length is not there.
#[tactic(auto, using(crate::proofs::Reading::no_length, crate::proofs::Reading::by_length))]
pub fn wanted(s: &[u8]) -> usize
    ensures wanted { allows.wanted s.now result }
    ensures in_range { (2 ≤ result) × (result ≤ 65537) }
{
    if s.len() < HEAD {
        return HEAD;
    }
    HEAD + image_length(s)
}

// Begins: reads the length and the image into the memory, and prints the first line in front of the lent bytes, which must be at least 64.
pub fn begin(mem: &mut [u32], s: &[u8], out: &mut [u8]) -> Result<Opened, Refusal>
    ensures { allows.begin mem.old s.now out.old result mem.new out.new }
{
    if mem.len() != table::WORDS {
        return Err(Refusal::NoTable);
    }
    if out.len() < LINE {
        return Err(Refusal::NoRoom);
    }
    let start = wanted(s);
    if s.len() < start {
        return Ok(Opened::Closed(lines::put_line(out, REFUSED_IMAGE, &[12])));
    }
    match policy::load(mem, &s[HEAD..start]) {
        Ok(()) => Ok(Opened::Open(put_counts(mem, out), start)),
        Err(refusal) => Ok(Opened::Closed(lines::put_line(
            out,
            REFUSED_IMAGE,
            &[u32::from(refusal)],
        ))),
    }
}
