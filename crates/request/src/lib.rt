// Requests: the operation table, and which requests are refused.
#![tactic(auto)]

ghost use Rattle.std.specs.Prelude.{◌≡◌, ◌&&◌, ◌≤◌, ◌<◌};
ghost use Rattle.model.specs.Policy.{is_process_id};
ghost use Rattle.model.specs.Request.{is_operation, bad_arguments, absent_arguments, arguments_of, kinds_of, absent, mismatched};
ghost use Rattle.answer.specs.Answers.{refusal_in};
ghost use Rattle.table.specs.View.{policy_of};
ghost use Rattle.table.specs.Facts.{Table};
ghost use Rattle.request.specs.Sets.{kind_sets, capabilities, is_bad, is_absent, is_wrong};
ghost use Rattle.request.specs.Asks.{request_of, refusal_of};

use answer::Refusal;

// A request: the process, the operation, and three arguments always; those that the operation does not use are 0.
#[derive(Clone, Copy)]
pub struct Request {
    pub process: u32,
    pub operation: u32,
    pub first: u32,
    pub second: u32,
    pub third: u32,
}

// The refusal for a number that is out of range.
const OUT_OF_RANGE: Refusal = Refusal::OutOfRange;

// Kinds as sets: bit k is set for kind k.
const USER_ATTRIBUTE: u32 = 4;

const OBJECT: u32 = 8;

const OBJECT_ATTRIBUTE: u32 = 16;

const ATTRIBUTE: u32 = 28;

const NON_CLASS: u32 = 30;

// Rights as sets: bit r is set for right r.
const READ: u32 = 1;

const WRITE: u32 = 2;

const FIND: u32 = 4;

const PRINT: u32 = 8;

const MOVE: u32 = 16;

const TAKE_OUT: u32 = 32;

const PUT_IN: u32 = 64;

const ASSIGN_FROM: u32 = 128;

const ASSIGN_TO: u32 = 256;

const DEASSIGN_FROM: u32 = 512;

const DEASSIGN_TO: u32 = 1024;

const ASSOC_FROM: u32 = 2048;

const ASSOC_TO: u32 = 4096;

// The kinds that each argument of an operation may be of, 0 where there is no such argument.
#[tactic(auto, using(crate::proofs::Operations::kinds_listed))]
fn kinds_of(operation: u32) -> [u32; 3]
    requires { operation ≤ 9 }
    ensures { result ≡ kind_sets operation }
{
    let kinds = [
        [0, 0, 0],
        [OBJECT, 0, 0],
        [OBJECT, 0, 0],
        [OBJECT, 0, 0],
        [OBJECT, 0, 0],
        [OBJECT, OBJECT_ATTRIBUTE, OBJECT_ATTRIBUTE],
        [OBJECT, OBJECT_ATTRIBUTE, 0],
        [NON_CLASS, NON_CLASS, 0],
        [NON_CLASS, NON_CLASS, 0],
        [USER_ATTRIBUTE, ATTRIBUTE, 0],
    ];
    kinds[operation as usize]
}

// The alternatives of an operation, each a set of rights for each argument. A second alternative that asks nothing is none.
#[tactic(auto, using(crate::proofs::Operations::rights_listed))]
pub fn required(operation: u32) -> [[u32; 3]; 2]
    requires { operation ≤ 9 }
    ensures { result ≡ capabilities operation }
{
    let capabilities = [
        [[0, 0, 0], [0, 0, 0]],
        [[READ, 0, 0], [0, 0, 0]],
        [[WRITE, 0, 0], [0, 0, 0]],
        [[FIND, 0, 0], [READ, 0, 0]],
        [[READ + PRINT, 0, 0], [0, 0, 0]],
        [[MOVE, TAKE_OUT, PUT_IN], [WRITE, TAKE_OUT, PUT_IN]],
        [[READ, PUT_IN, 0], [PRINT, WRITE, 0]],
        [[ASSIGN_FROM, ASSIGN_TO, 0], [0, 0, 0]],
        [[DEASSIGN_FROM, DEASSIGN_TO, 0], [0, 0, 0]],
        [[ASSOC_FROM, ASSOC_TO, 0], [0, 0, 0]],
    ];
    capabilities[operation as usize]
}

// n is the number of an operation, 1 to 9.
#[tactic(auto, using(crate::proofs::Refused::operation_zero, crate::proofs::Refused::operation_rest))]
fn is_operation(n: u32) -> bool
    ensures { result ≡ is_operation n }
{
    if n < 1 {
        return false;
    }
    n <= 9
}

// Whether an argument that is used is no id of an element, or one that is not used is not 0.
#[tactic(auto, using(crate::proofs::Arguments::bad_unused, crate::proofs::Arguments::bad_used))]
fn is_bad(kinds: u32, e: u32) -> bool
    ensures { result ≡ is_bad kinds e }
{
    if kinds == 0 {
        return e != 0;
    }
    !table::is_element_id(e)
}

// Whether an argument that is used is not there.
#[tactic(auto, using(crate::proofs::Arguments::absent_unused, crate::proofs::Arguments::absent_used))]
fn is_absent(mem: &[u32], kinds: u32, e: u32) -> bool
    requires { Table mem.now }
    ensures { result ≡ is_absent (policy_of mem.now) kinds e }
{
    if kinds == 0 {
        return false;
    }
    !table::is_there(mem, e)
}

// Whether an argument that is used is of another kind.
#[tactic(auto, using(crate::proofs::Arguments::wrong_unused, crate::proofs::Arguments::wrong_used))]
fn is_wrong(mem: &[u32], kinds: u32, e: u32) -> bool
    requires { Table mem.now }
    ensures { result ≡ is_wrong (policy_of mem.now) kinds e }
{
    if kinds == 0 {
        return false;
    }
    (kinds >> (table::kind_of(mem, e) % 8)) % 2 == 0
}

// Whether some argument is bad.
#[tactic(auto, using(crate::proofs::Arguments::bad_first, crate::proofs::Arguments::bad_second, crate::proofs::Arguments::bad_third))]
fn are_bad(kinds: [u32; 3], q: Request) -> bool
    requires { kinds ≡ kind_sets q.operation }
    ensures { result ≡ bad_arguments (kinds_of (request_of q)) (arguments_of (request_of q)) }
{
    if is_bad(kinds[0], q.first) {
        return true;
    }
    if is_bad(kinds[1], q.second) {
        return true;
    }
    is_bad(kinds[2], q.third)
}

// Whether some argument that is used is not there.
#[tactic(auto, using(crate::proofs::Arguments::absent_first, crate::proofs::Arguments::absent_second, crate::proofs::Arguments::absent_third))]
fn are_absent(mem: &[u32], kinds: [u32; 3], q: Request) -> bool
    requires table { Table mem.now }
    requires kinds_value { kinds ≡ kind_sets q.operation }
    ensures { result ≡ absent_arguments (policy_of mem.now) (kinds_of (request_of q)) (arguments_of (request_of q)) }
{
    if is_absent(mem, kinds[0], q.first) {
        return true;
    }
    if is_absent(mem, kinds[1], q.second) {
        return true;
    }
    is_absent(mem, kinds[2], q.third)
}

// Whether some argument that is used is of another kind.
#[tactic(auto, using(crate::proofs::Arguments::wrong_first, crate::proofs::Arguments::wrong_second, crate::proofs::Arguments::wrong_third))]
fn are_wrong(mem: &[u32], kinds: [u32; 3], q: Request) -> bool
    requires table { Table mem.now }
    requires kinds_value { kinds ≡ kind_sets q.operation }
    ensures { result ≡ mismatched (policy_of mem.now) (request_of q) }
{
    if is_wrong(mem, kinds[0], q.first) {
        return true;
    }
    if is_wrong(mem, kinds[1], q.second) {
        return true;
    }
    is_wrong(mem, kinds[2], q.third)
}

// Whether the process and the operation are in range.
#[tactic(auto, using(crate::proofs::Refused::call_process, crate::proofs::Refused::call_operation))]
fn is_in_range(q: Request) -> bool
    ensures { result ≡ (is_process_id q.process && is_operation q.operation) }
{
    if !table::is_process_id(q.process) {
        return false;
    }
    is_operation(q.operation)
}

// Whether the process, or an argument that is used, is not there.
#[tactic(auto, using(crate::proofs::Refused::absent_process, crate::proofs::Refused::absent_arguments_lem))]
fn names_absent(mem: &[u32], kinds: [u32; 3], q: Request) -> bool
    requires table { Table mem.now }
    requires kinds_value { kinds ≡ kind_sets q.operation }
    ensures { result ≡ absent (policy_of mem.now) (request_of q) }
{
    if table::user_of(mem, q.process) == 0 {
        return true;
    }
    are_absent(mem, kinds, q)
}

// The request's refusal, where it is refused: 2, then 4, then 5, each over all that the request names.
#[tactic(auto, using(crate::proofs::Refused::gives_2_first, crate::proofs::Refused::operation_told, crate::proofs::Refused::gives_2, crate::proofs::Refused::gives_4, crate::proofs::Refused::gives_5, crate::proofs::Refused::gives_none))]
pub fn refusal(mem: &[u32], q: Request) -> Result<(), Refusal>
    requires { Table mem.now }
    ensures { refusal_in result ≡ refusal_of mem.now q }
{
    if !is_in_range(q) {
        return Err(OUT_OF_RANGE);
    }
    let kinds = kinds_of(q.operation);
    if are_bad(kinds, q) {
        return Err(OUT_OF_RANGE);
    }
    if names_absent(mem, kinds, q) {
        return Err(Refusal::NotThere);
    }
    if are_wrong(mem, kinds, q) {
        return Err(Refusal::WrongKind);
    }
    Ok(())
}
