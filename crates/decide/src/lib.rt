// The decision: granted if one alternative has each of its rights held over its argument and not restricted. The plain decision climbs, once from
// the user and once from each argument; the indexed one takes containment from the bits of an index alone.
#![tactic(auto)]

ghost use Rattle.std.specs.Prelude.{◌≡◌, not, ◌||◌, ◌<◌, length};
ghost use Rattle.model.specs.Policy.{has_right, user_of};
ghost use Rattle.model.specs.Request.{verdict};
ghost use Rattle.model.specs.Contain.{contained};
ghost use Rattle.model.specs.Index.{bit_at};
ghost use Rattle.model.specs.Calls.{decide as deciding, decide_indexed};
ghost use Rattle.table.specs.View.{policy_of, memory};
ghost use Rattle.table.specs.Facts.{Table};
ghost use Rattle.request.specs.Sets.{capabilities};
ghost use Rattle.request.specs.Asks.{request_of, Accepted};
ghost use Rattle.held.specs.Lacking.{sight, Rows};
ghost use Rattle.decide.specs.Answers.{verdict_of, told};
ghost use Rattle.decide.specs.Asks.{asking_of, with_right, AllRows, Climbs, permits_over, permits_all, satisfies};

use answer::Refusal;
use held::Lacking;
use request::Request;
pub use rule::Climbed;
use rule::{Asking, Indexed, Sight};

// What a request that is not refused is answered: granted, by the alternative with this number, or denied.
#[derive(Clone, Copy)]
pub enum Decision {
    Grant(u32),
    Deny,
}

// What is asked over element e, the argument at position k.
pub fn asking<S: Sight>(q: Request, user: u32, rows: &S, e: u32, k: u32) -> Asking
    ensures { result ≡ asking_of q user (S.indexed rows.now) e k 0 }
{
    Asking {
        process: q.process,
        user,
        element: e,
        right: 0,
        by: rows.row_of_user(user),
        over: rows.row_of_argument(e, k),
    }
}

// The same with right r.
pub fn with_right(q: Asking, r: u32) -> Asking
    ensures { result ≡ with_right q r }
{
    Asking { right: r, ..q }
}

// Whether right r, if it is in the set, is held over the element and not restricted.
#[tactic(auto, using(crate::proofs::Allowed::not_asked, crate::proofs::Allowed::right_with_right, crate::proofs::Allowed::rows_with_right, crate::proofs::Allowed::is_asked))]
fn is_allowed<S: Lacking>(mem: &[u32], rows: &S, q: Asking, rights: u32, r: u32) -> bool
    requires table { Table mem.now }
    requires rows { Rows mem.now (S.rows rows.now) (S.indexed rows.now) q }
    requires r_bound { r < 32 }
    ensures { result ≡ (not (has_right rights r) || permits_over (sight mem.now (S.rows rows.now) (S.indexed rows.now)) (policy_of mem.now) q r) }
{
    if !rule::has_right(rights, r) {
        return true;
    }
    held::is_permitted(mem, rows, with_right(q, r))
}

// Whether each right of the set is held over the element and not restricted. The rights are asked from 0 up until none is left: most sets have one.
#[tactic(auto, using(crate::proofs::Allowed::allowed_none, crate::proofs::Left::left_whole, crate::proofs::Left::left_near, crate::proofs::Allowed::allowed_all))]
fn are_allowed<S: Lacking>(mem: &[u32], rows: &S, q: Asking, rights: u32) -> bool
    requires table { Table mem.now }
    requires rows { Rows mem.now (S.rows rows.now) (S.indexed rows.now) q }
    ensures { result ≡ permits_all (sight mem.now (S.rows rows.now) (S.indexed rows.now)) (policy_of mem.now) q rights }
{
    let mut left = rights;
    let mut r = 0;
    // A while: the set is halved from right to right, until none is left.
    while 0 < left {
        if !is_allowed(mem, rows, q, rights, r) {
            return false;
        }
        left = left / 2;
        r += 1;
    }
    true
}

// Whether an alternative is satisfied: for each argument each right in that argument's set.
#[tactic(auto, using(crate::proofs::Sights::rows_first, crate::proofs::Sights::rows_second, crate::proofs::Sights::rows_third))]
fn is_satisfied<S: Lacking>(mem: &[u32], rows: &S, q: Request, user: u32, sets: [u32; 3]) -> bool
    requires table { Table mem.now }
    requires all_rows { AllRows mem.now (S.rows rows.now) (S.indexed rows.now) q user }
    ensures { result ≡ satisfies (sight mem.now (S.rows rows.now) (S.indexed rows.now)) (policy_of mem.now) q user sets }
{
    if !are_allowed(mem, rows, asking(q, user, rows, q.first, 1), sets[0]) {
        return false;
    }
    if !are_allowed(mem, rows, asking(q, user, rows, q.second, 2), sets[1]) {
        return false;
    }
    are_allowed(mem, rows, asking(q, user, rows, q.third, 3), sets[2])
}

// The decision on a request that is not refused: by the lowest alternative that is satisfied. An alternative that asks nothing is none.
pub fn choose<S: Lacking>(
    mem: &[u32],
    rows: &S,
    q: Request,
    user: u32,
    alternatives: [[u32; 3]; 2],
) -> Decision
    requires table { Table mem.now }
    requires accepted { Accepted mem.now q }
    requires all_rows { AllRows mem.now (S.rows rows.now) (S.indexed rows.now) q user }
    requires user_value { user ≡ user_of (policy_of mem.now) q.process }
    requires alternatives_value { alternatives ≡ capabilities q.operation }
    ensures { verdict_of result ≡ verdict (sight mem.now (S.rows rows.now) (S.indexed rows.now)) (policy_of mem.now) (request_of q) }
{
    if is_satisfied(mem, rows, q, user, alternatives[0]) {
        return Decision::Grant(1);
    }
    let second = alternatives[1];
    if second[0] == 0 {
        return Decision::Deny;
    }
    if is_satisfied(mem, rows, q, user, second) {
        return Decision::Grant(2);
    }
    Decision::Deny
}

// Climbs from the user and from each argument: four rows of bits.
#[tactic(auto, using(climb::proofs::Queue::blank_zeros))]
pub fn climb_rows(mem: &[u32], q: Request, user: u32) -> [u8; 256]
    requires table { Table mem.now }
    requires accepted { Accepted mem.now q }
    requires user_bound { user < 512 }
    ensures { Climbs mem.now q user result }
{
    let mut rows = [0u8; 256];
    let mut seen = [0u8; 512];
    let mut queue = [0u32; 512];
    climb::mark_row(mem, user, &mut rows, 0, &mut seen, &mut queue);
    climb::mark_row(mem, q.first, &mut rows, 1, &mut seen, &mut queue);
    climb::mark_row(mem, q.second, &mut rows, 2, &mut seen, &mut queue);
    climb::mark_row(mem, q.third, &mut rows, 3, &mut seen, &mut queue);
    rows
}

// The decision on a request that is not refused, by climbing.
#[tactic(auto, using(crate::proofs::Sights::user_known, crate::proofs::Answered::told_by_climb))]
fn by_climb(mem: &[u32], q: Request) -> Decision
    requires table { Table mem.now }
    requires accepted { Accepted mem.now q }
    ensures { verdict_of result ≡ verdict (contained (policy_of mem.now)) (policy_of mem.now) (request_of q) }
{
    let user = table::user_of(mem, q.process);
    let rows = climb_rows(mem, q, user);
    choose(
        mem,
        &Climbed { rows: &rows },
        q,
        user,
        request::required(q.operation),
    )
}

// The decision on a request that is not refused, by the bits of an index.
#[tactic(auto, using(crate::proofs::Answered::told_by_index))]
fn by_index(mem: &[u32], idx: &[u8], q: Request) -> Decision
    requires table { Table mem.now }
    requires accepted { Accepted mem.now q }
    requires idx_len { length idx.now ≡ 32768 }
    ensures { verdict_of result ≡ verdict (bit_at idx.now) (policy_of mem.now) (request_of q) }
{
    let user = table::user_of(mem, q.process);
    choose(
        mem,
        &Indexed { rows: idx },
        q,
        user,
        request::required(q.operation),
    )
}

// The plain decision: containment by chains of assignments.
#[tactic(auto, using(crate::proofs::Answered::told_no_table, table::proofs::Asked::tested, crate::proofs::Answered::told_verdict, std::proofs::lemmas::Result::err_from_is_err_and, crate::proofs::Answered::told_refused))]
pub fn decide(mem: &[u32], q: Request) -> Result<Decision, Refusal>
    ensures { told result ≡ deciding (memory mem.now) (request_of q) }
{
    if !table::holds(mem) {
        return Err(Refusal::NoTable);
    }
    request::refusal(mem, q)?;
    Ok(by_climb(mem, q))
}

// The indexed decision: containment by the bits of the lent index alone.
#[tactic(auto, using(crate::proofs::Answered::indexed_no_table, crate::proofs::Answered::indexed_bad_index, table::proofs::Asked::tested, crate::proofs::Answered::indexed_verdict, std::proofs::lemmas::Result::err_from_is_err_and, crate::proofs::Answered::indexed_refused))]
pub fn decide_indexed(mem: &[u32], idx: &[u8], q: Request) -> Result<Decision, Refusal>
    ensures { told result ≡ decide_indexed (memory mem.now) idx.now (request_of q) }
{
    if !table::holds(mem) {
        return Err(Refusal::NoTable);
    }
    if idx.len() != 32768 {
        return Err(Refusal::OutOfRange);
    }
    request::refusal(mem, q)?;
    Ok(by_index(mem, idx, q))
}
