// The rows of a deny: for each alternative its first failing argument and right, and why: not held, or restricted through the user, the process or
// an attribute.
#![tactic(auto)]

ghost use Rattle.std.specs.Prelude.{◌≡◌, false, ◌<◌};
ghost use Rattle.table.specs.Layout.{prohibition_count};
ghost use Rattle.table.specs.View.{policy_of, prohibition_at};
ghost use Rattle.table.specs.Facts.{Table};
ghost use Rattle.model.specs.Contain.{contained};
ghost use Rattle.held.specs.Lacking.{lack_by, Rows};
ghost use Rattle.decide.specs.Asks.{AllRows, satisfies};
ghost use Rattle.denials.specs.Causes.{restricts_through, lowest_through, as_subject, cause_for, why_not, why_in};
ghost use Rattle.denials.specs.Failing.{failing_row, deny_numbers};

use held::{Holding, Lacking};
use request::Request;
use rule::{Asking, Climbed};

// Whether prohibition i has the sort and restricts.
#[tactic(auto, using(crate::proofs::Subjects::through_restricts, crate::proofs::Subjects::through_other))]
fn restricts_through(mem: &[u32], rows: &[u8], q: Asking, sort: u32, i: usize) -> bool
    requires table { Table mem.now }
    requires rows { Rows mem.now rows.now false q }
    requires right_bound { q.right < 32 }
    requires i_bound { i < prohibition_count mem.now }
    ensures { result ≡ restricts_through (policy_of mem.now) q sort (prohibition_at mem.now i) }
{
    table::sort_at(mem, i) == sort && rule::is_restricting(mem, &Climbed { rows }, q, i)
}

// The lowest subject of a sort through which the right is restricted.
fn lowest_subject(mem: &[u32], rows: &[u8], q: Asking, sort: u32) -> Option<u32>
    requires table { Table mem.now }
    requires rows { Rows mem.now rows.now false q }
    requires right_bound { q.right < 32 }
    ensures { result ≡ as_subject (lowest_through (policy_of mem.now) q sort) }
{
    let n = table::prohibition_count(mem);
    (0..n)
        .filter(|i| restricts_through(mem, rows, q, sort, *i))
        .map(|i| table::subject_at(mem, i))
        .reduce(|a, b| a.min(b))
}

// Why a right that is held is not permitted: the causes are tried from 2 up.
fn restriction(mem: &[u32], rows: &[u8], q: Asking) -> [u32; 2]
    requires table { Table mem.now }
    requires rows { Rows mem.now rows.now false q }
    requires right_bound { q.right < 32 }
    requires element_value { lack_by (contained (policy_of mem.now)) (policy_of mem.now) q.user q.right q.element ≡ 512 }
    ensures { result ≡ cause_for (policy_of mem.now) q }
{
    if let Some(user) = lowest_subject(mem, rows, q, 1) {
        return [2, user];
    }
    if let Some(process) = lowest_subject(mem, rows, q, 2) {
        return [3, process];
    }
    [4, lowest_subject(mem, rows, q, 3).unwrap_or(0)]
}

// Why the right is not permitted: the cause and its number, the causes tried from 1 up; 0 and 0 where it is permitted.
fn why(mem: &[u32], rows: &[u8], q: Asking) -> [u32; 2]
    requires table { Table mem.now }
    requires rows { Rows mem.now rows.now false q }
    requires right_bound { q.right < 32 }
    ensures { result ≡ why_not (policy_of mem.now) q }
{
    let climbed = Climbed { rows };
    match climbed.lack(mem, q) {
        Holding::NoClass => [1, 0],
        Holding::LackedIn(c) => [1, c],
        Holding::Held => {
            if rule::is_restricted(mem, &climbed, q) {
                restriction(mem, rows, q)
            } else {
                [0, 0]
            }
        }
    }
}

// The same of right r, if it is in the set; 0 and 0 where it is not in it.
fn why_in(mem: &[u32], rows: &[u8], q: Asking, rights: u32, r: u32) -> [u32; 2]
    requires table { Table mem.now }
    requires rows { Rows mem.now rows.now false q }
    requires r_bound { r < 32 }
    ensures { result ≡ why_in (policy_of mem.now) q rights r }
{
    if !rule::has_right(rights, r) {
        return [0, 0];
    }
    why(mem, rows, decide::with_right(q, r))
}

// The row that says why the first right of a set that is not permitted is not, over the argument at position k; zeros where each is permitted.
// The rights are asked from 0 up until none is left.
#[tactic(auto, using(decide::proofs::Left::left_whole, crate::proofs::Rights::permitted_none, decide::proofs::Left::left_near, decide::proofs::Left::left_next, crate::proofs::Rights::permitted_more, crate::proofs::Rights::none_fails))]
fn failing_row(
    mem: &[u32],
    rows: &[u8],
    q: Asking,
    rights: u32,
    alternative: u32,
    k: u32,
) -> [u32; 8]
    requires table { Table mem.now }
    requires rows { Rows mem.now rows.now false q }
    ensures { result ≡ failing_row (policy_of mem.now) q rights alternative k }
{
    let mut left = rights;
    let mut r = 0;
    // A while: the set is halved from right to right, until none is left.
    while 0 < left {
        let why = why_in(mem, rows, q, rights, r);
        if 0 < why[0] {
            return [alternative, k, r, why[0], why[1], 0, 0, 0];
        }
        left = left / 2;
        r += 1;
    }
    [0, 0, 0, 0, 0, 0, 0, 0]
}

// The row of an alternative that is not satisfied: its first failing argument and right, a cause and a number. It is the first row that has a cause.
pub fn deny_row(
    mem: &[u32],
    rows: &[u8],
    q: Request,
    user: u32,
    alternative: u32,
    sets: [u32; 3],
) -> [u32; 8]
    requires table { Table mem.now }
    requires all_rows { AllRows mem.now rows.now false q user }
    requires sets_value { satisfies (contained (policy_of mem.now)) (policy_of mem.now) q user sets ≡ false }
    ensures { result ≡ deny_numbers (policy_of mem.now) q user alternative sets }
{
    let first = decide::asking(q, user, &Climbed { rows }, q.first, 1);
    let r = failing_row(mem, rows, first, sets[0], alternative, 1);
    if 0 < r[3] {
        return r;
    }
    let second = decide::asking(q, user, &Climbed { rows }, q.second, 2);
    let s = failing_row(mem, rows, second, sets[1], alternative, 2);
    if 0 < s[3] {
        return s;
    }
    let third = decide::asking(q, user, &Climbed { rows }, q.third, 3);
    failing_row(mem, rows, third, sets[2], alternative, 3)
}
