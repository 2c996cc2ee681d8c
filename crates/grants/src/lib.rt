// The rows of a grant: one for each argument, right and containing class, all rising, with the lowest authorizing association.
#![tactic(auto)]

ghost use Rattle.std.specs.Prelude.{◌≡◌, false, ◌+◌, ◌≤◌, ◌<◌, length};
ghost use Rattle.model.specs.Contain.{contained};
ghost use Rattle.model.specs.Rule.{classes_of};
ghost use Rattle.table.specs.Layout.{association_count};
ghost use Rattle.table.specs.View.{policy_of};
ghost use Rattle.table.specs.Facts.{Table, AtMost};
ghost use Rattle.request.specs.Sets.{rights_in};
ghost use Rattle.held.specs.Lacking.{Rows};
ghost use Rattle.decide.specs.Asks.{asking_of, AllRows};
ghost use Rattle.grants.specs.Numbers.{named_numbers, right_numbers, if_rows, set_numbers, grant_numbers};
ghost use Rattle.grants.specs.Put.{Put};

use request::Request;
use rule::{Asking, Climbed};

// How many classes the element is within.
#[tactic(auto, using(crate::proofs::Classes::count_start, crate::proofs::Classes::count_more, crate::proofs::Classes::count_end))]
fn count_classes(mem: &[u32], rows: &[u8], q: Asking) -> usize
    requires table { Table mem.now }
    requires rows { Rows mem.now rows.now false q }
    ensures { AtMost (length (classes_of (contained (policy_of mem.now) q.element) (policy_of mem.now))) 511 result }
{
    let mut n = 0;
    let mut from = 1;
    while let Some(c) = held::next_class(mem, rows, q.over, from) {
        n += 1;
        from = c + 1;
    }
    n
}

// How many rights a set has.
fn count_rights(rights: u32) -> usize
    ensures { AtMost (length (rights_in rights)) 32 result }
{
    rights.count_ones() as usize
}

// How many rows the rights of a set have over one argument.
fn count_set(mem: &[u32], rows: &[u8], q: Asking, rights: u32) -> usize
    requires table { Table mem.now }
    requires rows { Rows mem.now rows.now false q }
    ensures { AtMost (length (set_numbers (policy_of mem.now) q rights 0 0)) 16352 result }
{
    if rights == 0 {
        return 0;
    }
    count_rights(rights) * count_classes(mem, rows, q)
}

// How many rows an alternative has.
pub fn count_rows(mem: &[u32], rows: &[u8], q: Request, user: u32, sets: [u32; 3]) -> usize
    requires table { Table mem.now }
    requires all_rows { AllRows mem.now rows.now false q user }
    ensures { AtMost (length (grant_numbers (policy_of mem.now) q user 0 sets)) 49056 result }
{
    let first = count_set(
        mem,
        rows,
        decide::asking(q, user, &Climbed { rows }, q.first, 1),
        sets[0],
    );
    let second = count_set(
        mem,
        rows,
        decide::asking(q, user, &Climbed { rows }, q.second, 2),
        sets[1],
    );
    let third = count_set(
        mem,
        rows,
        decide::asking(q, user, &Climbed { rows }, q.third, 3),
        sets[2],
    );
    first + second + third
}

// The row of a right over the argument at position k in class c, whose lowest association is named.
#[tactic(auto, using(crate::proofs::Written::named_none, crate::proofs::Written::named_some))]
fn class_row(mem: &[u32], name: u32, q: Asking, alternative: u32, k: u32, c: u32) -> [u32; 8]
    requires table { Table mem.now }
    requires name_bound { name ≤ association_count mem.now }
    ensures { result ≡ named_numbers mem.now name q alternative k c }
{
    if name == 0 {
        return [alternative, k, q.right, 0, c, 0, 0, 0];
    }
    let i = (name - 1) as usize;
    [
        alternative,
        k,
        q.right,
        0,
        c,
        table::attribute_at(mem, i),
        table::target_at(mem, i),
        table::rights_at(mem, i),
    ]
}

// Writes the rows of a right. Returns the next place.
#[tactic(auto, using(crate::proofs::Classes::name_few, crate::proofs::Classes::write_room))]
fn put_right(
    mem: &[u32],
    rows: &[u8],
    q: Asking,
    alternative: u32,
    k: u32,
    out: &mut [[u32; 8]],
    at: usize,
) -> usize
    requires table { Table mem.now }
    requires rows { Rows mem.now rows.now false q }
    requires right_bound { q.right < 32 }
    requires k_in_bounds { at + length (right_numbers (policy_of mem.now) q alternative k) ≤ length out.old }
    ensures { Put out.old at (right_numbers (policy_of mem.now) q alternative k) out.new result }
{
    let names = lowest::lowest(mem, rows, q);
    let mut t = at;
    let mut from = 1;
    while let Some(c) = held::next_class(mem, rows, q.over, from) {
        out[t] = class_row(mem, names[c as usize], q, alternative, k, c);
        t += 1;
        from = c + 1;
    }
    t
}

// Writes the rows of right r, if it is in the set. Returns the next place.
#[tactic(auto, using(crate::proofs::Written::rows_right, crate::proofs::Written::right_small))]
fn put_if(
    mem: &[u32],
    rows: &[u8],
    q: Asking,
    rights: u32,
    r: u32,
    alternative: u32,
    k: u32,
    out: &mut [[u32; 8]],
    at: usize,
) -> usize
    requires table { Table mem.now }
    requires rows { Rows mem.now rows.now false q }
    requires r_bound { r < 32 }
    requires r_in_bounds { at + length (if_rows (policy_of mem.now) q rights alternative k r) ≤ length out.old }
    ensures { Put out.old at (if_rows (policy_of mem.now) q rights alternative k r) out.new result }
{
    if !rule::has_right(rights, r) {
        return at;
    }
    put_right(mem, rows, decide::with_right(q, r), alternative, k, out, at)
}

// Writes the rows of the rights of a set. Returns the next place.
#[tactic(auto, using(decide::proofs::Left::left_near))]
fn put_set(
    mem: &[u32],
    rows: &[u8],
    q: Asking,
    rights: u32,
    alternative: u32,
    k: u32,
    out: &mut [[u32; 8]],
    at: usize,
) -> usize
    requires table { Table mem.now }
    requires rows { Rows mem.now rows.now false q }
    requires k_in_bounds { at + length (set_numbers (policy_of mem.now) q rights alternative k) ≤ length out.old }
    ensures { Put out.old at (set_numbers (policy_of mem.now) q rights alternative k) out.new result }
{
    let mut t = at;
    let mut left = rights;
    let mut r = 0;
    // A while: the set is halved from right to right, until none is left.
    while 0 < left {
        t = put_if(mem, rows, q, rights, r, alternative, k, out, t);
        left = left / 2;
        r += 1;
    }
    t
}

// Writes the rows of the rights of a set over element e, the argument at position k. Returns the next place.
fn put_argument(
    mem: &[u32],
    rows: &[u8],
    q: Request,
    user: u32,
    e: u32,
    rights: u32,
    alternative: u32,
    k: u32,
    out: &mut [[u32; 8]],
    at: usize,
) -> usize
    requires table { Table mem.now }
    requires rows { Rows mem.now rows.now false (asking_of q user false e k 0) }
    requires k_in_bounds { at + length (set_numbers (policy_of mem.now) (asking_of q user false e k 0) rights alternative k) ≤ length out.old }
    ensures { Put out.old at (set_numbers (policy_of mem.now) (asking_of q user false e k 0) rights alternative k) out.new result }
{
    put_set(
        mem,
        rows,
        decide::asking(q, user, &Climbed { rows }, e, k),
        rights,
        alternative,
        k,
        out,
        at,
    )
}

// Writes the rows of an alternative, from the first place on. Returns how many there are.
#[tactic(auto, using(crate::proofs::Written::grant_room, crate::proofs::Written::grant_room_second, crate::proofs::Written::grant_room_third))]
pub fn put_rows(
    mem: &[u32],
    rows: &[u8],
    q: Request,
    user: u32,
    alternative: u32,
    sets: [u32; 3],
    out: &mut [[u32; 8]],
) -> usize
    requires table { Table mem.now }
    requires all_rows { AllRows mem.now rows.now false q user }
    requires sets_in_bounds { length (grant_numbers (policy_of mem.now) q user alternative sets) ≤ length out.old }
    ensures { Put out.old 0 (grant_numbers (policy_of mem.now) q user alternative sets) out.new result }
{
    let first = put_argument(mem, rows, q, user, q.first, sets[0], alternative, 1, out, 0);
    let second = put_argument(
        mem,
        rows,
        q,
        user,
        q.second,
        sets[1],
        alternative,
        2,
        out,
        first,
    );
    put_argument(
        mem,
        rows,
        q,
        user,
        q.third,
        sets[2],
        alternative,
        3,
        out,
        second,
    )
}
