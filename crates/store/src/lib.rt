// The working memory with one record more or less.
#![tactic(auto)]

ghost use Rattle.std.specs.Prelude.{◌≡◌, false, ◌≤◌, ◌<◌};
ghost use Rattle.model.specs.Policy.{is_assigned, has_association, has_prohibition};
ghost use Rattle.table.specs.View.{policy_of};
ghost use Rattle.table.specs.Facts.{Table};
ghost use Rattle.table.specs.Answers.{left};
ghost use Rattle.store.specs.Given.{association_of, prohibition_of};
ghost use Rattle.store.specs.ProhibitionWords.{Storable, prohibition_record, without_prohibition, added_prohibition};
ghost use Rattle.store.specs.Words.{with_kind, with_user, added_assignment, without_assignment, without_assignments_of, added_association, without_association};

use answer::Refusal;
use table::{
    ASSIGNMENT_COUNTER, ASSIGNMENTS, ASSOCIATION_COUNTER, ASSOCIATIONS, KINDS, MOST_ASSIGNMENTS,
    MOST_ASSOCIATIONS, MOST_PROHIBITIONS, PROHIBITION_COUNTER, PROHIBITIONS, USERS,
};

// An association, by its exact triple.
#[derive(Clone, Copy)]
pub struct Association {
    pub attribute: u32,
    pub target: u32,
    pub rights: u32,
}

// A prohibition, by its exact fields. Its lists are lent and may be of any length.
#[derive(Clone, Copy)]
pub struct Prohibition<'a> {
    pub sort: u32,
    pub subject: u32,
    pub form: u32,
    pub rights: u32,
    pub inclusion: &'a [u32],
    pub exclusion: &'a [u32],
}

// Sets the kind of element x; 0 takes the element out.
#[tactic(auto, using(crate::proofs::Stored::kind_set))]
pub fn set_kind(mem: &mut [u32], x: u32, kind: u32)
    requires table { Table mem.old }
    requires x_bound { x < 512 }
    requires kind_bound { kind ≤ 5 }
    ensures { mem.new ≡ with_kind x kind mem.old }
{
    mem[KINDS + x as usize] = kind;
}

// Sets the user of process i; 0 takes the process out.
#[tactic(auto, using(crate::proofs::Stored::user_set))]
pub fn set_user(mem: &mut [u32], i: u32, user: u32)
    requires table { Table mem.old }
    requires i_bound { i < 256 }
    requires user_bound { user < 512 }
    ensures { mem.new ≡ with_user i user mem.old }
{
    mem[USERS + i as usize] = user;
}

// Puts an assignment that is not there in its place, unless there are 2,000.
#[tactic(auto, using(crate::proofs::Stored::assignment_full, crate::proofs::Stored::assignment_added))]
pub fn add_assignment(mem: &mut [u32], child: u32, container: u32) -> Result<(), Refusal>
    requires table { Table mem.old }
    requires child_bound { child < 512 }
    requires container_bound { container < 512 }
    requires container_value { is_assigned (policy_of mem.old) child container ≡ false }
    ensures { left result mem.new ≡ added_assignment child container mem.old }
{
    if MOST_ASSIGNMENTS <= mem[ASSIGNMENT_COUNTER] {
        return Err(Refusal::NoRoom);
    }
    group::add(
        mem,
        ASSIGNMENTS,
        ASSIGNMENT_COUNTER,
        &[child * 512 + container],
    );
    Ok(())
}

// Takes an assignment out, where it is there.
#[tactic(auto, using(crate::proofs::Stored::assignment_taken))]
pub fn take_assignment(mem: &mut [u32], child: u32, container: u32)
    requires table { Table mem.old }
    requires child_bound { child < 512 }
    requires container_bound { container < 512 }
    ensures { mem.new ≡ without_assignment child container mem.old }
{
    group::take_out(
        mem,
        ASSIGNMENTS,
        1,
        ASSIGNMENT_COUNTER,
        &[child * 512 + container],
    );
}

// Takes all assignments of x out.
#[tactic(auto, using(crate::proofs::Stored::first_order))]
pub fn take_assignments_of(mem: &mut [u32], x: u32)
    requires table { Table mem.old }
    requires x_bound { x < 512 }
    ensures { mem.new ≡ without_assignments_of x mem.old }
{
    let from = table::first_of(mem, x);
    let to = table::first_of(mem, x + 1);
    group::remove(mem, ASSIGNMENTS, 1, ASSIGNMENT_COUNTER, from, to - from);
}

// Puts an association in its place, unless there are 1,000.
#[tactic(auto, using(crate::proofs::Stored::association_full, crate::proofs::Stored::association_added))]
pub fn add_association(mem: &mut [u32], a: Association) -> Result<(), Refusal>
    requires table { Table mem.old }
    requires attribute_bound { a.attribute < 512 }
    requires target_bound { a.target < 512 }
    ensures { left result mem.new ≡ added_association (association_of a) mem.old }
{
    if MOST_ASSOCIATIONS <= mem[ASSOCIATION_COUNTER] {
        return Err(Refusal::NoRoom);
    }
    group::add(
        mem,
        ASSOCIATIONS,
        ASSOCIATION_COUNTER,
        &[a.attribute * 512 + a.target, a.rights],
    );
    Ok(())
}

// Takes an association out, where it is there.
#[tactic(auto, using(crate::proofs::Stored::association_taken))]
pub fn take_association(mem: &mut [u32], a: Association)
    requires table { Table mem.old }
    requires attribute_bound { a.attribute < 512 }
    requires target_bound { a.target < 512 }
    ensures { mem.new ≡ without_association (association_of a) mem.old }
{
    group::take_out(
        mem,
        ASSOCIATIONS,
        2,
        ASSOCIATION_COUNTER,
        &[a.attribute * 512 + a.target, a.rights],
    );
}

// Whether the association is there, by its exact triple.
#[tactic(auto, using(crate::proofs::Associated::association_found))]
pub fn has_association(mem: &[u32], a: Association) -> bool
    requires table { Table mem.now }
    requires attribute_bound { a.attribute < 512 }
    requires target_bound { a.target < 512 }
    ensures { result ≡ has_association (policy_of mem.now) (association_of a) }
{
    let n = mem[ASSOCIATION_COUNTER] as usize;
    group::find(
        mem,
        ASSOCIATIONS,
        2,
        n,
        &[a.attribute * 512 + a.target, a.rights],
    ) < n
}

// The record of a prohibition.
fn prohibition_record(b: Prohibition) -> [u32; 11]
    requires { Storable (prohibition_of b) }
    ensures { result ≡ prohibition_record (prohibition_of b.entry) }
{
    let n = b.inclusion.len();
    let m = b.exclusion.len();
    let mut rec = [0; 11];
    rec[0] = b.sort * 1024 + b.subject * 2 + b.form;
    rec[1] = b.rights;
    rec[2] = (n * 8 + m) as u32;
    rec[3..3 + n].copy_from_slice(b.inclusion);
    rec[3 + n..3 + n + m].copy_from_slice(b.exclusion);
    rec
}

// Whether the prohibition is there, by its exact fields.
pub fn has_prohibition(mem: &[u32], b: Prohibition) -> bool
    requires table { Table mem.now }
    requires storable { Storable (prohibition_of b) }
    ensures { result ≡ has_prohibition (policy_of mem.now) (prohibition_of b.entry) }
{
    let rec = prohibition_record(b);
    let used = 3 + b.inclusion.len() + b.exclusion.len();
    let n = mem[PROHIBITION_COUNTER] as usize;
    group::find(mem, PROHIBITIONS, 11, n, &rec[..used]) < n
}

// Puts the prohibition in its place, unless there are 200.
pub fn add_prohibition(mem: &mut [u32], b: Prohibition) -> Result<(), Refusal>
    requires table { Table mem.old }
    requires storable { Storable (prohibition_of b) }
    ensures { left result mem.new ≡ added_prohibition (prohibition_of b.entry) mem.old }
{
    if MOST_PROHIBITIONS <= mem[PROHIBITION_COUNTER] {
        return Err(Refusal::NoRoom);
    }
    let rec = prohibition_record(b);
    group::add(mem, PROHIBITIONS, PROHIBITION_COUNTER, &rec);
    Ok(())
}

// Takes out the first prohibition with just those fields, where one is.
pub fn take_prohibition(mem: &mut [u32], b: Prohibition)
    requires table { Table mem.old }
    requires storable { Storable (prohibition_of b) }
    ensures { mem.new ≡ without_prohibition (prohibition_of b.entry) mem.old }
{
    let rec = prohibition_record(b);
    let used = 3 + b.inclusion.len() + b.exclusion.len();
    group::take_out(mem, PROHIBITIONS, 11, PROHIBITION_COUNTER, &rec[..used]);
}
