// The refusal of each command, where it is refused: the lines of 01, lowest first. Of the index only the length is asked.
#![tactic(auto)]

ghost use Rattle.std.specs.Prelude.{◌≡◌, not, ◌||◌, ◌≤◌, ◌<◌, eqb};
ghost use Rattle.model.specs.Policy.{is_element_id, is_process_id, is_kind, allowed, kind_of, is_there, is_process, is_assigned, has_association, has_prohibition};
ghost use Rattle.model.specs.Contain.{contained};
ghost use Rattle.model.specs.Sound.{association_pairs};
ghost use Rattle.model.specs.Command.{create_class, create_element, assign, deassign, delete_element, create_association, delete_association, create_prohibition, delete_prohibition, start_process, end_process, absent_in, full_of_assignments, full_of_associations, full_of_prohibitions};
ghost use Rattle.answer.specs.Answers.{refusal_in};
ghost use Rattle.table.specs.View.{policy_of};
ghost use Rattle.table.specs.Facts.{Table};
ghost use Rattle.store.specs.Given.{association_of, prohibition_of};
ghost use Rattle.refusals.specs.Numbers.{refusal_of, later_refusal};

use answer::Refusal;
use kinds::{CLASS, USER, USER_ATTRIBUTE};
use store::{Association, Prohibition};
use table::{MOST_ASSIGNMENTS, MOST_ASSOCIATIONS, MOST_PROHIBITIONS};

// The published length of the index.
const INDEX_BYTES: usize = 32768;

// Whether the index has another number of bytes than the published one, or the numbers are bad.
#[tactic(auto, using(crate::proofs::Ranges::other_length, crate::proofs::Ranges::published_length))]
fn is_out_of_range(bytes: usize, bad: bool) -> bool
    ensures { result ≡ (not (eqb bytes 32768) || bad) }
{
    if bytes != INDEX_BYTES {
        return true;
    }
    bad
}

// Whether one of two ids of elements is out of range.
#[tactic(auto, using(crate::proofs::Conditions::opposite_both))]
fn are_bad_ids(x: u32, y: u32) -> bool
    ensures { result ≡ (not (is_element_id x) || not (is_element_id y)) }
{
    !table::are_element_ids(x, y)
}

// Whether a number of create element is out of range.
#[tactic(auto, using(crate::proofs::Conditions::conditions))]
fn is_bad_element(id: u32, kind: u32, container: u32) -> bool
    ensures { result ≡ (not (is_element_id id) || not (is_kind kind) || not (is_element_id container)) }
{
    if !table::is_element_id(id) {
        return true;
    }
    if !kinds::is_kind(kind) {
        return true;
    }
    !table::is_element_id(container)
}

// Whether the element, or its assignment to the container, is there already.
#[tactic(auto, using(crate::proofs::Conditions::conditions))]
fn is_taken(mem: &[u32], id: u32, container: u32) -> bool
    requires table { Table mem.now }
    requires id_bound { id < 512 }
    requires container_bound { container < 512 }
    ensures { result ≡ (is_there (policy_of mem.now) id || is_assigned (policy_of mem.now) id container) }
{
    if table::is_there(mem, id) {
        return true;
    }
    table::is_assigned(mem, id, container)
}

// Whether an element of this kind can't be created in the container: a class, or a pairing that is not allowed.
#[tactic(auto, using(crate::proofs::Named::class_unplaceable, crate::proofs::Named::pairing_tells))]
fn is_unplaceable(mem: &[u32], kind: u32, container: u32) -> bool
    requires { Table mem.now }
    ensures { result ≡ (eqb kind 5 || not (allowed kind (kind_of (policy_of mem.now) container))) }
{
    if kind == CLASS {
        return true;
    }
    !kinds::may_be_assigned(kind, table::kind_of(mem, container))
}

// Whether the kinds of two elements allow that the one is assigned to the other.
#[tactic(auto, using(crate::proofs::Named::pairing_told))]
fn may_be_assigned(mem: &[u32], child: u32, container: u32) -> bool
    requires { Table mem.now }
    ensures { result ≡ allowed (kind_of (policy_of mem.now) child) (kind_of (policy_of mem.now) container) }
{
    kinds::may_be_assigned(table::kind_of(mem, child), table::kind_of(mem, container))
}

// Whether the assignment would close a cycle: the container is the child, or within it.
#[tactic(auto, using(crate::proofs::Cycles::mark_closes))]
fn would_close(mem: &[u32], child: u32, container: u32) -> bool
    requires table { Table mem.now }
    requires child_bound { child < 512 }
    requires container_bound { container < 512 }
    ensures { result ≡ (eqb child container || contained (policy_of mem.now) container child) }
{
    let marks = climb::marks(mem, container);
    marks[child as usize] == 1
}

// Whether an element of the assignment, or the assignment, is not there.
#[tactic(auto, using(crate::proofs::Conditions::conditions))]
fn lacks_assignment(mem: &[u32], child: u32, container: u32) -> bool
    requires table { Table mem.now }
    requires child_bound { child < 512 }
    requires container_bound { container < 512 }
    ensures { result ≡ (not (is_there (policy_of mem.now) child) || not (is_there (policy_of mem.now) container) || not (is_assigned (policy_of mem.now) child container)) }
{
    if !table::are_there(mem, child, container) {
        return true;
    }
    !table::is_assigned(mem, child, container)
}

// Whether an element of the association, or the association, is not there.
#[tactic(auto, using(crate::proofs::Conditions::conditions))]
fn lacks_association(mem: &[u32], a: Association) -> bool
    requires table { Table mem.now }
    requires attribute_bound { a.attribute < 512 }
    requires target_bound { a.target < 512 }
    ensures { result ≡ (not (is_there (policy_of mem.now) a.attribute) || not (is_there (policy_of mem.now) a.target) || not (has_association (policy_of mem.now) (association_of a))) }
{
    if !table::are_there(mem, a.attribute, a.target) {
        return true;
    }
    !store::has_association(mem, a)
}

// Whether element x is of kind k.
#[tactic(auto, using(crate::proofs::Named::kind_told))]
fn is_of_kind(mem: &[u32], x: u32, k: u32) -> bool
    requires { Table mem.now }
    ensures { result ≡ eqb (kind_of (policy_of mem.now) x) k }
{
    table::kind_of(mem, x) == k
}

// Whether process i is there.
#[tactic(auto, using(crate::proofs::Named::process_told))]
fn is_process(mem: &[u32], i: u32) -> bool
    requires { Table mem.now }
    ensures { result ≡ is_process (policy_of mem.now) i }
{
    table::user_of(mem, i) != 0
}

// Whether a set of rights is empty.
fn is_empty(rights: u32) -> bool
    ensures { result ≡ eqb rights 0 }
{
    rights == 0
}

// Whether the kinds are those of an association's ends: a user attribute, and an attribute.
#[tactic(auto, using(crate::proofs::Named::other_ends, crate::proofs::Named::target_tells))]
fn may_be_associated(mem: &[u32], attribute: u32, target: u32) -> bool
    requires { Table mem.now }
    ensures { result ≡ association_pairs (policy_of mem.now) (record { attribute = attribute; target = target; rights = 0 }) }
{
    if !is_of_kind(mem, attribute, USER_ATTRIBUTE) {
        return false;
    }
    kinds::is_attribute(table::kind_of(mem, target))
}

// Whether what the prohibition names, or the prohibition, is not there.
fn lacks_prohibition(mem: &[u32], b: Prohibition) -> bool
    requires table { Table mem.now }
    requires sort_bound { b.sort ≤ 3 }
    requires subject_bound { b.subject < 512 }
    requires form_bound { b.form ≤ 1 }
    ensures { result ≡ (absent_in (policy_of mem.now) (prohibition_of b.entry) || not (has_prohibition (policy_of mem.now) (prohibition_of b.entry))) }
{
    if prohibition::names_absent(mem, b) {
        return true;
    }
    !prohibition::is_there(mem, b)
}

// Whether there are as many assignments as there can be.
#[tactic(auto, using(crate::proofs::Limits::assignments_full))]
fn is_full_of_assignments(mem: &[u32]) -> bool
    requires { Table mem.now }
    ensures { result ≡ full_of_assignments (policy_of mem.now) }
{
    MOST_ASSIGNMENTS <= mem[table::ASSIGNMENT_COUNTER]
}

// The same of associations.
#[tactic(auto, using(crate::proofs::Limits::associations_full))]
fn is_full_of_associations(mem: &[u32]) -> bool
    requires { Table mem.now }
    ensures { result ≡ full_of_associations (policy_of mem.now) }
{
    MOST_ASSOCIATIONS <= mem[table::ASSOCIATION_COUNTER]
}

// The same of prohibitions.
#[tactic(auto, using(crate::proofs::Limits::prohibitions_full))]
fn is_full_of_prohibitions(mem: &[u32]) -> bool
    requires { Table mem.now }
    ensures { result ≡ full_of_prohibitions (policy_of mem.now) }
{
    MOST_PROHIBITIONS <= mem[table::PROHIBITION_COUNTER]
}

// Whether a number of start process is out of range.
#[tactic(auto, using(crate::proofs::Conditions::conditions))]
fn is_bad_process(id: u32, user: u32) -> bool
    ensures { result ≡ (not (is_process_id id) || not (is_element_id user)) }
{
    if !table::is_process_id(id) {
        return true;
    }
    !table::is_element_id(user)
}

// Create class.
#[tactic(auto, using(crate::proofs::Lines::lines, crate::proofs::Ranges::range_not, table::proofs::Asked::tested), unfolding(crate::specs::Numbers::refusal_of, model::specs::Command::command_lines))]
pub fn create_class(mem: &[u32], bytes: usize, id: u32) -> Result<(), Refusal>
    ensures { refusal_in result ≡ refusal_of mem.now bytes (create_class id) }
{
    if !table::holds(mem) {
        return Err(Refusal::NoTable);
    }
    if is_out_of_range(bytes, !table::is_element_id(id)) {
        return Err(Refusal::OutOfRange);
    }
    if table::is_there(mem, id) {
        return Err(Refusal::AlreadyThere);
    }
    Ok(())
}

// Create element, the table and the numbers being right.
#[tactic(auto, using(crate::proofs::Lines::lines), unfolding(crate::specs::Numbers::later_refusal, model::specs::Command::command_lines))]
fn create_element_in(mem: &[u32], id: u32, kind: u32, container: u32) -> Result<(), Refusal>
    requires table { Table mem.now }
    requires id_bound { id < 512 }
    requires container_bound { container < 512 }
    ensures { refusal_in result ≡ later_refusal (policy_of mem.now) (create_element id kind container) }
{
    if is_taken(mem, id, container) {
        return Err(Refusal::AlreadyThere);
    }
    if !table::is_there(mem, container) {
        return Err(Refusal::NotThere);
    }
    if is_unplaceable(mem, kind, container) {
        return Err(Refusal::WrongKind);
    }
    if is_full_of_assignments(mem) {
        return Err(Refusal::NoRoom);
    }
    Ok(())
}

// Create element.
#[tactic(auto, using(crate::proofs::Lines::lines, crate::proofs::Ranges::range_any, table::proofs::Asked::tested, crate::proofs::Ranges::element_id, crate::proofs::Ranges::container_id), unfolding(crate::specs::Numbers::refusal_of, model::specs::Command::command_lines, crate::specs::Numbers::later_refusal))]
pub fn create_element(
    mem: &[u32],
    bytes: usize,
    id: u32,
    kind: u32,
    container: u32,
) -> Result<(), Refusal>
    ensures { refusal_in result ≡ refusal_of mem.now bytes (create_element id kind container) }
{
    if !table::holds(mem) {
        return Err(Refusal::NoTable);
    }
    if is_out_of_range(bytes, is_bad_element(id, kind, container)) {
        return Err(Refusal::OutOfRange);
    }
    create_element_in(mem, id, kind, container)
}

// Assign, the table and the ids being right.
#[tactic(auto, using(crate::proofs::Lines::lines), unfolding(crate::specs::Numbers::later_refusal, model::specs::Command::command_lines))]
fn assign_in(mem: &[u32], child: u32, container: u32) -> Result<(), Refusal>
    requires table { Table mem.now }
    requires child_bound { child < 512 }
    requires container_bound { container < 512 }
    ensures { refusal_in result ≡ later_refusal (policy_of mem.now) (assign child container) }
{
    if table::is_assigned(mem, child, container) {
        return Err(Refusal::AlreadyThere);
    }
    if !table::are_there(mem, child, container) {
        return Err(Refusal::NotThere);
    }
    if !may_be_assigned(mem, child, container) {
        return Err(Refusal::WrongKind);
    }
    if would_close(mem, child, container) {
        return Err(Refusal::ClosesCycle);
    }
    if is_full_of_assignments(mem) {
        return Err(Refusal::NoRoom);
    }
    Ok(())
}

// Assign.
#[tactic(auto, using(crate::proofs::Lines::lines, crate::proofs::Ranges::range_either, table::proofs::Asked::tested, crate::proofs::Ranges::first_id, crate::proofs::Ranges::second_id), unfolding(crate::specs::Numbers::refusal_of, model::specs::Command::command_lines, crate::specs::Numbers::later_refusal))]
pub fn assign(mem: &[u32], bytes: usize, child: u32, container: u32) -> Result<(), Refusal>
    ensures { refusal_in result ≡ refusal_of mem.now bytes (assign child container) }
{
    if !table::holds(mem) {
        return Err(Refusal::NoTable);
    }
    if is_out_of_range(bytes, are_bad_ids(child, container)) {
        return Err(Refusal::OutOfRange);
    }
    assign_in(mem, child, container)
}

// Deassign.
#[tactic(auto, using(crate::proofs::Lines::lines, crate::proofs::Ranges::range_either, table::proofs::Asked::tested, crate::proofs::Ranges::first_id, crate::proofs::Ranges::second_id), unfolding(crate::specs::Numbers::refusal_of, model::specs::Command::command_lines))]
pub fn deassign(mem: &[u32], bytes: usize, child: u32, container: u32) -> Result<(), Refusal>
    ensures { refusal_in result ≡ refusal_of mem.now bytes (deassign child container) }
{
    if !table::holds(mem) {
        return Err(Refusal::NoTable);
    }
    if is_out_of_range(bytes, are_bad_ids(child, container)) {
        return Err(Refusal::OutOfRange);
    }
    if lacks_assignment(mem, child, container) {
        return Err(Refusal::NotThere);
    }
    if !may_be_assigned(mem, child, container) {
        return Err(Refusal::WrongKind);
    }
    if named::has_one_assignment(mem, child) {
        return Err(Refusal::OnlyAssignment);
    }
    Ok(())
}

// Delete element.
#[tactic(auto, using(crate::proofs::Lines::lines, crate::proofs::Ranges::range_not, table::proofs::Asked::tested), unfolding(crate::specs::Numbers::refusal_of, model::specs::Command::command_lines))]
pub fn delete_element(mem: &[u32], bytes: usize, id: u32) -> Result<(), Refusal>
    ensures { refusal_in result ≡ refusal_of mem.now bytes (delete_element id) }
{
    if !table::holds(mem) {
        return Err(Refusal::NoTable);
    }
    if is_out_of_range(bytes, !table::is_element_id(id)) {
        return Err(Refusal::OutOfRange);
    }
    if !table::is_there(mem, id) {
        return Err(Refusal::NotThere);
    }
    if named::is_in_use(mem, id) {
        return Err(Refusal::InUse);
    }
    Ok(())
}

// Create association, the table and the ids being right.
#[tactic(auto, using(crate::proofs::Lines::lines), unfolding(crate::specs::Numbers::later_refusal, model::specs::Command::command_lines, model::specs::Sound::association_pairs))]
fn create_association_in(mem: &[u32], a: Association) -> Result<(), Refusal>
    requires table { Table mem.now }
    requires attribute_bound { a.attribute < 512 }
    requires target_bound { a.target < 512 }
    ensures { refusal_in result ≡ later_refusal (policy_of mem.now) (create_association (association_of a)) }
{
    if store::has_association(mem, a) {
        return Err(Refusal::AlreadyThere);
    }
    if !table::are_there(mem, a.attribute, a.target) {
        return Err(Refusal::NotThere);
    }
    if !may_be_associated(mem, a.attribute, a.target) {
        return Err(Refusal::WrongKind);
    }
    if is_empty(a.rights) {
        return Err(Refusal::IllFormed);
    }
    if is_full_of_associations(mem) {
        return Err(Refusal::NoRoom);
    }
    Ok(())
}

// Create association.
#[tactic(auto, using(crate::proofs::Lines::lines, crate::proofs::Ranges::range_either, table::proofs::Asked::tested, crate::proofs::Ranges::first_id, crate::proofs::Ranges::second_id), unfolding(crate::specs::Numbers::refusal_of, model::specs::Command::command_lines, crate::specs::Numbers::later_refusal))]
pub fn create_association(mem: &[u32], bytes: usize, a: Association) -> Result<(), Refusal>
    ensures { refusal_in result ≡ refusal_of mem.now bytes (create_association (association_of a)) }
{
    if !table::holds(mem) {
        return Err(Refusal::NoTable);
    }
    if is_out_of_range(bytes, are_bad_ids(a.attribute, a.target)) {
        return Err(Refusal::OutOfRange);
    }
    create_association_in(mem, a)
}

// Delete association.
#[tactic(auto, using(crate::proofs::Lines::lines, crate::proofs::Ranges::range_either, table::proofs::Asked::tested, crate::proofs::Ranges::first_id, crate::proofs::Ranges::second_id), unfolding(crate::specs::Numbers::refusal_of, model::specs::Command::command_lines, model::specs::Sound::association_pairs))]
pub fn delete_association(mem: &[u32], bytes: usize, a: Association) -> Result<(), Refusal>
    ensures { refusal_in result ≡ refusal_of mem.now bytes (delete_association (association_of a)) }
{
    if !table::holds(mem) {
        return Err(Refusal::NoTable);
    }
    if is_out_of_range(bytes, are_bad_ids(a.attribute, a.target)) {
        return Err(Refusal::OutOfRange);
    }
    if lacks_association(mem, a) {
        return Err(Refusal::NotThere);
    }
    if !may_be_associated(mem, a.attribute, a.target) {
        return Err(Refusal::WrongKind);
    }
    if is_empty(a.rights) {
        return Err(Refusal::IllFormed);
    }
    Ok(())
}

// Create prohibition, the table and the numbers being right.
fn create_prohibition_in(mem: &[u32], b: Prohibition) -> Result<(), Refusal>
    requires table { Table mem.now }
    requires sort_bound { b.sort ≤ 3 }
    requires subject_bound { b.subject < 512 }
    requires form_bound { b.form ≤ 1 }
    ensures { refusal_in result ≡ later_refusal (policy_of mem.now) (create_prohibition (prohibition_of b.entry)) }
{
    if prohibition::is_there(mem, b) {
        return Err(Refusal::AlreadyThere);
    }
    if prohibition::names_absent(mem, b) {
        return Err(Refusal::NotThere);
    }
    if prohibition::names_other_kind(mem, b) {
        return Err(Refusal::WrongKind);
    }
    if prohibition::is_ill_formed(b) {
        return Err(Refusal::IllFormed);
    }
    if is_full_of_prohibitions(mem) {
        return Err(Refusal::NoRoom);
    }
    Ok(())
}

// Create prohibition.
#[tactic(auto, using(crate::proofs::Lines::lines, crate::proofs::Prohibitions::bad_told, table::proofs::Asked::tested, crate::proofs::Prohibitions::sort_small, crate::proofs::Prohibitions::subject_small, crate::proofs::Prohibitions::form_small), unfolding(crate::specs::Numbers::refusal_of, model::specs::Command::command_lines, crate::specs::Numbers::later_refusal))]
pub fn create_prohibition(mem: &[u32], bytes: usize, b: Prohibition) -> Result<(), Refusal>
    ensures { refusal_in result ≡ refusal_of mem.now bytes (create_prohibition (prohibition_of b.entry)) }
{
    if !table::holds(mem) {
        return Err(Refusal::NoTable);
    }
    if is_out_of_range(bytes, prohibition::is_out_of_range(b)) {
        return Err(Refusal::OutOfRange);
    }
    create_prohibition_in(mem, b)
}

// Delete prohibition.
pub fn delete_prohibition(mem: &[u32], bytes: usize, b: Prohibition) -> Result<(), Refusal>
    ensures { refusal_in result ≡ refusal_of mem.now bytes (delete_prohibition (prohibition_of b.entry)) }
{
    if !table::holds(mem) {
        return Err(Refusal::NoTable);
    }
    if is_out_of_range(bytes, prohibition::is_out_of_range(b)) {
        return Err(Refusal::OutOfRange);
    }
    if lacks_prohibition(mem, b) {
        return Err(Refusal::NotThere);
    }
    if prohibition::names_other_kind(mem, b) {
        return Err(Refusal::WrongKind);
    }
    if prohibition::is_ill_formed(b) {
        return Err(Refusal::IllFormed);
    }
    Ok(())
}

// Start process.
#[tactic(auto, using(crate::proofs::Lines::lines, crate::proofs::Ranges::range_either, table::proofs::Asked::tested), unfolding(crate::specs::Numbers::refusal_of, model::specs::Command::command_lines))]
pub fn start_process(mem: &[u32], bytes: usize, id: u32, user: u32) -> Result<(), Refusal>
    ensures { refusal_in result ≡ refusal_of mem.now bytes (start_process id user) }
{
    if !table::holds(mem) {
        return Err(Refusal::NoTable);
    }
    if is_out_of_range(bytes, is_bad_process(id, user)) {
        return Err(Refusal::OutOfRange);
    }
    if is_process(mem, id) {
        return Err(Refusal::AlreadyThere);
    }
    if !table::is_there(mem, user) {
        return Err(Refusal::NotThere);
    }
    if !is_of_kind(mem, user, USER) {
        return Err(Refusal::WrongKind);
    }
    Ok(())
}

// End process.
#[tactic(auto, using(crate::proofs::Lines::lines, crate::proofs::Ranges::range_not, table::proofs::Asked::tested), unfolding(crate::specs::Numbers::refusal_of, model::specs::Command::command_lines))]
pub fn end_process(mem: &[u32], bytes: usize, id: u32) -> Result<(), Refusal>
    ensures { refusal_in result ≡ refusal_of mem.now bytes (end_process id) }
{
    if !table::holds(mem) {
        return Err(Refusal::NoTable);
    }
    if is_out_of_range(bytes, !table::is_process_id(id)) {
        return Err(Refusal::OutOfRange);
    }
    if !is_process(mem, id) {
        return Err(Refusal::NotThere);
    }
    if named::is_process_in_use(mem, id) {
        return Err(Refusal::InUse);
    }
    Ok(())
}
