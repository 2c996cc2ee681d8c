// The C face of the public calls. A lent slice is a pointer and a length; include/quandrilof.h says what a C caller must keep to.
#![tactic(auto)]

ghost use Rattle.std.specs.Prelude.{◌≡◌, ◌+◌, ◌*◌, ◌≤◌};
ghost use Rattle.model.specs.Command.{create_class, create_element, assign, deassign, delete_element, create_association, delete_association, create_prohibition, delete_prohibition, start_process, end_process};
ghost use Rattle.answer.specs.Answers.{number_of, told};
ghost use Rattle.table.specs.Answers.{told as told_done};
ghost use Rattle.decide.specs.Answers.{verdict_of, told as told_decided};
ghost use Rattle.explain.specs.Answers.{explained_by, told as told_explained};
ghost use Rattle.store.specs.ProhibitionWords.{prohibition};
ghost use Rattle.image.specs.Answers.{saved};
ghost use Rattle.exports.specs.Codes.{code, verdict_code, decision_code, yes_code, save_code, rows_code, explain_code, requested};
ghost use Rattle.exports.specs.Allows as allows;

use answer::Refusal;
use decide::Decision;
use explain::Explanation;
use request::Request;
use store::{Association, Prohibition};

// The refusal number, 0 where there is none.
#[tactic(auto, using(crate::proofs::Cases::done_number))]
fn number(r: Result<(), Refusal>) -> u32
    ensures { result ≡ code (told_done r r) }
{
    match r {
        Ok(()) => 0,
        Err(refusal) => u32::from(refusal),
    }
}

// 16 and the refusal number.
fn refusal_code(refusal: Refusal) -> u32
    ensures value { result ≡ 16 + number_of refusal }
    ensures upper_bound { result ≤ 30 }
{
    16 + u32::from(refusal)
}

// The alternative that is granted, 0 for a deny.
#[tactic(auto, using(crate::proofs::Cases::grant_code, crate::proofs::Cases::deny_code))]
fn verdict_code(decision: Decision) -> u32
    ensures { result ≡ verdict_code (verdict_of decision) }
{
    match decision {
        Decision::Grant(k) => k,
        Decision::Deny => 0,
    }
}

// The verdict's code, or 16 and the refusal number.
fn decision_code(r: Result<Decision, Refusal>) -> u32
    ensures { result ≡ decision_code (told_decided r) }
{
    match r {
        Ok(decision) => verdict_code(decision),
        Err(refusal) => refusal_code(refusal),
    }
}

// 1 for yes, 0 for no, or 16 and the refusal number.
fn yes_code(r: Result<bool, Refusal>) -> u32
    ensures { result ≡ yes_code (told (λ b. b) r) }
{
    match r {
        Ok(yes) => u32::from(yes),
        Err(refusal) => refusal_code(refusal),
    }
}

// Two numbers as one: the first in the high half.
fn pair(high: u32, low: u32) -> u64
    ensures { result ≡ high * 4294967296 + low }
{
    u64::from(high) * 4294967296 + u64::from(low)
}

// The length, or the refusal number in the high half.
#[tactic(auto, using(crate::proofs::Cases::length_code))]
fn save_code(r: Result<usize, Refusal>) -> u64
    ensures { result ≡ save_code (saved r) }
{
    match r {
        Ok(n) => n as u64,
        Err(refusal) => pair(u32::from(refusal), 0),
    }
}

// The verdict's code in the high half, the number of rows in the low half.
fn rows_code(explanation: Explanation) -> u64
    ensures { result ≡ rows_code (explained_by explanation) }
{
    match explanation {
        Explanation::Grant(k, n) => pair(k, n),
        Explanation::Deny(n) => pair(0, n),
    }
}

// The decision's code in the high half, the number of rows in the low half.
fn explain_code(r: Result<Explanation, Refusal>) -> u64
    ensures { result ≡ explain_code (told_explained r) }
{
    match r {
        Ok(explanation) => rows_code(explanation),
        Err(refusal) => pair(refusal_code(refusal), 0),
    }
}

// Makes the memory an empty table.
#[unsafe(no_mangle)]
pub extern "C" fn qd_new(table: &mut [u32]) -> u32
    ensures { allows.new table.old result table.new }
{
    number(policy::new(table))
}

// Makes the memory the table of the policy that the image spells.
#[unsafe(no_mangle)]
pub extern "C" fn qd_load(table: &mut [u32], image: &[u8]) -> u32
    ensures { allows.load table.old image.now result table.new }
{
    number(policy::load(table, image))
}

// Writes the image of the table's policy, and no byte beyond it.
#[unsafe(no_mangle)]
pub extern "C" fn qd_save(table: &[u32], out: &mut [u8]) -> u64
    ensures { allows.save table.now out.old result out.new }
{
    save_code(policy::save(table, out))
}

// Makes the bytes the index of the table.
#[unsafe(no_mangle)]
pub extern "C" fn qd_build_index(table: &[u32], index: &mut [u8]) -> u32
    ensures { allows.build_index table.now index.old result index.new }
{
    number(policy::build_index(table, index))
}

// Whether the bytes are the index of the table.
#[unsafe(no_mangle)]
pub extern "C" fn qd_is_index(table: &[u32], index: &[u8]) -> u32
    ensures { allows.is_index table.now index.now result }
{
    yes_code(policy::is_index(table, index))
}

// Whether x is within y, by chains of assignments.
#[unsafe(no_mangle)]
pub extern "C" fn qd_contains(table: &[u32], x: u32, y: u32) -> u32
    ensures { allows.contains table.now x y result }
{
    yes_code(policy::contains(table, x, y))
}

// The plain decision.
#[unsafe(no_mangle)]
pub extern "C" fn qd_decide(
    table: &[u32],
    process: u32,
    operation: u32,
    a: u32,
    b: u32,
    c: u32,
) -> u32
    ensures { allows.decide table.now (requested process operation a b c) result }
{
    let q = Request {
        process: process,
        operation: operation,
        first: a,
        second: b,
        third: c,
    };
    decision_code(policy::decide(table, q))
}

// The decision that takes containment from the bits of the index alone.
#[unsafe(no_mangle)]
pub extern "C" fn qd_decide_indexed(
    table: &[u32],
    index: &[u8],
    process: u32,
    operation: u32,
    a: u32,
    b: u32,
    c: u32,
) -> u32
    ensures { allows.decide_indexed table.now index.now (requested process operation a b c) result }
{
    let q = Request {
        process: process,
        operation: operation,
        first: a,
        second: b,
        third: c,
    };
    decision_code(policy::decide_indexed(table, index, q))
}

// The explanation: answers as the plain decision does and fills the lent rows.
#[unsafe(no_mangle)]
pub extern "C" fn qd_explain(
    table: &[u32],
    process: u32,
    operation: u32,
    a: u32,
    b: u32,
    c: u32,
    rows: &mut [[u32; 8]],
) -> u64
    ensures { allows.explain table.now (requested process operation a b c) rows.old result rows.new }
{
    let q = Request {
        process: process,
        operation: operation,
        first: a,
        second: b,
        third: c,
    };
    explain_code(policy::explain_numbers(table, q, rows))
}

// Creates a policy class.
#[unsafe(no_mangle)]
pub extern "C" fn qd_create_class(table: &mut [u32], index: &mut [u8], id: u32) -> u32
    ensures { allows.command table.old index.old (create_class id) result table.new index.new }
{
    number(policy::create_class(table, index, id))
}

// Creates an element with its first assignment.
#[unsafe(no_mangle)]
pub extern "C" fn qd_create_element(
    table: &mut [u32],
    index: &mut [u8],
    id: u32,
    kind: u32,
    container: u32,
) -> u32
    ensures { allows.command table.old index.old (create_element id kind container) result table.new index.new }
{
    number(policy::create_element(table, index, id, kind, container))
}

// Assigns the child to the container.
#[unsafe(no_mangle)]
pub extern "C" fn qd_assign(table: &mut [u32], index: &mut [u8], child: u32, container: u32) -> u32
    ensures { allows.command table.old index.old (assign child container) result table.new index.new }
{
    number(policy::assign(table, index, child, container))
}

// Takes the child's assignment to the container away.
#[unsafe(no_mangle)]
pub extern "C" fn qd_deassign(
    table: &mut [u32],
    index: &mut [u8],
    child: u32,
    container: u32,
) -> u32
    ensures { allows.command table.old index.old (deassign child container) result table.new index.new }
{
    number(policy::deassign(table, index, child, container))
}

// Deletes an element with its own assignments.
#[unsafe(no_mangle)]
pub extern "C" fn qd_delete_element(table: &mut [u32], index: &mut [u8], id: u32) -> u32
    ensures { allows.command table.old index.old (delete_element id) result table.new index.new }
{
    number(policy::delete_element(table, index, id))
}

// Creates an association.
#[unsafe(no_mangle)]
pub extern "C" fn qd_create_association(
    table: &mut [u32],
    index: &mut [u8],
    attribute: u32,
    rights: u32,
    target: u32,
) -> u32
    ensures { allows.command table.old index.old (create_association (record { attribute = attribute; target = target; rights = rights })) result table.new index.new }
{
    let a = Association {
        attribute,
        target,
        rights,
    };
    number(policy::create_association(table, index, a))
}

// Deletes an association, by its exact triple.
#[unsafe(no_mangle)]
pub extern "C" fn qd_delete_association(
    table: &mut [u32],
    index: &mut [u8],
    attribute: u32,
    rights: u32,
    target: u32,
) -> u32
    ensures { allows.command table.old index.old (delete_association (record { attribute = attribute; target = target; rights = rights })) result table.new index.new }
{
    let a = Association {
        attribute,
        target,
        rights,
    };
    number(policy::delete_association(table, index, a))
}

// Creates a prohibition. Its lists may be of any length.
#[unsafe(no_mangle)]
pub extern "C" fn qd_create_prohibition(
    table: &mut [u32],
    index: &mut [u8],
    sort: u32,
    subject: u32,
    form: u32,
    rights: u32,
    inclusion: &[u32],
    exclusion: &[u32],
) -> u32
    ensures { allows.command table.old index.old (create_prohibition (prohibition sort subject form rights inclusion.now exclusion.now)) result table.new index.new }
{
    let b = Prohibition {
        sort,
        subject,
        form,
        rights,
        inclusion,
        exclusion,
    };
    number(policy::create_prohibition(table, index, b))
}

// Deletes a prohibition, by its exact fields.
#[unsafe(no_mangle)]
pub extern "C" fn qd_delete_prohibition(
    table: &mut [u32],
    index: &mut [u8],
    sort: u32,
    subject: u32,
    form: u32,
    rights: u32,
    inclusion: &[u32],
    exclusion: &[u32],
) -> u32
    ensures { allows.command table.old index.old (delete_prohibition (prohibition sort subject form rights inclusion.now exclusion.now)) result table.new index.new }
{
    let b = Prohibition {
        sort,
        subject,
        form,
        rights,
        inclusion,
        exclusion,
    };
    number(policy::delete_prohibition(table, index, b))
}

// Starts a process of a user.
#[unsafe(no_mangle)]
pub extern "C" fn qd_start_process(table: &mut [u32], index: &mut [u8], id: u32, user: u32) -> u32
    ensures { allows.command table.old index.old (start_process id user) result table.new index.new }
{
    number(policy::start_process(table, index, id, user))
}

// Ends a process.
#[unsafe(no_mangle)]
pub extern "C" fn qd_end_process(table: &mut [u32], index: &mut [u8], id: u32) -> u32
    ensures { allows.command table.old index.old (end_process id) result table.new index.new }
{
    number(policy::end_process(table, index, id))
}
