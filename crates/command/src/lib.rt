// The eleven commands. Each is judged on the table and the length of the index; a refused one writes nothing. A command that can change containment
// builds the index anew, whatever bytes it was lent; the others leave the index as it was. What is stored is never one too many: a command that is not
// refused has room, so that the store's own refusal cannot occur.
#![tactic(auto)]

ghost use Rattle.model.specs.Command.{create_class, create_element, assign, deassign, delete_element, create_association, delete_association, create_prohibition, delete_prohibition, start_process, end_process};
ghost use Rattle.store.specs.Given.{association_of, prohibition_of};
ghost use Rattle.command.specs.Commanded.{Commanded};

use answer::Refusal;
use kinds::CLASS;
pub use store::{Association, Prohibition};

// Creates a policy class.
#[tactic(auto, using(crate::proofs::Calls::call_table, crate::proofs::Calls::class_id, crate::proofs::Calls::class_table, crate::proofs::Calls::call_index))]
pub fn create_class(mem: &mut [u32], idx: &mut [u8], id: u32) -> Result<(), Refusal>
    ensures { Commanded mem.old idx.old (create_class id) result mem.new idx.new }
{
    refusals::create_class(mem, idx.len(), id)?;
    store::set_kind(mem, id, CLASS);
    index::fill(mem, idx);
    Ok(())
}

// Creates an element with its first assignment.
#[tactic(auto, using(crate::proofs::Calls::call_table, crate::proofs::Calls::element_id, crate::proofs::Calls::element_kind, crate::proofs::Calls::element_table, crate::proofs::Calls::element_container, crate::proofs::Calls::element_unassigned, crate::proofs::Calls::element_made, crate::proofs::Calls::call_index))]
pub fn create_element(
    mem: &mut [u32],
    idx: &mut [u8],
    id: u32,
    kind: u32,
    container: u32,
) -> Result<(), Refusal>
    ensures { Commanded mem.old idx.old (create_element id kind container) result mem.new idx.new }
{
    refusals::create_element(mem, idx.len(), id, kind, container)?;
    store::set_kind(mem, id, kind);
    store::add_assignment(mem, id, container)?;
    index::fill(mem, idx);
    Ok(())
}

// Assigns the child to the container.
#[tactic(auto, using(crate::proofs::Calls::call_table, crate::proofs::Calls::assign_child, crate::proofs::Calls::assign_container, crate::proofs::Calls::assign_unassigned, crate::proofs::Calls::assign_table, crate::proofs::Calls::call_index))]
pub fn assign(mem: &mut [u32], idx: &mut [u8], child: u32, container: u32) -> Result<(), Refusal>
    ensures { Commanded mem.old idx.old (assign child container) result mem.new idx.new }
{
    refusals::assign(mem, idx.len(), child, container)?;
    store::add_assignment(mem, child, container)?;
    index::fill(mem, idx);
    Ok(())
}

// Takes the child's assignment to the container away.
#[tactic(auto, using(crate::proofs::Calls::call_table, crate::proofs::Calls::deassign_child, crate::proofs::Calls::deassign_container, crate::proofs::Calls::deassign_table, crate::proofs::Calls::call_index))]
pub fn deassign(mem: &mut [u32], idx: &mut [u8], child: u32, container: u32) -> Result<(), Refusal>
    ensures { Commanded mem.old idx.old (deassign child container) result mem.new idx.new }
{
    refusals::deassign(mem, idx.len(), child, container)?;
    store::take_assignment(mem, child, container);
    index::fill(mem, idx);
    Ok(())
}

// Deletes an element with its own assignments.
#[tactic(auto, using(crate::proofs::Calls::call_table, crate::proofs::Calls::delete_id, crate::proofs::Calls::delete_table, crate::proofs::Calls::delete_made, crate::proofs::Calls::call_index))]
pub fn delete_element(mem: &mut [u32], idx: &mut [u8], id: u32) -> Result<(), Refusal>
    ensures { Commanded mem.old idx.old (delete_element id) result mem.new idx.new }
{
    refusals::delete_element(mem, idx.len(), id)?;
    store::take_assignments_of(mem, id);
    store::set_kind(mem, id, 0);
    index::fill(mem, idx);
    Ok(())
}

// Creates an association.
#[tactic(auto, using(crate::proofs::Calls::call_table, crate::proofs::Calls::association_attribute, crate::proofs::Calls::association_target))]
pub fn create_association(mem: &mut [u32], idx: &mut [u8], a: Association) -> Result<(), Refusal>
    ensures { Commanded mem.old idx.old (create_association (association_of a)) result mem.new idx.new }
{
    refusals::create_association(mem, idx.len(), a)?;
    store::add_association(mem, a)?;
    Ok(())
}

// Deletes an association, by its exact triple.
#[tactic(auto, using(crate::proofs::Calls::call_table, crate::proofs::Calls::gone_attribute, crate::proofs::Calls::gone_target))]
pub fn delete_association(mem: &mut [u32], idx: &mut [u8], a: Association) -> Result<(), Refusal>
    ensures { Commanded mem.old idx.old (delete_association (association_of a)) result mem.new idx.new }
{
    refusals::delete_association(mem, idx.len(), a)?;
    store::take_association(mem, a);
    Ok(())
}

// Creates a prohibition. Its lists may be of any length.
#[tactic(auto, using(crate::proofs::Calls::call_table, crate::proofs::Calls::prohibition_storable))]
pub fn create_prohibition(mem: &mut [u32], idx: &mut [u8], b: Prohibition) -> Result<(), Refusal>
    ensures { Commanded mem.old idx.old (create_prohibition (prohibition_of b.entry)) result mem.new idx.new }
{
    refusals::create_prohibition(mem, idx.len(), b)?;
    store::add_prohibition(mem, b)?;
    Ok(())
}

// Deletes a prohibition, by its exact fields.
#[tactic(auto, using(crate::proofs::Calls::call_table, crate::proofs::Calls::gone_storable))]
pub fn delete_prohibition(mem: &mut [u32], idx: &mut [u8], b: Prohibition) -> Result<(), Refusal>
    ensures { Commanded mem.old idx.old (delete_prohibition (prohibition_of b.entry)) result mem.new idx.new }
{
    refusals::delete_prohibition(mem, idx.len(), b)?;
    store::take_prohibition(mem, b);
    Ok(())
}

// Starts a process of a user.
#[tactic(auto, using(crate::proofs::Calls::call_table, crate::proofs::Calls::process_id, crate::proofs::Calls::process_user))]
pub fn start_process(mem: &mut [u32], idx: &mut [u8], id: u32, user: u32) -> Result<(), Refusal>
    ensures { Commanded mem.old idx.old (start_process id user) result mem.new idx.new }
{
    refusals::start_process(mem, idx.len(), id, user)?;
    store::set_user(mem, id, user);
    Ok(())
}

// Ends a process.
#[tactic(auto, using(crate::proofs::Calls::call_table, crate::proofs::Calls::ended_id))]
pub fn end_process(mem: &mut [u32], idx: &mut [u8], id: u32) -> Result<(), Refusal>
    ensures { Commanded mem.old idx.old (end_process id) result mem.new idx.new }
{
    refusals::end_process(mem, idx.len(), id)?;
    store::set_user(mem, id, 0);
    Ok(())
}
