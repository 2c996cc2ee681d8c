// The public calls. Each takes every input there is: words, bytes and rows of any length and with any contents, and any numbers. A refused call
// writes nothing. What each answers and leaves is said by its contract; docs/CONTRACTS.md has the table of them.
#![tactic(auto)]

ghost use Rattle.model.specs.Command.{create_class, create_element, assign, deassign, delete_element, create_association, delete_association, create_prohibition, delete_prohibition, start_process, end_process};
ghost use Rattle.store.specs.Given.{association_of, prohibition_of};
ghost use Rattle.policy.specs.Allows as allows;

use answer::Refusal;
use decide::Decision;
use explain::Explanation;
use request::Request;
use rows::Row;
use store::{Association, Prohibition};

// Makes the memory an empty table. Refused with 1 where it has another length than 8,192 words.
pub fn new(mem: &mut [u32]) -> Result<(), Refusal>
    ensures { allows.new mem.old result mem.new }
{
    table::new(mem)
}

// Makes the memory the table of the policy that the image spells.
pub fn load(mem: &mut [u32], image: &[u8]) -> Result<(), Refusal>
    ensures { allows.load mem.old image.now result mem.new }
{
    image::load(mem, image)
}

// Writes the image of the table's policy, and no byte beyond it.
pub fn save(mem: &[u32], out: &mut [u8]) -> Result<usize, Refusal>
    ensures { allows.save mem.now out.old result out.new }
{
    image::save(mem, out)
}

// Makes the bytes the index of the table.
pub fn build_index(mem: &[u32], idx: &mut [u8]) -> Result<(), Refusal>
    ensures { allows.build_index mem.now idx.old result idx.new }
{
    index::build(mem, idx)
}

// Whether the bytes are the index of the table.
pub fn is_index(mem: &[u32], idx: &[u8]) -> Result<bool, Refusal>
    ensures { allows.is_index mem.now idx.now result }
{
    index::is_index(mem, idx)
}

// Whether x is within y, by chains of assignments.
pub fn contains(mem: &[u32], x: u32, y: u32) -> Result<bool, Refusal>
    ensures { allows.contains mem.now x y result }
{
    climb::contained(mem, x, y)
}

// The plain decision: containment by chains of assignments.
pub fn decide(mem: &[u32], q: Request) -> Result<Decision, Refusal>
    ensures { allows.decide mem.now q result }
{
    decide::decide(mem, q)
}

// The decision that takes containment from the bits of the index alone.
pub fn decide_indexed(mem: &[u32], idx: &[u8], q: Request) -> Result<Decision, Refusal>
    ensures { allows.decide_indexed mem.now idx.now q result }
{
    decide::decide_indexed(mem, idx, q)
}

// The explanation: answers as the plain decision does and fills the lent rows, each a row of eight numbers.
pub fn explain_numbers(
    mem: &[u32],
    q: Request,
    rows: &mut [[u32; 8]],
) -> Result<Explanation, Refusal>
    ensures { allows.explain_numbers mem.now q rows.old result rows.new }
{
    explain::explain_numbers(mem, q, rows)
}

// The explanation, its rows as structs.
pub fn explain(mem: &[u32], q: Request, rows: &mut [Row]) -> Result<Explanation, Refusal>
    ensures { allows.explain mem.now q rows.old result rows.new }
{
    rows::explain(mem, q, rows)
}

// Creates a policy class.
pub fn create_class(mem: &mut [u32], idx: &mut [u8], id: u32) -> Result<(), Refusal>
    ensures { allows.command mem.old idx.old (create_class id) result mem.new idx.new }
{
    command::create_class(mem, idx, id)
}

// Creates an element with its first assignment.
pub fn create_element(
    mem: &mut [u32],
    idx: &mut [u8],
    id: u32,
    kind: u32,
    container: u32,
) -> Result<(), Refusal>
    ensures { allows.command mem.old idx.old (create_element id kind container) result mem.new idx.new }
{
    command::create_element(mem, idx, id, kind, container)
}

// Assigns the child to the container.
pub fn assign(mem: &mut [u32], idx: &mut [u8], child: u32, container: u32) -> Result<(), Refusal>
    ensures { allows.command mem.old idx.old (assign child container) result mem.new idx.new }
{
    command::assign(mem, idx, child, container)
}

// Takes the child's assignment to the container away.
pub fn deassign(mem: &mut [u32], idx: &mut [u8], child: u32, container: u32) -> Result<(), Refusal>
    ensures { allows.command mem.old idx.old (deassign child container) result mem.new idx.new }
{
    command::deassign(mem, idx, child, container)
}

// Deletes an element with its own assignments.
pub fn delete_element(mem: &mut [u32], idx: &mut [u8], id: u32) -> Result<(), Refusal>
    ensures { allows.command mem.old idx.old (delete_element id) result mem.new idx.new }
{
    command::delete_element(mem, idx, id)
}

// Creates an association.
pub fn create_association(mem: &mut [u32], idx: &mut [u8], a: Association) -> Result<(), Refusal>
    ensures { allows.command mem.old idx.old (create_association (association_of a)) result mem.new idx.new }
{
    command::create_association(mem, idx, a)
}

// Deletes an association, by its exact triple.
pub fn delete_association(mem: &mut [u32], idx: &mut [u8], a: Association) -> Result<(), Refusal>
    ensures { allows.command mem.old idx.old (delete_association (association_of a)) result mem.new idx.new }
{
    command::delete_association(mem, idx, a)
}

// Creates a prohibition. Its lists may be of any length.
pub fn create_prohibition(mem: &mut [u32], idx: &mut [u8], b: Prohibition) -> Result<(), Refusal>
    ensures { allows.command mem.old idx.old (create_prohibition (prohibition_of b.entry)) result mem.new idx.new }
{
    command::create_prohibition(mem, idx, b)
}

// Deletes a prohibition, by its exact fields.
pub fn delete_prohibition(mem: &mut [u32], idx: &mut [u8], b: Prohibition) -> Result<(), Refusal>
    ensures { allows.command mem.old idx.old (delete_prohibition (prohibition_of b.entry)) result mem.new idx.new }
{
    command::delete_prohibition(mem, idx, b)
}

// Starts a process of a user.
pub fn start_process(mem: &mut [u32], idx: &mut [u8], id: u32, user: u32) -> Result<(), Refusal>
    ensures { allows.command mem.old idx.old (start_process id user) result mem.new idx.new }
{
    command::start_process(mem, idx, id, user)
}

// Ends a process.
pub fn end_process(mem: &mut [u32], idx: &mut [u8], id: u32) -> Result<(), Refusal>
    ensures { allows.command mem.old idx.old (end_process id) result mem.new idx.new }
{
    command::end_process(mem, idx, id)
}
