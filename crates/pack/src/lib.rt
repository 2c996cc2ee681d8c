// The image of a table, written into lent bytes.
#![tactic(auto)]

ghost use Rattle.std.specs.Prelude.{◌≡◌, false, ◌++◌, ◌+◌, ◌*◌, ◌-◌, ◌<◌, length, replicate};
ghost use Rattle.model.specs.Image.{element_bits, assignment_bits, association_bits, prohibition_bits, process_bits, group_bits, head_bits, image_bits, image_of};
ghost use Rattle.table.specs.View.{policy_of};
ghost use Rattle.table.specs.Facts.{Table};
ghost use Rattle.measure.specs.Places.{Reaches};
ghost use Rattle.put.specs.Put.{Put};
ghost use Rattle.pack.specs.Heads.{head_of};

use bits::Cursor;

// Form 1, before the 9 bits of the count of elements.
const FORM: u32 = 512;

// Writes the head: form and counts.
fn write_head(
    out: &mut [u8],
    elements: u32,
    assignments: u32,
    associations: u32,
    prohibitions: u32,
    processes: u32,
) -> usize
    requires elements_bound { elements < 512 }
    requires assignments_bound { assignments < 2048 }
    requires associations_bound { associations < 1024 }
    requires prohibitions_bound { prohibitions < 256 }
    requires processes_bound { processes < 256 }
    requires reaches { Reaches out.old 0 50 }
    ensures { Put out.old out.new 0 (head_of elements assignments associations prohibitions processes) result }
{
    Cursor { at: 0 }
        .write(out, 13, FORM + elements)
        .write(out, 21, assignments * 1024 + associations)
        .write(out, 16, prohibitions * 256 + processes)
        .at
}

// Writes the head of the table's image.
fn write_table_head(mem: &[u32], out: &mut [u8]) -> usize
    requires table { Table mem.now }
    requires reaches { Reaches out.old 0 50 }
    ensures { Put out.old out.new 0 (head_bits (policy_of mem.now)) result }
{
    write_head(
        out,
        weigh::element_count(mem) as u32,
        table::assignment_count(mem) as u32,
        table::association_count(mem) as u32,
        table::prohibition_count(mem) as u32,
        weigh::process_count(mem) as u32,
    )
}

// Writes the head, the elements and the assignments.
#[tactic(auto, using(crate::proofs::Wholes::head_room, crate::proofs::Wholes::elements_room, crate::proofs::Wholes::assignments_room))]
fn write_first(mem: &[u32], out: &mut [u8]) -> usize
    requires table { Table mem.now }
    requires reaches { Reaches out.old 0 (length (image_bits (policy_of mem.now))) }
    ensures { Put out.old out.new 0 (head_bits (policy_of mem.now) ++ (group_bits element_bits (policy_of mem.now).elements ++ group_bits assignment_bits (policy_of mem.now).assignments)) result }
{
    let p = write_table_head(mem, out);
    let q = put::elements(mem, out, p);
    put::assignments(mem, out, q)
}

// Writes the associations, the prohibitions and the processes.
#[tactic(auto, using(crate::proofs::Wholes::room_first, crate::proofs::Wholes::room_second, crate::proofs::Wholes::room_third))]
fn write_rest(mem: &[u32], out: &mut [u8], at: usize) -> usize
    requires table { Table mem.now }
    requires reaches { Reaches out.old at (length (group_bits association_bits (policy_of mem.now).associations ++ (group_bits prohibition_bits (policy_of mem.now).prohibitions ++ group_bits process_bits (policy_of mem.now).processes))) }
    ensures { Put out.old out.new at (group_bits association_bits (policy_of mem.now).associations ++ (group_bits prohibition_bits (policy_of mem.now).prohibitions ++ group_bits process_bits (policy_of mem.now).processes)) result }
{
    let p = put::associations(mem, out, at);
    let q = put::prohibitions(mem, out, p);
    put::processes(mem, out, q)
}

// Zero bits from a place in the last byte on.
fn write_filling(out: &mut [u8], at: usize) -> usize
    requires reaches { Reaches out.old at 0 }
    requires out_bound { 8 * length out.old < at + 8 }
    ensures { Put out.old out.new at (replicate (8 * length out.old - at) false) result }
{
    let left = 8 * out.len() - at;
    if left == 0 {
        return at;
    }
    Cursor { at }.write(out, left as u32, 0).at
}

// Makes the bytes, as many as the image takes, the table's image.
pub fn pack(mem: &[u32], out: &mut [u8])
    requires table { Table mem.now }
    requires out_len { length out.old ≡ length (image_of (policy_of mem.now)) }
    ensures { out.new ≡ image_of (policy_of mem.now) }
{
    let p = write_first(mem, out);
    let q = write_rest(mem, out, p);
    write_filling(out, q);
}
