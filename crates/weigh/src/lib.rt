// How many bytes the image of a table takes.
#![tactic(auto)]

ghost use Rattle.std.specs.Prelude.{length};
ghost use Rattle.model.specs.Image.{image_bits, image_of};
ghost use Rattle.table.specs.View.{policy_of};
ghost use Rattle.table.specs.Facts.{Table, AtMost};
ghost use Rattle.weigh.specs.Counts.{listed_in};

// How many elements there are. A `for`, which LLVM makes wide, as it does no sum of a mapped range.
pub fn element_count(mem: &[u32]) -> usize
    requires { Table mem.now }
    ensures { AtMost (length (policy_of mem.now).elements) 511 result }
{
    let mut n = 0;
    for x in 1..512 {
        n += usize::from(table::is_there(mem, x));
    }
    n
}

// How many processes there are.
pub fn process_count(mem: &[u32]) -> usize
    requires { Table mem.now }
    ensures { AtMost (length (policy_of mem.now).processes) 255 result }
{
    let mut n = 0;
    for i in 1..256 {
        n += usize::from(table::user_of(mem, i) != 0);
    }
    n
}

// How many ids the prohibitions list.
fn listed_count(mem: &[u32]) -> usize
    requires { Table mem.now }
    ensures { AtMost (listed_in (policy_of mem.now).prohibitions) 1600 result }
{
    (0..table::prohibition_count(mem))
        .map(|i| table::inclusion_count_at(mem, i) + table::exclusion_count_at(mem, i))
        .sum()
}

// The bits of the image: the head's 50, 12 an element, 18 an assignment, 50 an association, 50 a prohibition and 9 each id that it lists, 17 a process.
fn bit_count(mem: &[u32]) -> usize
    requires { Table mem.now }
    ensures { AtMost (length (image_bits (policy_of mem.now))) 120917 result }
{
    let named = 12 * element_count(mem) + 17 * process_count(mem);
    let related = 18 * table::assignment_count(mem) + 50 * table::association_count(mem);
    let prohibited = 50 * table::prohibition_count(mem) + 9 * listed_count(mem);
    50 + named + related + prohibited
}

// The bytes of the image.
pub fn byte_count(mem: &[u32]) -> usize
    requires { Table mem.now }
    ensures { AtMost (length (image_of (policy_of mem.now))) 15115 result }
{
    (bit_count(mem) + 7) / 8
}
