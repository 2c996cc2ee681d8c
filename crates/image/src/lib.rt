// The policy as bytes: load makes a table of an image, save makes an image of a table.
#![tactic(auto)]

ghost use Rattle.std.specs.Prelude.{◌≡◌, length, replicate};
ghost use Rattle.model.specs.Calls.{save as saving};
ghost use Rattle.answer.specs.Answers.{refusal_in};
ghost use Rattle.table.specs.View.{memory};
ghost use Rattle.table.specs.Facts.{Table, AtMost};
ghost use Rattle.table.specs.Answers.{left as left_words};
ghost use Rattle.image.specs.Answers.{load_table, table_refusal, table_end, Read, Ended, left};

use answer::Refusal;

// Refused with 13 or 14, the first that holds of the words that an image's records were laid into.
#[tactic(auto, using(crate::proofs::Judged::no_table_13, table::proofs::Asked::tested, crate::proofs::Judged::broken_13, crate::proofs::Judged::wrong_14, crate::proofs::Judged::right_0))]
fn table_refusal(mem: &[u32]) -> Result<(), Refusal>
    ensures { refusal_in result ≡ table_refusal mem.now }
{
    if !table::holds(mem) {
        return Err(Refusal::BreaksRule);
    }
    if ranges::breaks_rule(mem) {
        return Err(Refusal::BreaksRule);
    }
    if links::names_wrong(mem) {
        return Err(Refusal::NamesWrong);
    }
    Ok(())
}

// The image's refusal, 11 to 14; where it is accepted the words, all zero at first, are then the table of its policy.
#[tactic(auto, using(std::proofs::lemmas::Result::err_from_is_err_and, answer::proofs::Told::number_low, crate::proofs::Judged::sizes_tell, crate::proofs::Judged::unstowable_tells, crate::proofs::Judged::stowable_known))]
fn read(s: &[u8], mem: &mut [u32]) -> Result<(), Refusal>
    requires { mem.old ≡ replicate 8192 0 }
    ensures { Read s.now (refusal_in result) mem.new }
{
    measure::refusal(s)?;
    if !screen::is_stowable(s) {
        return Err(Refusal::BreaksRule);
    }
    table::mark(mem);
    unpack::unpack(s, mem);
    table_refusal(mem)
}

// Where the words of the table end: behind its last prohibition, or, where there is none, behind its last association.
#[tactic(auto, using(crate::proofs::Copying::end_prohibited, crate::proofs::Copying::end_associated))]
fn end_of(mem: &[u32]) -> usize
    requires { Table mem.now }
    ensures { AtMost (table_end mem.now) 8192 result }
{
    let n = table::prohibition_count(mem);
    if 0 < n {
        return table::PROHIBITIONS + 11 * n;
    }
    table::ASSOCIATIONS + 2 * table::association_count(mem)
}

// Makes the memory the table: its words up to where they end, and 0 in each word behind them.
fn copy(mem: &mut [u32], fresh: &[u32])
    requires mem_len { length mem.old ≡ 8192 }
    requires ended { Ended fresh.now }
    ensures { mem.new ≡ fresh.now }
{
    let end = end_of(fresh);
    group::store(mem, 0, &fresh[0..end]);
    group::clear(mem, end, table::WORDS - end);
}

// Makes the memory the table of the image's policy, or refuses: 1 for the memory's length, 11 to 14 for the image.
pub fn load(mem: &mut [u32], s: &[u8]) -> Result<(), Refusal>
    ensures { left_words result mem.new ≡ load_table s.now mem.old }
{
    if mem.len() != table::WORDS {
        return Err(Refusal::NoTable);
    }
    let mut fresh = [0u32; 8192];
    read(s, &mut fresh)?;
    copy(mem, &fresh);
    Ok(())
}

// Writes the table's image into the front of the lent bytes, or refuses: 1 where the memory holds no table, 10 where the bytes are too few.
#[tactic(auto, using(crate::proofs::Saving::no_table_lem, table::proofs::Asked::tested, crate::proofs::Saving::image_saved))]
pub fn save(mem: &[u32], out: &mut [u8]) -> Result<usize, Refusal>
    ensures { left result out.new ≡ saving (memory mem.now) out.old }
{
    if !table::holds(mem) {
        return Err(Refusal::NoTable);
    }
    let n = weigh::byte_count(mem);
    if out.len() < n {
        return Err(Refusal::NoRoom);
    }
    pack::pack(mem, &mut out[0..n]);
    Ok(n)
}
