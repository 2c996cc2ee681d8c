// The explanation: it answers as the plain decision does and fills lent rows, here as numbers: alternative, argument, right, cause, number,
// attribute, target, rights.
#![tactic(auto)]

ghost use Rattle.std.specs.Prelude.{◌≡◌, false, ◌-◌, ◌≤◌, get_or, []};
ghost use Rattle.model.specs.Policy.{user_of};
ghost use Rattle.model.specs.Contain.{contained};
ghost use Rattle.model.specs.Request.{grant, deny, verdict};
ghost use Rattle.table.specs.View.{policy_of, memory};
ghost use Rattle.table.specs.Facts.{Table};
ghost use Rattle.request.specs.Sets.{capabilities};
ghost use Rattle.request.specs.Asks.{request_of, Accepted};
ghost use Rattle.decide.specs.Asks.{AllRows};
ghost use Rattle.explain.specs.Answers.{left, explained, explaining};

use answer::Refusal;
use decide::{Climbed, Decision};
use request::Request;

// What the explanation of a request that is not refused answers: the alternative that grants and the number of rows, or the number of rows of a deny.
#[derive(Clone, Copy)]
pub enum Explanation {
    Grant(u32, u32),
    Deny(u32),
}

// Explains a grant: 10 and nothing written where the rows are too few.
#[tactic(auto, using(crate::proofs::Granted::grant_fits, crate::proofs::Granted::grant_filled))]
fn explain_grant(
    mem: &[u32],
    rows: &[u8],
    q: Request,
    user: u32,
    alternative: u32,
    sets: [u32; 3],
    out: &mut [[u32; 8]],
) -> Result<Explanation, Refusal>
    requires table { Table mem.now }
    requires accepted { Accepted mem.now q }
    requires all_rows { AllRows mem.now rows.now false q user }
    requires user_value { user ≡ user_of (policy_of mem.now) q.process }
    requires q_value { verdict (contained (policy_of mem.now)) (policy_of mem.now) (request_of q) ≡ grant alternative }
    requires le_alternative { (1 ≤ alternative) × (sets ≡ get_or (capabilities q.operation) (alternative - 1) []) }
    ensures { left result out.new ≡ explained (policy_of mem.now) (request_of q) out.old }
{
    let n = grants::count_rows(mem, rows, q, user, sets);
    if out.len() < n {
        return Err(Refusal::NoRoom);
    }
    grants::put_rows(mem, rows, q, user, alternative, sets, out);
    Ok(Explanation::Grant(alternative, n as u32))
}

// Explains a deny: a row for each alternative; 10 and nothing written where the rows are too few.
#[tactic(auto, using(crate::proofs::Denied::one_refused, crate::proofs::Denied::first_fails, crate::proofs::Denied::one_filled, crate::proofs::Denied::two_refused, crate::proofs::Denied::second_fails, crate::proofs::Denied::two_filled))]
fn explain_deny(
    mem: &[u32],
    rows: &[u8],
    q: Request,
    user: u32,
    alternatives: [[u32; 3]; 2],
    out: &mut [[u32; 8]],
) -> Result<Explanation, Refusal>
    requires table { Table mem.now }
    requires accepted { Accepted mem.now q }
    requires all_rows { AllRows mem.now rows.now false q user }
    requires user_value { user ≡ user_of (policy_of mem.now) q.process }
    requires q_value { verdict (contained (policy_of mem.now)) (policy_of mem.now) (request_of q) ≡ deny }
    requires alternatives_value { alternatives ≡ capabilities q.operation }
    ensures { left result out.new ≡ explained (policy_of mem.now) (request_of q) out.old }
{
    let second = alternatives[1];
    if second[0] == 0 {
        if out.len() < 1 {
            return Err(Refusal::NoRoom);
        }
        out[0] = denials::deny_row(mem, rows, q, user, 1, alternatives[0]);
        return Ok(Explanation::Deny(1));
    }
    if out.len() < 2 {
        return Err(Refusal::NoRoom);
    }
    out[0] = denials::deny_row(mem, rows, q, user, 1, alternatives[0]);
    out[1] = denials::deny_row(mem, rows, q, user, 2, second);
    Ok(Explanation::Deny(2))
}

// Explains a request that is not refused.
#[tactic(auto, using(decide::proofs::Sights::user_known, crate::proofs::Answered::decided_first, crate::proofs::Answered::first_read, crate::proofs::Answered::second_read, crate::proofs::Answered::decided_deny))]
fn explain_accepted(mem: &[u32], q: Request, out: &mut [[u32; 8]]) -> Result<Explanation, Refusal>
    requires table { Table mem.now }
    requires accepted { Accepted mem.now q }
    ensures { left result out.new ≡ explained (policy_of mem.now) (request_of q) out.old }
{
    let user = table::user_of(mem, q.process);
    let rows = decide::climb_rows(mem, q, user);
    let alternatives = request::required(q.operation);
    let decision = decide::choose(mem, &Climbed { rows: &rows }, q, user, alternatives);
    match decision {
        Decision::Grant(k) => {
            if k == 1 {
                return explain_grant(mem, &rows, q, user, 1, alternatives[0], out);
            }
            explain_grant(mem, &rows, q, user, 2, alternatives[1], out)
        }
        Decision::Deny => explain_deny(mem, &rows, q, user, alternatives, out),
    }
}

// The explanation, with rows of eight numbers. Rows beyond the count keep their contents.
#[tactic(auto, using(crate::proofs::Answered::explained_no_table, table::proofs::Asked::tested, std::proofs::lemmas::Result::err_from_is_err_and, crate::proofs::Answered::explained_refusal))]
pub fn explain_numbers(
    mem: &[u32],
    q: Request,
    out: &mut [[u32; 8]],
) -> Result<Explanation, Refusal>
    ensures { left result out.new ≡ explaining (memory mem.now) (request_of q) out.old }
{
    if !table::holds(mem) {
        return Err(Refusal::NoTable);
    }
    request::refusal(mem, q)?;
    explain_accepted(mem, q, out)
}
