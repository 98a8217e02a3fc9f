// Issue and withdraw: judged on a register that is only read, then one byte stored.

#![tactic(auto)]

ghost use Rattle.std.specs.Prelude.{◌≡◌, ◌<◌, length, set};
ghost use Rattle.register.specs.Register.{number_of, issue_answer, issue_leaves, withdraw_answer, withdraw_leaves};
ghost use Rattle.register.specs.declared.answers.Status.TheVariants.{Unissued, Live};
ghost use Rattle.register.specs.Rules.{IssueEffect, WithdrawEffect};
ghost use Rattle.register.specs.Events.{Lasts};

use register::{CLEARED, LIVE, SIZE, Status, WriteRefusal, status};

// What a call answers of a number that is due to be issued or withdrawn at one status. A judgement is lent the register only to read.
fn judge(register: &[u8], number: u8, due: Status) -> Result<(), WriteRefusal>
    ensures issues { due ≡ Unissued → result ≡ issue_answer register.now number }
    ensures withdraws { due ≡ Live → result ≡ withdraw_answer register.now number }
{
    if register.len() != SIZE {
        return Err(WriteRefusal::Length);
    }
    let found = status(register, number);
    if found == due {
        return Ok(());
    }
    match found {
        Status::Withdrawn => Err(WriteRefusal::Withdrawn),
        Status::Unissued => Err(WriteRefusal::Unissued),
        Status::Live => Err(WriteRefusal::Live),
    }
}

// Stores one byte, once: the one place that writes a register.
fn store(register: &mut [u8], number: u8, byte: u8)
    requires { number < length register.old }
    ensures { register.new ≡ set register.old number byte }
{
    register[number as usize] = byte;
}

// Writes A5 over FF. Only an accepted call stores, so that power can cut no write of a refused one.
pub fn issue(register: &mut [u8], number: u8) -> Result<(), WriteRefusal>
    ensures answer { result ≡ issue_answer register.old number }
    ensures leaves { register.new ≡ issue_leaves register.old number }
    ensures rule { IssueEffect register.old number (number_of result) register.new }
{
    judge(register, number, Status::Unissued)?;
    store(register, number, LIVE);
    Ok(())
}

// Writes 00 over A5, and stores as issue does.
pub fn withdraw(register: &mut [u8], number: u8) -> Result<(), WriteRefusal>
    ensures answer { result ≡ withdraw_answer register.old number }
    ensures leaves { register.new ≡ withdraw_leaves register.old number }
    ensures rule { WithdrawEffect register.old number (number_of result) register.new }
    ensures lasts { number_of result ≡ 0 → Lasts register.new number }
{
    judge(register, number, Status::Live)?;
    store(register, number, CLEARED);
    Ok(())
}
