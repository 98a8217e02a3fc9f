// What an order of a deck answers: what an accepted one tells, or the refusal of its call.

#![tactic(auto)]

ghost use Rattle.std.specs.Prelude.{◌≡◌};
ghost use Rattle.figures.specs.Answer.{done_answer, position_answer, worth_answer, ratio_answer};
ghost use Rattle.walk.specs.Answers.{said_of, said_by};
ghost use Rattle.answers.specs.declared.OrderRefusal.TheVariants.{Call, Write};
ghost use Rattle.answers.specs.OrderAnswers.{order_refusal_number, answer_said};

use refusals::Refusal;
use register::WriteRefusal;
use walk::Worth;

// What an accepted order tells.
#[derive(Clone, Copy, PartialEq, Eq)]
pub enum Told {
    // issue, withdraw and open
    Done,
    // back
    Position(usize),
    // value: D, A and W
    Worth(Worth),
    // delta, in millionths
    Ratio(i64),
    // forward: Q(k)
    Probability(u64),
}

// Why an order is refused: by a call of the walk, or by one that writes the register.
#[derive(Clone, Copy, PartialEq, Eq)]
pub enum OrderRefusal {
    Call(Refusal),
    Write(WriteRefusal),
}

impl From<Refusal> for OrderRefusal {
    ghost from_gives = { λ refusal to. to ≡ Call refusal };

    fn from(refusal: Refusal) -> OrderRefusal {
        OrderRefusal::Call(refusal)
    }
}

impl From<WriteRefusal> for OrderRefusal {
    ghost from_gives = { λ refusal to. to ≡ Write refusal };

    fn from(refusal: WriteRefusal) -> OrderRefusal {
        OrderRefusal::Write(refusal)
    }
}

// A refusal's number in document 01.
impl From<OrderRefusal> for u8 {
    ghost from_gives = { λ refusal number. number ≡ order_refusal_number refusal };

    fn from(refusal: OrderRefusal) -> u8 {
        match refusal {
            OrderRefusal::Call(refusal) => refusal.into(),
            OrderRefusal::Write(refusal) => refusal.into(),
        }
    }
}

// What open answers.
pub fn of_open(said: Result<(), Refusal>) -> Result<Told, OrderRefusal>
    ensures { answer_said result ≡ said_of (done_answer said) }
{
    said?;
    Ok(Told::Done)
}

// What back answers.
pub fn of_back(said: Result<usize, Refusal>) -> Result<Told, OrderRefusal>
    ensures { answer_said result ≡ said_of (position_answer said) }
{
    Ok(Told::Position(said?))
}

// What value answers.
pub fn of_value(said: Result<Worth, Refusal>) -> Result<Told, OrderRefusal>
    ensures { answer_said result ≡ said_of (worth_answer said) }
{
    Ok(Told::Worth(said?))
}

// What hedge ratio answers.
pub fn of_hedge_ratio(said: Result<i64, Refusal>) -> Result<Told, OrderRefusal>
    ensures { answer_said result ≡ said_of (ratio_answer said) }
{
    Ok(Told::Ratio(said?))
}

// What issue and withdraw answer.
pub fn of_register(said: Result<(), WriteRefusal>) -> Result<Told, OrderRefusal>
    ensures { answer_said result ≡ said_by said }
{
    said?;
    Ok(Told::Done)
}
