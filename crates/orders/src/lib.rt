// Commands 06 to 0C.

#![tactic(auto)]

ghost use Rattle.std.specs.Prelude.{◌≡◌, length};
ghost use Rattle.register.specs.Register.{issue_answer, issue_leaves, withdraw_answer, withdraw_leaves};
ghost use Rattle.rows.specs.Rows.{rows_of};
ghost use Rattle.walk.specs.Answers.{said_by};
ghost use Rattle.walk.specs.OurEngine.{walk_result};
ghost use Rattle.answers.specs.OrderAnswers.{answer_said};
ghost use Rattle.machine.specs.Machine.{machine_in, RoomLengths};
ghost use Rattle.machine.specs.Transitions.{transition_by, transition_of};
ghost use Rattle.machine.specs.OrderCalls.{reading_of, call_of};

use answers::{OrderRefusal, Told};
use commands::Order;
use entries::Layout;
use sheet::Brought;
use walk::Walk;

// What an order answers, with the walk handed back.
#[derive(Clone, Copy)]
pub struct Response {
    pub answer: Result<Told, OrderRefusal>,
    pub walk: Walk,
}

// Issue writes the register alone.
fn issue(walk: Walk, register: &mut [u8], number: u8) -> Response
    ensures walk { result.walk ≡ walk }
    ensures says { answer_said result.answer ≡ said_by (issue_answer register.old number) }
    ensures leaves { register.new ≡ issue_leaves register.old number }
{
    let said = issuing::issue(register, number);
    Response {
        answer: answers::of_register(said),
        walk,
    }
}

// So does withdraw.
fn withdraw(walk: Walk, register: &mut [u8], number: u8) -> Response
    ensures walk { result.walk ≡ walk }
    ensures says { answer_said result.answer ≡ said_by (withdraw_answer register.old number) }
    ensures leaves { register.new ≡ withdraw_leaves register.old number }
{
    let said = issuing::withdraw(register, number);
    Response {
        answer: answers::of_register(said),
        walk,
    }
}

// Value and delta only read the rooms. Another order reads nothing there.
fn read(
    order: Order,
    walk: Walk,
    brought: &Brought<'_>,
    register: &[u8],
    defaults: &[u64],
    premiums: &[u64],
) -> Response
    requires { (length defaults.now ≡ 1134) × (length premiums.now ≡ 1134) }
    ensures { record { said = answer_said result.answer; walk = result.walk; rows = rows_of defaults.now premiums.now }
        ≡ walk_result (reading_of order brought.now register.now walk
        (rows_of defaults.now premiums.now)) }
{
    match order {
        Order::Value { tranche, count } => {
            let reply = rooms::value(walk, brought, register, defaults, premiums, tranche, count);
            Response {
                answer: answers::of_value(reply.answer),
                walk: reply.walk,
            }
        }
        Order::Delta { tranche, count } => {
            let reply = rooms::hedge_ratio(
                walk, brought, register, defaults, premiums, tranche, count,
            );
            Response {
                answer: answers::of_hedge_ratio(reply.answer),
                walk: reply.walk,
            }
        }
        _ => Response {
            answer: Ok(Told::Done),
            walk,
        },
    }
}

// The call of the walk that an order makes: open, back or a reading.
fn call(
    order: Order,
    walk: Walk,
    brought: &Brought<'_>,
    register: &[u8],
    defaults: &mut [u64],
    premiums: &mut [u64],
) -> Response
    requires { (length defaults.old ≡ 1134) × (length premiums.old ≡ 1134) }
    ensures { record { said = answer_said result.answer; walk = result.walk; rows = rows_of defaults.new premiums.new }
        ≡ walk_result (call_of order brought.now register.now walk
        (rows_of defaults.old premiums.old)) }
{
    match order {
        Order::Open => {
            let reply = rooms::open(walk, brought, register, defaults, premiums);
            Response {
                answer: answers::of_open(reply.answer),
                walk: reply.walk,
            }
        }
        Order::Back(count) => {
            let reply = rooms::back(walk, brought, register, defaults, premiums, count);
            Response {
                answer: answers::of_back(reply.answer),
                walk: reply.walk,
            }
        }
        _ => read(order, walk, brought, register, defaults, premiums),
    }
}

// Each order is one call, on what the machine holds.
pub fn act(
    order: Order,
    layout: Layout,
    walk: Walk,
    numbers: &[u64],
    register: &mut [u8],
    defaults: &mut [u64],
    premiums: &mut [u64],
    row: &mut [u64],
) -> Response
    requires { RoomLengths defaults.old premiums.old row.old }
    ensures lengths { RoomLengths defaults.new premiums.new row.new }
    ensures acts { transition_by result.answer
        (machine_in layout result.walk numbers.now register.new defaults.new premiums.new row.new)
        ≡ transition_of order
        (machine_in layout walk numbers.now register.old defaults.old premiums.old row.old) }
{
    let brought = Brought {
        sheet: layout.sheet,
        numbers,
    };
    match order {
        Order::Issue(number) => issue(walk, register, number),
        Order::Withdraw(number) => withdraw(walk, register, number),
        Order::Forward { step, count } => {
            let answer = rooms::forward(&brought, register, row, step, count);
            Response { answer, walk }
        }
        _ => call(order, walk, &brought, register, defaults, premiums),
    }
}
