// The lines of a listing, written into a lent buffer from a place on. Each function answers the place after what it wrote.

#![tactic(auto)]

ghost use Rattle.std.specs.Prelude.{◌+◌, ◌*◌, ◌≤◌, length};
ghost use Rattle.lines.specs.Text.{Wrote};
ghost use Rattle.answers.specs.OrderAnswers.{told_values, answer_said};
ghost use Rattle.render.specs.Lines.{fields, answer_text, order_line, deck_line, width};

use answers::{OrderRefusal, Told};
use commands::Order;

// An accepted order's values, each behind a space.
fn put_told(out: &mut [u8], at: usize, told: Told) -> usize
    requires { at + 63 ≤ length out.old }
    ensures writes { Wrote out.old at (fields (told_values told)) out.new result }
    ensures short { result ≤ at + 21 * length (told_values told) }
{
    match told {
        Told::Done => at,
        Told::Position(position) => lines::put_count(out, at, position as u64),
        Told::Worth(worth) => {
            let b = lines::put_count(out, at, worth.default);
            let c = lines::put_count(out, b, worth.premium);
            lines::put_field(out, c, worth.net)
        }
        Told::Ratio(ratio) => lines::put_field(out, at, ratio),
        Told::Probability(q) => lines::put_count(out, at, q),
    }
}

// A refusal, or 0 and the answer.
fn put_answer(out: &mut [u8], at: usize, answer: Result<Told, OrderRefusal>) -> usize
    requires { at + 66 ≤ length out.old }
    ensures writes { Wrote out.old at (answer_text (answer_said answer)) out.new result }
    ensures short { result ≤ at + width (answer_said answer) }
{
    match answer {
        Ok(told) => {
            let b = lines::put_decimal(out, at, 0);
            put_told(out, b, told)
        }
        Err(refusal) => lines::put_decimal(out, at, u8::from(refusal) as u64),
    }
}

// The line of an order.
pub fn put_line(
    out: &mut [u8],
    at: usize,
    order: Order,
    answer: Result<Told, OrderRefusal>,
) -> usize
    requires { at + 76 ≤ length out.old }
    ensures writes { Wrote out.old at (order_line order (answer_said answer)) out.new result }
    ensures short { result ≤ at + 10 + width (answer_said answer) }
{
    let b = words::put_word(out, at, order);
    let c = put_answer(out, b, answer);
    lines::put_end(out, c)
}

// The line that ends a run: a refusal and the offset of the command byte.
pub fn put_deck(out: &mut [u8], at: usize, number: u8, offset: usize) -> usize
    requires { at + 30 ≤ length out.old }
    ensures writes { Wrote out.old at (deck_line number offset) out.new result }
    ensures short { result ≤ at + 30 }
{
    let b = lines::put_bytes(out, at, b"deck ");
    let c = lines::put_decimal(out, b, number as u64);
    let d = lines::put_count(out, c, offset as u64);
    lines::put_end(out, d)
}
