// The words of a listing.

#![tactic(auto)]

ghost use Rattle.std.specs.Prelude.{◌≡◌, ◌+◌, ◌≤◌, length};
ghost use Rattle.lines.specs.Text.{Wrote};
ghost use Rattle.words.specs.Words.{word};

use commands::Order;

// The word of an order, with its space.
#[tactic(auto, unfolding(crate::specs::Words::word))]
fn word(order: Order) -> &'static [u8]
    ensures word { result.now ≡ word order }
    ensures short { length result.now ≤ 9 }
{
    match order {
        Order::Issue(_) => b"issue ",
        Order::Withdraw(_) => b"withdraw ",
        Order::Open => b"open ",
        Order::Back(_) => b"back ",
        Order::Value { .. } => b"value ",
        Order::Delta { .. } => b"delta ",
        Order::Forward { .. } => b"forward ",
    }
}

// Writes the word of an order.
pub fn put_word(out: &mut [u8], at: usize, order: Order) -> usize
    requires { at + 9 ≤ length out.old }
    ensures { Wrote out.old at (word order) out.new result }
{
    lines::put_bytes(out, at, word(order))
}
