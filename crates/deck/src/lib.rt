// A whole deck: its commands are run one after the other, and what they print is written.

#![tactic(auto)]

ghost use Rattle.std.specs.Prelude.{◌≡◌};
ghost use Rattle.listings.specs.Withdrawals.{KeepsWithdrawn};
ghost use Rattle.deck.specs.Printing.{room as room_of, printout, printing, printing_on, register_left};

use commands::Stop;
use entries::{NUMBERS, STARTS};
use sheet::{COUNTS_MOST, ROW_MOST};

// The most bytes of a deck.
pub const MOST: usize = 65536;

// The output has not the room that any deck of that length fits in.
#[derive(Clone, Copy, PartialEq, Eq)]
pub struct NoRoom;

// The room for the listing of a deck of so many bytes.
#[tactic(auto, unfolding(crate::specs::Printing::room))]
pub fn room(bytes: usize) -> usize
    ensures { result ≡ room_of bytes }
{
    32 * bytes.min(MOST) + 96
}

// Runs a deck on a register, of any length, prints its listing at the start of out, and answers how many bytes it has.
pub fn run_on(deck: &[u8], register: &mut [u8], out: &mut [u8]) -> Result<usize, NoRoom>
    ensures prints { printout result out.new ≡ printing_on register.old deck.now out.old }
    ensures leaves { register.new ≡ register_left register.old deck.now out.old }
    ensures lasts { KeepsWithdrawn register.old register.new }
{
    if out.len() < room(deck.len()) {
        return Err(NoRoom);
    }
    if MOST < deck.len() {
        return Ok(render::put_deck(out, 0, u8::from(Stop::TooMany), MOST));
    }
    // the most entries of each list, and one period from step 1 on; rows as the largest sheet has them
    let mut numbers = [0u64; NUMBERS];
    numbers[STARTS] = 1;
    let mut defaults = [0u64; ROW_MOST];
    let mut premiums = [0u64; ROW_MOST];
    let mut row = [0u64; COUNTS_MOST];
    Ok(interpreter::interpret(
        deck,
        &mut numbers,
        register,
        &mut defaults,
        &mut premiums,
        &mut row,
        out,
    ))
}

// The same on a blank register of its own.
pub fn run(deck: &[u8], out: &mut [u8]) -> Result<usize, NoRoom>
    ensures { printout result out.new ≡ printing deck.now out.old }
{
    let mut register = [0xFFu8; 256];
    run_on(deck, &mut register, out)
}
