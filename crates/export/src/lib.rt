// The calls for programs in C and Rust. Each answers 0 or the number of a refusal, as document 01 or a request has it, with the values as numbers.
// A slice is a pointer and a length. No call asks anything of its caller but that slices are what they say.

#![tactic(auto)]

ghost use Rattle.std.specs.Prelude.{◌≡◌, ◌<◌, length, get_or};
ghost use Rattle.deck.specs.Printing.{room, none, printing, printing_on, register_left};
ghost use Rattle.register.specs.Register.{issue_answer, issue_leaves, withdraw_answer, withdraw_leaves};
ghost use Rattle.sheet.specs.Spans.{brought_in};
ghost use Rattle.walk.specs.Answers.{said_of, said_by};
ghost use Rattle.rows.specs.Rows.{rows_of};
ghost use Rattle.walk.specs.Calls.{open_call, back_call, value_call, ratio_call, forward_call};
ghost use Rattle.packed.specs.Promise.{ours};
ghost use Rattle.book.specs.Promise.{ours as our_book};
ghost use Rattle.fairness.specs.Promise.{ours as our_turns};
ghost use Rattle.export.specs.Bytes.{bytes_in};
ghost use Rattle.returns.specs.Returns.{opened, moved, valued, hedged, returned};

use returns::{Allotted, Booked, Hedged, Moved, Opened, Unpacked, Valued};
use sheet::{Brought, Sheet};
use turns::Turn;
use walk::Walk;

// The version of these calls, raised when one of them, a struct or a number changes; 1 had no function that tells it.
const VERSION: u64 = 7;

#[unsafe(no_mangle)]
pub extern "C" fn lavroudem_version() -> u64
    ensures { result ≡ 7 }
{
    VERSION
}

// The same by name, which a program that is built for another version does not find.
#[unsafe(no_mangle)]
pub extern "C" fn lavroudem_version_7() -> u64
    ensures { result ≡ 7 }
{
    VERSION
}

// Makes an unissued number live.
#[unsafe(no_mangle)]
pub extern "C" fn lavroudem_issue(register: &mut [u8], number: u8) -> u8
    ensures said { result ≡ (said_by (issue_answer register.old number)).number }
    ensures leaves { register.new ≡ issue_leaves register.old number }
{
    issuing::issue(register, number).err().map_or(0, u8::from)
}

// Ends a live number for good.
#[unsafe(no_mangle)]
pub extern "C" fn lavroudem_withdraw(register: &mut [u8], number: u8) -> u8
    ensures said { result ≡ (said_by (withdraw_answer register.old number)).number }
    ensures leaves { register.new ≡ withdraw_leaves register.old number }
{
    issuing::withdraw(register, number)
        .err()
        .map_or(0, u8::from)
}

// Starts a walk at the last step, with both rows zero.
#[unsafe(no_mangle)]
pub extern "C" fn lavroudem_open(
    walk: Walk,
    sheet: Sheet,
    numbers: &[u64],
    register: &[u8],
    defaults: &mut [u64],
    premiums: &mut [u64],
) -> Opened
    ensures { opened result (rows_of defaults.new premiums.new)
        ≡ returned 0 (open_call (brought_in sheet numbers.now) register.now walk
        (rows_of defaults.old premiums.old)) }
{
    walk.open(&Brought { sheet, numbers }, register, defaults, premiums)
        .into()
}

// Takes both rows count steps back.
#[unsafe(no_mangle)]
pub extern "C" fn lavroudem_back(
    walk: Walk,
    sheet: Sheet,
    numbers: &[u64],
    register: &[u8],
    defaults: &mut [u64],
    premiums: &mut [u64],
    count: usize,
) -> Moved
    ensures { moved result (rows_of defaults.new premiums.new)
        ≡ returned 1 (back_call (brought_in sheet numbers.now) register.now walk
        (rows_of defaults.old premiums.old) count) }
{
    walk.back(
        &Brought { sheet, numbers },
        register,
        defaults,
        premiums,
        count,
    )
    .into()
}

// D, A and W of a tranche at a count. Tranche r is the index.
#[unsafe(no_mangle)]
pub extern "C" fn lavroudem_value(
    walk: Walk,
    sheet: Sheet,
    numbers: &[u64],
    register: &[u8],
    defaults: &[u64],
    premiums: &[u64],
    tranche: usize,
    count: usize,
) -> Valued
    ensures { valued result (rows_of defaults.now premiums.now)
        ≡ returned 3 (value_call (brought_in sheet numbers.now) register.now walk
        (rows_of defaults.now premiums.now) tranche count) }
{
    walk.value(
        &Brought { sheet, numbers },
        register,
        defaults,
        premiums,
        tranche,
        count,
    )
    .into()
}

// The ratio of a tranche's jump to the index's at a count, in millionths.
#[unsafe(no_mangle)]
pub extern "C" fn lavroudem_hedge_ratio(
    walk: Walk,
    sheet: Sheet,
    numbers: &[u64],
    register: &[u8],
    defaults: &[u64],
    premiums: &[u64],
    tranche: usize,
    count: usize,
) -> Hedged
    ensures { hedged result (rows_of defaults.now premiums.now)
        ≡ returned 1 (ratio_call (brought_in sheet numbers.now) register.now walk
        (rows_of defaults.now premiums.now) tranche count) }
{
    walk.hedge_ratio(
        &Brought { sheet, numbers },
        register,
        defaults,
        premiums,
        tranche,
        count,
    )
    .into()
}

// The distribution of the default count after so many steps, from no default. It has no walk, and answers the number alone.
#[unsafe(no_mangle)]
pub extern "C" fn lavroudem_forward(
    sheet: Sheet,
    numbers: &[u64],
    register: &[u8],
    row: &mut [u64],
    steps: usize,
) -> u8
    ensures said { result
        ≡ (said_of (forward_call (brought_in sheet numbers.now) register.now row.old steps).answer).number }
    ensures leaves { row.new
        ≡ (forward_call (brought_in sheet numbers.now) register.now row.old steps).row }
{
    returns::number_in(&walk::forward(&Brought { sheet, numbers }, register, row, steps))
}

// The coupon of a packed image.
#[unsafe(no_mangle)]
pub extern "C" fn lavroudem_read_packed(image: &[u8]) -> Unpacked
    ensures said { result.number ≡ (ours.read image.now).number }
    ensures told { result.coupon ≡ get_or (ours.read image.now).values 0 0 }
{
    match packed::read(image) {
        Ok(coupon) => Unpacked { number: 0, coupon },
        Err(refusal) => Unpacked {
            number: refusal.into(),
            coupon: 0,
        },
    }
}

// Writes the packed image of a coupon over what is lent.
#[unsafe(no_mangle)]
pub extern "C" fn lavroudem_write_packed(image: &mut [u8], coupon: u64) -> u8
    ensures said { result ≡ (ours.write image.old coupon).number }
    ensures leaves { image.new ≡ (ours.write image.old coupon).left }
{
    match packed::write(image, coupon) {
        Ok(()) => 0,
        Err(refusal) => refusal.into(),
    }
}

// Writes the exact totals of a book, in one line, at the start of what is lent.
#[unsafe(no_mangle)]
pub extern "C" fn lavroudem_book(nominals: &[i64], values: &[i64], out: &mut [u8]) -> Booked
    ensures said { result.number ≡ (our_book nominals.now values.now out.old).number }
    ensures told { result.length ≡ get_or (our_book nominals.now values.now out.old).values 0 0 }
    ensures leaves { out.new ≡ (our_book nominals.now values.now out.old).left }
{
    match book::total(nominals, values, out) {
        Ok(length) => Booked { number: 0, length },
        Err(refusal) => Booked {
            number: refusal.into(),
            length: 0,
        },
    }
}

// Fills a list with the places of the walks whose turn it is, and takes a step off for each; its answer always has the place for the next call.
#[unsafe(no_mangle)]
pub extern "C" fn lavroudem_turns(table: &mut [Turn], place: usize, list: &mut [u8]) -> Allotted
    ensures { (result.number ≡ (our_turns table.old place list.old).number)
        × ((result.count ≡ get_or (our_turns table.old place list.old).values 0 0)
        × ((result.place ≡ (our_turns table.old place list.old).place)
        × ((table.new ≡ (our_turns table.old place list.old).table)
        × (list.new ≡ (our_turns table.old place list.old).list)))) }
{
    let answer = turns::serve(table, place, list);
    returns::allotted_by(answer, place)
}

// The room that the listing of a deck of so many bytes may take.
#[unsafe(no_mangle)]
pub extern "C" fn lavroudem_deck_room(bytes: usize) -> usize
    ensures { result ≡ room bytes }
{
    deck::room(bytes)
}

// Prints the listing of a deck at the start of out, and answers its bytes; or 2^64 - 1, where out is shorter than the deck's room and nothing is
// written.
#[unsafe(no_mangle)]
pub extern "C" fn lavroudem_run_deck(deck: &[u8], out: &mut [u8]) -> usize
    ensures said { result ≡ bytes_in (printing deck.now out.old).answer }
    ensures leaves { out.new ≡ (printing deck.now out.old).out }
    ensures apart { result ≡ bytes_in none → length out.old < room (length deck.now) }
{
    deck::run(deck, out).unwrap_or(usize::MAX)
}

// The same on a register that is lent, of any length: it is left as the deck's issues and withdrawals leave it, and as it was where there is no room.
#[unsafe(no_mangle)]
pub extern "C" fn lavroudem_run_on(deck: &[u8], register: &mut [u8], out: &mut [u8]) -> usize
    ensures said { result ≡ bytes_in (printing_on register.old deck.now out.old).answer }
    ensures prints { out.new ≡ (printing_on register.old deck.now out.old).out }
    ensures leaves { register.new ≡ register_left register.old deck.now out.old }
    ensures apart { result ≡ bytes_in none → length out.old < room (length deck.now) }
{
    deck::run_on(deck, register, out).unwrap_or(usize::MAX)
}
