// Books (T-09): what is lent, its line, and the bytes that are left.

#![tactic(auto)]

use book::BookRefusal;
use std::io;
use trial::{parts, print};

// The most that a net value W may be, one less and one more.
const MOST: i64 = 200_000_000_000_000_000;

const UNDER: i64 = MOST - 1;

const OVER: i64 = MOST + 1;

// A position of a book.
#[derive(Clone, Copy)]
pub struct Position {
    pub nominal: i64,
    pub value: i64,
}

fn at(nominal: i64, value: i64) -> Position {
    Position { nominal, value }
}

// Each byte times its place, counted from 1.
fn weighed(out: &[u8]) -> u64 {
    let mut sum: u64 = 0;
    for (byte, place) in out.iter().zip(1..) {
        sum = sum.saturating_add((*byte as u64).saturating_mul(place));
    }
    sum
}

// What the call answers, and its line.
fn told(rt: &impl Print, answer: Result<usize, BookRefusal>, out: &[u8]) -> io::Result<()> {
    match answer {
        Ok(bytes) => {
            println!(rt; " answer 0 bytes {bytes}")?;
            print::text(rt, parts::first(out, bytes))
        }
        Err(refusal) => {
            print::answer(rt, b" answer", refusal.into())?;
            print::end(rt)
        }
    }
}

// A book on so many bytes FF, with so many nominals and values: one position first, and others alike.
fn book(
    rt: &impl Print,
    lent: usize,
    nominals: usize,
    values: usize,
    first: Position,
    others: Position,
) -> io::Result<()> {
    let mut all_nominals = [others.nominal; 4097];
    let mut all_values = [others.value; 4097];
    let mut room = [0xFF; 97];
    all_nominals[0] = first.nominal;
    all_values[0] = first.value;
    print!(rt; "book lent {lent} positions {nominals} {values}")?;
    let answer = book::total(
        parts::first(&all_nominals, nominals),
        parts::first(&all_values, values),
        parts::first_mut(&mut room, lent),
    );
    told(rt, answer, &room)?;
    let left = weighed(parts::first(&room, lent));
    println!(rt; "left {left}")
}

// Signs, and a line of 28 bytes.
pub fn signs(rt: &impl Print) -> io::Result<()> {
    book(rt, 96, 0, 0, at(0, 0), at(0, 0))?;
    book(rt, 96, 1, 1, at(1, 1), at(0, 0))?;
    book(rt, 96, 1, 1, at(-1, 1), at(0, 0))?;
    book(rt, 96, 1, 1, at(1, -1), at(0, 0))?;
    book(rt, 96, 1, 1, at(-1, -1), at(0, 0))?;
    book(rt, 96, 2, 2, at(1, 5), at(-1, 5))?;
    book(rt, 96, 3, 3, at(2, -3), at(0, -5))?;
    book(rt, 96, 2, 2, at(1_000_000, 1), at(-1_000, 1))
}

// Carried and borrowed at billions and at their squares, at 64 bits, and books of the most positions.
pub fn limbs(rt: &impl Print) -> io::Result<()> {
    book(rt, 96, 2, 2, at(1, 999_999_999), at(1, 1))?;
    book(rt, 96, 2, 2, at(1, 1_000_000_000), at(0, 0))?;
    book(rt, 96, 2, 2, at(1, 1_000_000_000), at(-1, 1))?;
    book(rt, 96, 2, 2, at(-1, 1_000_000_000), at(1, 1))?;
    book(rt, 96, 2, 2, at(1_000, 1_000_000_000_000_000), at(-1, 1))?;
    book(rt, 96, 2, 2, at(-1_000, 1_000_000_000_000_000), at(1, 1))?;
    book(rt, 96, 2, 2, at(1_000, 1_000_000_000_000_000), at(0, 7))?;
    book(rt, 96, 2, 2, at(1_000_000, 1_000_000_000_000), at(1, 1))?;
    book(rt, 96, 2, 2, at(999_999, 1_000_001_000_001), at(0, 0))?;
    book(rt, 96, 2, 2, at(999_999, 1_000_001_000_001), at(1, 1))?;
    book(rt, 96, 6, 6, at(1, UNDER), at(1, UNDER))?;
    book(rt, 96, 1, 1, at(1_000_000, 1_000_000_001_000), at(0, 0))?;
    book(
        rt,
        96,
        2,
        2,
        at(1_000_000, 9_223_372_036_854),
        at(1, 775_808),
    )?;
    book(
        rt,
        96,
        2,
        2,
        at(-1_000_000, 9_223_372_036_854),
        at(-1, 775_809),
    )?;
    book(
        rt,
        96,
        2,
        2,
        at(1_000_000, 18_446_744_073_709),
        at(1, 551_616),
    )?;
    book(rt, 96, 2, 2, at(1_000_000, MOST), at(-1_000_000, MOST))?;
    book(rt, 96, 4096, 4096, at(1_000_000, MOST), at(1_000_000, MOST))?;
    book(
        rt,
        96,
        4096,
        4096,
        at(-1_000_000, MOST),
        at(1_000_000, -MOST),
    )?;
    book(
        rt,
        96,
        4096,
        4096,
        at(-1_000_000, -MOST),
        at(1_000_000, -MOST),
    )?;
    book(
        rt,
        96,
        4096,
        4096,
        at(-1_000_000, MOST),
        at(1_000_000, MOST),
    )?;
    book(rt, 96, 4095, 4095, at(1, 1), at(-1, -1))
}

// 28: more than there may be, and lists of unlike length.
pub fn lengths(rt: &impl Print) -> io::Result<()> {
    book(rt, 96, 4097, 4097, at(0, 0), at(0, 0))?;
    book(rt, 96, 4096, 4095, at(0, 0), at(0, 0))?;
    book(rt, 96, 4095, 4096, at(0, 0), at(0, 0))?;
    book(rt, 96, 1, 2, at(1, 1), at(1, 1))?;
    book(rt, 96, 2, 1, at(1, 1), at(1, 1))?;
    book(rt, 96, 0, 1, at(1, 1), at(0, 0))
}

// 28: nominals and values beyond their limits.
pub fn ranges(rt: &impl Print) -> io::Result<()> {
    book(rt, 96, 1, 1, at(1_000_001, 1), at(0, 0))?;
    book(rt, 96, 1, 1, at(-1_000_001, 1), at(0, 0))?;
    book(rt, 96, 1, 1, at(1, OVER), at(0, 0))?;
    book(rt, 96, 1, 1, at(1, -OVER), at(0, 0))?;
    book(rt, 96, 1, 1, at(1_000_001, 0), at(0, 0))?;
    book(rt, 96, 1, 1, at(0, OVER), at(0, 0))?;
    book(rt, 96, 2, 2, at(1, 1), at(1_000_001, 0))?;
    book(rt, 96, 2, 2, at(1, 1), at(0, OVER))?;
    book(rt, 96, 1, 1, at(i64::MIN, 1), at(0, 0))?;
    book(rt, 96, 1, 1, at(1, i64::MIN), at(0, 0))?;
    book(rt, 96, 1, 1, at(i64::MAX, 1), at(0, 0))?;
    book(rt, 96, 1, 1, at(1, i64::MAX), at(0, 0))
}

// 2, also beside 28.
pub fn rooms(rt: &impl Print) -> io::Result<()> {
    book(rt, 95, 1, 1, at(1, 1), at(0, 0))?;
    book(rt, 97, 1, 1, at(1, 1), at(0, 0))?;
    book(rt, 0, 1, 1, at(1, 1), at(0, 0))?;
    book(rt, 0, 0, 0, at(0, 0), at(0, 0))?;
    book(rt, 95, 1, 2, at(1_000_001, 1), at(0, 0))?;
    book(rt, 97, 4097, 4097, at(0, 0), at(0, 0))?;
    book(rt, 97, 1, 1, at(1, -OVER), at(0, 0))
}
