// Turns (T-11), by the call on numbers: the steps left, what is answered, and the places and steps left after it.

#![tactic(auto)]

use places::{NotTaken, Served};
use std::io;
use trial::{parts, print};

// The sum of all bytes.
fn sum_of(list: &[u8]) -> u64 {
    list.iter()
        .fold(0, |sum: u64, byte| sum.saturating_add(u64::from(*byte)))
}

// The answer; for a call that was taken, how many places it wrote and the place served last.
fn told(rt: &impl Print, answer: Result<Served, NotTaken>) -> io::Result<()> {
    match answer {
        Ok(turns) => {
            let Served { count, last } = turns;
            print!(rt; " answer 0 written {count} last {last}")
        }
        Err(refused) => print::answer(rt, b" answer", u8::from(refused)),
    }
}

// A call on a list of so many bytes FF: of what is in it after the call the first 18, and the sum of all.
// Answers the place that the next call is given.
fn turns(rt: &impl Print, left: &mut [u16], place: usize, lent: usize) -> io::Result<usize> {
    let mut list = [0xFF; 65536];
    print!(rt; "turns steps")?;
    print::counts(rt, left)?;
    print!(rt; " place {place} lent {lent}")?;
    let answer = places::serve(left, place, parts::first_mut(&mut list, lent));
    told(rt, answer)?;
    let shown = parts::first(&list, lent);
    print!(rt; " list")?;
    print::counts(rt, parts::first(shown, 18))?;
    let sum = sum_of(shown);
    print!(rt; " sum {sum} left")?;
    print::counts(rt, left)?;
    print::end(rt)?;
    Ok(answer.map_or(place, |turns| turns.last))
}

// So many walks, all with as many steps left.
fn alike(rt: &impl Print, walks: usize, steps: u16, place: usize, lent: usize) -> io::Result<()> {
    let mut left = [steps; 17];
    turns(rt, parts::first_mut(&mut left, walks), place, lent)?;
    Ok(())
}

// The order: after the place, round the table, past walks that have none left; and where it ends.
pub fn orders(rt: &impl Print) -> io::Result<()> {
    turns(rt, &mut [2, 2, 2], 0, 3)?;
    turns(rt, &mut [2, 2, 2], 1, 3)?;
    turns(rt, &mut [2, 2, 2], 2, 3)?;
    turns(rt, &mut [2, 2, 2], 2, 1)?;
    turns(rt, &mut [2, 2, 2], 1, 2)?;
    turns(rt, &mut [2, 2, 2], 0, 4)?;
    turns(rt, &mut [0, 3, 0], 1, 5)?;
    turns(rt, &mut [3, 1, 0], 2, 9)?;
    turns(rt, &mut [1, 0, 2, 1], 0, 9)?;
    turns(rt, &mut [1, 0, 2, 1], 1, 2)?;
    turns(rt, &mut [0, 0, 0, 5], 1, 2)?;
    turns(rt, &mut [5, 0, 0, 0], 1, 2)?;
    turns(rt, &mut [0, 0, 0], 1, 4)?;
    turns(rt, &mut [2, 2, 2], 1, 0)?;
    alike(rt, 2, 20, 0, 29)
}

// One table, from call to call. The fourth call is refused, the second and the last write nothing.
pub fn calls(rt: &impl Print) -> io::Result<()> {
    let mut left = [9, 2, 1, 3];
    let first = turns(rt, &mut left, 3, 3)?;
    let second = turns(rt, &mut left, first, 0)?;
    let third = turns(rt, &mut left, second, 3)?;
    let fourth = turns(rt, &mut left, third, 65536)?;
    let fifth = turns(rt, &mut left, fourth, 3)?;
    let sixth = turns(rt, &mut left, fifth, 9)?;
    turns(rt, &mut left, sixth, 9)?;
    Ok(())
}

// 29: each number at both sides of its limit, alone and beside others.
pub fn limits(rt: &impl Print) -> io::Result<()> {
    alike(rt, 0, 1, 0, 3)?;
    alike(rt, 1, 1, 0, 3)?;
    alike(rt, 16, 1, 15, 18)?;
    alike(rt, 17, 1, 0, 3)?;
    alike(rt, 17, 1, 16, 3)?;
    turns(rt, &mut [1, 1, 1], 3, 4)?;
    turns(rt, &mut [1, 1, 1], 4, 4)?;
    turns(rt, &mut [1, 1, 1], 0xFFFF_FFFF_FFFF_FFFF, 4)?;
    turns(rt, &mut [3650, 1, 1], 2, 4)?;
    turns(rt, &mut [3651, 1, 1], 2, 4)?;
    turns(rt, &mut [1, 3650, 1], 2, 4)?;
    turns(rt, &mut [1, 3651, 1], 2, 4)?;
    turns(rt, &mut [1, 1, 3650], 2, 4)?;
    turns(rt, &mut [1, 1, 3651], 2, 4)?;
    turns(rt, &mut [65535, 65535, 65535], 2, 4)?;
    turns(rt, &mut [1, 1, 1], 2, 65535)?;
    turns(rt, &mut [1, 1, 1], 2, 65536)?;
    alike(rt, 16, 3650, 15, 58400)?;
    alike(rt, 16, 3650, 15, 65535)?;
    alike(rt, 17, 3651, 17, 65536)?;
    alike(rt, 0, 0, 0, 0)
}
