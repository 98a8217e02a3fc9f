// Issue and withdraw with the byte that each leaves, and what a cut write may leave.

#![tactic(auto)]

use register::WriteRefusal;
use std::io;
use trial::place::Place;
use trial::{parts, print, registers};

// The number of an answer; an accepted call has 0.
fn number(answer: Result<(), WriteRefusal>) -> u8 {
    answer.err().map_or(0, u8::from)
}

// Issue over one byte and withdraw over another, in registers of a length.
fn both(
    rt: &impl Print,
    place: Place,
    value: u64,
    length: usize,
    unissued: u64,
    live: u64,
) -> io::Result<()> {
    let mut first = registers::register(unissued);
    let mut second = registers::register(live);
    let issued = issuing::issue(parts::first_mut(&mut first, length), 7);
    let withdrawn = issuing::withdraw(parts::first_mut(&mut second, length), 7);
    print!(rt; "{place} {value}")?;
    print::answer(rt, b" issue", number(issued))?;
    print::count(rt, first[7])?;
    print::answer(rt, b" withdraw", number(withdrawn))?;
    print::count(rt, second[7])?;
    print::end(rt)
}

// 2, 9, 10 and 17.
pub fn all(rt: &impl Print) -> io::Result<()> {
    both(rt, Place::RegisterLent, 255, 255, 0xFF, 0xA5)?;
    both(rt, Place::RegisterLent, 256, 256, 0xFF, 0xA5)?;
    both(rt, Place::RegisterLent, 257, 257, 0xFF, 0xA5)?;
    for byte in [0x00, 0xA4, 0xA5, 0xA6, 0xFE, 0xFF] {
        both(rt, Place::Byte, byte, 256, byte, byte)?;
    }
    Ok(())
}

// 1 where a write of new over old that power cuts may leave what is found.
fn cut(rt: &impl Print, old: u8, new: u8, bytes: [u8; 5]) -> io::Result<()> {
    for found in bytes {
        let may_be_left = register::may_be_left(old, new, found) as u8;
        println!(rt; "left {old} {new} {found} {may_be_left}")?;
    }
    Ok(())
}

pub fn cut_writes(rt: &impl Print) -> io::Result<()> {
    cut(rt, 0xA5, 0x00, [0x84, 0xA5, 0x00, 0xFF, 0x02])?;
    cut(rt, 0xFF, 0xA5, [0xAD, 0xFF, 0xA5, 0x21, 0x00])
}
