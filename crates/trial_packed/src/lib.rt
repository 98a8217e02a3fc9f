// Packed coupons: read, and written with the bytes that are left.

#![tactic(auto)]

use std::io;
use trial::{parts, print};

fn read(rt: &impl Print, image: &[u8]) -> io::Result<()> {
    print!(rt; "packed")?;
    print::counts(rt, image)?;
    match packed::read(image) {
        Ok(coupon) => println!(rt; " read 0 {coupon}"),
        Err(refusal) => {
            print::answer(rt, b" read", refusal.into())?;
            print::end(rt)
        }
    }
}

// Over so many bytes FF, five at most.
fn write(rt: &impl Print, coupon: u64, length: usize) -> io::Result<()> {
    let mut image = [0xFF; 5];
    let written = packed::write(parts::first_mut(&mut image, length), coupon);
    let number = written.err().map_or(0, u8::from);
    print!(rt; "coupon {coupon} lent {length}")?;
    print::answer(rt, b" write", number)?;
    print::counts(rt, parts::first(&image, length))?;
    print::end(rt)
}

// 2, 30 and 8.
pub fn readings(rt: &impl Print) -> io::Result<()> {
    read(rt, &[0x00, 0x00, 0x00, 0x00])?;
    read(rt, &[0x01, 0x00, 0x00, 0x00])?;
    read(rt, &[0x01, 0x23, 0x45, 0x67])?;
    read(rt, &[0x09, 0x99, 0x99, 0x99])?;
    read(rt, &[0x10, 0x00, 0x00, 0x00])?;
    read(rt, &[0x10, 0x00, 0x00, 0x01])?;
    read(rt, &[0x99, 0x99, 0x99, 0x99])?;
    read(rt, &[0x10, 0x00, 0x00, 0x0A])?;
    read(rt, &[0x10, 0x00, 0x00, 0xA0])?;
    read(rt, &[0x9A, 0x00, 0x00, 0x00])?;
    read(rt, &[0xA0, 0x00, 0x00, 0x00])?;
    read(rt, &[0x09, 0x0A, 0x00, 0x00])?;
    read(rt, &[0x09, 0x00, 0xA0, 0x00])?;
    read(rt, &[0xFF, 0xFF, 0xFF, 0xFF])?;
    read(rt, &[0x01, 0x00, 0x00])?;
    read(rt, &[0x01, 0x00, 0x00, 0x00, 0x00])?;
    read(rt, b"")?;
    read(rt, &[0xAA, 0xAA, 0xAA])?;
    read(rt, &[0xAA, 0xAA, 0xAA, 0xAA, 0xAA])
}

// 2 and 8.
pub fn writings(rt: &impl Print) -> io::Result<()> {
    let lent_four = [
        0,
        1,
        1_234_567,
        9_999_999,
        10_000_000,
        10_000_001,
        0xFFFF_FFFF_FFFF_FFFF,
    ];
    for coupon in lent_four {
        write(rt, coupon, 4)?;
    }
    write(rt, 1, 3)?;
    write(rt, 1, 5)?;
    write(rt, 10_000_001, 3)?;
    write(rt, 10_000_001, 5)?;
    write(rt, 1, 0)
}
