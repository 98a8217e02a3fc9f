// One command, at the start of a deck, on a blank register.
ghost use Rattle.std.specs.Prelude.{◌<◌, ◌≤◌, length};

use super::*;
use entries::{NUMBERS, STARTS};
use sheet::{COUNTS_MOST, ROW_MOST};

// Its line left to be written where it is a refusal.
fn executed(deck: &[u8], out: &mut [u8]) -> Result<Progress, Stop>
    requires command { 0 < length deck.now }
    requires room { 96 ≤ length out.old }
{
    let mut numbers = [0u64; NUMBERS];
    numbers[STARTS] = 1;
    let mut register = [0xFFu8; 256];
    let mut defaults = [0u64; ROW_MOST];
    let mut premiums = [0u64; ROW_MOST];
    let mut row = [0u64; COUNTS_MOST];
    execute(
        deck,
        start(),
        &mut numbers,
        &mut register,
        &mut defaults,
        &mut premiums,
        &mut row,
        out,
    )
}

#[test]
fn a_refusal_prints_nothing(rt: HostRuntime) {
    // no command; a number cut off
    for (deck, number) in [([0x0E], 18), ([0x06], 19)] {
        let mut out = [b'-'; 96];
        match executed(&deck, &mut out) {
            Ok(_) => assert!(rt; false, "{number} is a refusal"),
            Err(stop) => assert_eq!(rt; u8::from(stop), number),
        }
        assert_eq!(rt; out, [b'-'; 96], "at {number}");
    }
}

#[test]
fn an_order_prints_its_line(rt: HostRuntime) {
    let mut out = [b'-'; 96];
    match executed(&[0x06, 7], &mut out) {
        Ok(to) => {
            assert_eq!(rt; to.at, 2);
            assert_eq!(rt; to.end, 8);
        }
        Err(_) => assert!(rt; false, "a number that is not issued"),
    }
    assert_eq!(rt; &out[..9], b"issue 0\n-".as_slice());
}
