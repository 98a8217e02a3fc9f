// The registers that a trial lends.
use crate::print;

// A register of withdrawn numbers but for the sheet's.
pub fn register(seventh: u64) -> [u8; 257] {
    let mut register = [0; 257];
    register[7] = print::byte(seventh);
    register
}
