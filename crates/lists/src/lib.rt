// The checks of a list of numbers, each a yes or no.

#![tactic(auto)]

ghost use Rattle.std.specs.Prelude.{◌≡◌, suc, pred, length, get_or, ltb, leb};
ghost use Rattle.rows.specs.Tables.{any};
ghost use Rattle.lists.specs.Outside.{outside};

// The numbers that are read before a search may end. A block is read to its end, so that the loop takes two numbers at once.
const BLOCK: usize = 16;

// Whether a number of a block is below `least` or above `most`.
fn block_outside(block: &[u64], least: u64, most: u64) -> bool
    ensures { result ≡ any (length block.now) (λ i. outside least most (get_or block.now i 0)) }
{
    block
        .iter()
        .fold(false, |found, &y| found | (y < least || most < y))
}

// Whether a number of the list is. Every call checks the steps of its sheet.
pub fn any_outside(list: &[u64], least: u64, most: u64) -> bool
    ensures { result ≡ any (length list.now) (λ i. outside least most (get_or list.now i 0)) }
{
    for block in list.chunks(BLOCK) {
        if block_outside(block, least, most) {
            return true;
        }
    }
    false
}

// Whether a number of a block is above `most`.
fn block_above(block: &[u64], most: u64) -> bool
    ensures { result ≡ any (length block.now) (λ i. ltb most (get_or block.now i 0)) }
{
    block.iter().fold(false, |found, &y| found | (most < y))
}

// Whether a number of the list is above `most`.
pub fn any_above(list: &[u64], most: u64) -> bool
    ensures { result ≡ any (length list.now) (λ i. ltb most (get_or list.now i 0)) }
{
    for block in list.chunks(BLOCK) {
        if block_above(block, most) {
            return true;
        }
    }
    false
}

// Whether a number of the list is no higher than the one before it.
pub fn any_fall(list: &[u64]) -> bool
    ensures { result ≡ any (pred (length list.now)) (λ j. leb (get_or list.now (suc j) 0) (get_or list.now j 0)) }
{
    !list.is_sorted_by(|before, after| before < after)
}
