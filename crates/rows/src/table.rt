// The rows of a table, of names + 1 entries each, one after another.
ghost use Rattle.std.specs.Prelude.{◌≡◌, ℕ, suc, ◌*◌, ◌<◌, length};
ghost use Rattle.std.specs.Fork.{slice_chunk, AcceptsAt, ChangesAt};

// Lends each row to the work, with its tranche; the index is the last.
pub fn fill_rows<F: Fn(usize, &mut [u64])>(
    names: usize,
    tranches: usize,
    table: &mut [u64],
    work: F,
)
    requires table_long { length table.old ≡ suc tranches * suc names }
    requires rows_taken { (j : ℕ) → j < suc tranches → AcceptsAt F.Fn work j (slice_chunk table.old (suc names) j) }
    ensures { (j : ℕ) → j < suc tranches
        → ChangesAt F.Fn work j (slice_chunk table.old (suc names) j) (slice_chunk table.new (suc names) j) }
{
    let width = names + 1;
    for j in 0..tranches + 1 {
        let a = j * width;
        work(j, &mut table[a..a + width]);
    }
}
