// One figure for a whole book (T-09): the exact totals of nominal times W, in one line of text.

#![tactic(auto)]

ghost use Rattle.std.specs.Prelude.{◌≡◌, ◌≤◌, length};
ghost use Rattle.lines.specs.Text.{Wrote};
ghost use Rattle.amounts.specs.Amounts.{figure_of, Proper};
ghost use Rattle.book.specs.Lines.{line_of};
ghost use Rattle.book.specs.Answers.{refusal_number, report_answer, report_leaves};
ghost use Rattle.book.specs.Promise.{BookRule, reported_by};

use totals::Totals;

// Why a book has no line.
#[derive(Clone, Copy, PartialEq, Eq)]
pub enum BookRefusal {
    // 2, length
    Length,
    // 28, book
    Book,
}

impl From<BookRefusal> for u8 {
    ghost from_gives = { λ refusal number. number ≡ refusal_number refusal };

    fn from(refusal: BookRefusal) -> u8 {
        match refusal {
            BookRefusal::Length => 2,
            BookRefusal::Book => 28,
        }
    }
}

// The bytes that are lent for the line.
const SIZE: usize = 96;

// Stores the line: the one place that writes.
fn store_line(out: &mut [u8], totals: Totals) -> usize
    requires size { length out.old ≡ 96 }
    requires figures { Proper totals.total × Proper totals.gains × Proper totals.losses }
    requires room { length (line_of (figure_of totals.total) (figure_of totals.gains) (figure_of totals.losses)) ≤ 96 }
    ensures { Wrote out.old 0
        (line_of (figure_of totals.total) (figure_of totals.gains) (figure_of totals.losses)) out.new result }
{
    let total = totals.total;
    let gains = totals.gains;
    let losses = totals.losses;
    let named = lines::put_bytes(out, 0, b"book 0");
    let first = amounts::put_figure(out, named, total);
    let second = amounts::put_figure(out, first, gains);
    let third = amounts::put_figure(out, second, losses);
    lines::put_end(out, third)
}

// The totals of a book, at the start of what is lent: the bytes of their line. Refused by its length, then by the book, and then nothing is written.
#[tactic(auto, using(crate::proofs::Promise::book_rule))]
pub fn total(nominals: &[i64], values: &[i64], out: &mut [u8]) -> Result<usize, BookRefusal>
    ensures answer { result ≡ report_answer nominals.now values.now out.old }
    ensures leaves { out.new ≡ report_leaves nominals.now values.now out.old }
    ensures rule { BookRule nominals.now values.now out.old (reported_by result out.new) }
{
    if out.len() != SIZE {
        return Err(BookRefusal::Length);
    }
    if !totals::is_taken(nominals, values) {
        return Err(BookRefusal::Book);
    }
    Ok(store_line(out, totals::add_up(nominals, values)))
}
