// The commands of a deck, one after the other.

#![tactic(auto)]

ghost use Rattle.std.specs.Prelude.{◌≡◌, ◌+◌, ◌*◌, ◌≤◌, length, get_or};
ghost use Rattle.lines.specs.Text.{Wrote};
ghost use Rattle.walk.specs.Answers.{fresh};
ghost use Rattle.entries.specs.Draft.{empty_draft};
ghost use Rattle.entries.specs.Layouts.{elapsed_at, Blank};
ghost use Rattle.machine.specs.Machine.{machine_of, RoomLengths};
ghost use Rattle.listings.specs.ListingFrom.{listing_from};
ghost use Rattle.listings.specs.RegisterFrom.{register_from};

// Interprets a deck from its start, with no entries and a fresh walk, and answers how many bytes it printed. Among the numbers stands the start of
// the one period that a deck has, and behind it zeros for the fractions of one that enters none.
pub fn interpret(
    deck: &[u8],
    numbers: &mut [u64],
    register: &mut [u8],
    defaults: &mut [u64],
    premiums: &mut [u64],
    row: &mut [u64],
    out: &mut [u8],
) -> usize
    requires numbers_len { (length numbers.old ≡ elapsed_at + 3650) × (get_or numbers.old 7443 0 ≡ 1) × Blank numbers.old }
    requires room_lengths { RoomLengths defaults.old premiums.old row.old }
    requires deck_in_bounds { 32 * length deck.now + 96 ≤ length out.old }
    ensures writes { Wrote out.old 0
        (listing_from (length deck.now) deck.now 0
        (machine_of empty_draft register.old fresh defaults.old premiums.old row.old))
        out.new result }
    ensures within { result ≤ length out.old }
    ensures leaves { register.new ≡ register_from (length deck.now) deck.now 0
        (machine_of empty_draft register.old fresh defaults.old premiums.old row.old) }
{
    let mut progress = execution::start();
    while progress.at < deck.len() {
        let executed = execution::execute_and_print(
            deck, progress, numbers, register, defaults, premiums, row, out,
        );
        match executed {
            Ok(next) => progress = next,
            Err(stopped) => return stopped.end,
        }
    }
    progress.end
}
