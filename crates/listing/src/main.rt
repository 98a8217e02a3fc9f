// Reads a deck from standard input and prints its listing. What goes wrong is told on standard error, and the status is 0 all the same.

#![tactic(auto)]

ghost use Rattle.std.specs.Prelude.{◌≡◌, ◌≤◌, IfOk, length};

use std::io;
use std::io::Read;

// Room for a deck of the most bytes, and one more.
fn input_room() -> [u8; 65537]
    ensures { 65537 ≡ length result }
{
    [0; 65537]
}

// Room for the listing of any deck, so that run never answers that there is none.
fn output_room() -> [u8; 2097248]
    ensures { 2097248 ≡ length result }
{
    [0; 2097248]
}

// Reads until the room is full or the input ends, and answers how many bytes came. (`read_exact` does not tell how many came before the end.)
fn read_all(rt: &impl Input, input: &mut [u8]) -> io::Result<usize>
    ensures { IfOk result (λ bytes. bytes ≤ length input.new) }
{
    let mut reader = rt.reader();
    let mut done = 0;
    while done < input.len() {
        let most = input.len() - done;
        let more = reader.read(&mut input[done..])?.min(most);
        if more == 0 {
            break;
        }
        done += more;
    }
    Ok(done)
}

// Prints the listing of the first bytes of a deck, and answers whether all of it was written.
fn print(rt: &impl Print, input: &[u8], out: &mut [u8]) -> bool {
    let Ok(end) = deck::run(input, out) else {
        return false;
    };
    rt.write_all(&out[..end]).is_ok()
}

fn main(rt: HostRuntime) {
    let mut input = input_room();
    let mut out = output_room();
    let Ok(n) = read_all(&rt, &mut input) else {
        let _ = eprintln!(rt; "listing: the input could not be read to its end");
        return;
    };
    if !print(&rt, &input[..n], &mut out) {
        let _ = eprintln!(rt; "listing: the listing was cut short");
    }
}
