// Words and numbers to standard output.
use std::fmt::Display;
use std::io;
use walk::{Refusal, Worth};

pub fn text(rt: &impl Print, words: &[u8]) -> io::Result<()> {
    rt.write_all(words)
}

// A field: a space and a number.
pub fn count(rt: &impl Print, n: impl Display + Drop) -> io::Result<()> {
    print!(rt; " {n}")
}

// A field for each number of a list.
pub fn counts<N: Display + Copy>(rt: &impl Print, list: &[N]) -> io::Result<()> {
    for n in list {
        count(rt, *n)?;
    }
    Ok(())
}

// The byte that a number stands for.
pub fn byte(number: u64) -> u8 {
    u8::try_from(number).unwrap_or(0)
}

// A word and the number that a call answered.
pub fn answer(rt: &impl Print, words: &[u8], number: u8) -> io::Result<()> {
    text(rt, words)?;
    count(rt, number)
}

// The same of a call's answer.
fn done<T>(rt: &impl Print, words: &[u8], said: &Result<T, Refusal>) -> io::Result<()> {
    answer(rt, words, returns::number_in(said))
}

pub fn opened(rt: &impl Print, said: Result<(), Refusal>) -> io::Result<()> {
    done(rt, b" open", &said)
}

pub fn moved(rt: &impl Print, said: Result<usize, Refusal>) -> io::Result<()> {
    done(rt, b" back", &said)?;
    if let Ok(position) = said {
        count(rt, position as u64)?;
    }
    Ok(())
}

pub fn valued(rt: &impl Print, said: Result<Worth, Refusal>) -> io::Result<()> {
    done(rt, b" value", &said)?;
    if let Ok(worth) = said {
        count(rt, worth.default)?;
        count(rt, worth.premium)?;
        count(rt, worth.net)?;
    }
    Ok(())
}

pub fn hedged(rt: &impl Print, said: Result<i64, Refusal>) -> io::Result<()> {
    done(rt, b" ratio", &said)?;
    if let Ok(ratio) = said {
        count(rt, ratio)?;
    }
    Ok(())
}

// Q(0), Q(1) and the last of the row.
pub fn distribution(rt: &impl Print, said: Result<(), Refusal>, row: &[u64]) -> io::Result<()> {
    done(rt, b" forward", &said)?;
    if said.is_ok() && 2 <= row.len() {
        count(rt, row[0])?;
        count(rt, row[1])?;
        count(rt, row[row.len() - 1])?;
    }
    Ok(())
}

pub fn end(rt: &impl Print) -> io::Result<()> {
    println!(rt)
}
