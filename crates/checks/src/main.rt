// Prints what a full trace and its tables occupy, and the verdict on each book of standard input, one in hex a line.
#![tactic(auto)]

ghost use Rattle.std.specs.Prelude.{◌<◌};

#[cfg(test)]
mod given;
mod load;
mod sizes;
mod verdicts;

use report::print::print_book;
use sizes::print_sizes;
use std::alloc::{AllocError, Global};
use std::io::{BufRead, BufReader};

// The value of a hex digit. Every other byte, a capital too, counts as 0, which no call of the library does.
fn digit(c: u8) -> u8
    ensures { result < 16 }
{
    match c {
        b'0'..=b'9' => c - b'0',
        b'a'..=b'f' => c - b'a' + 10,
        _ => 0,
    }
}

// The bytes that pairs of hex digits spell.
fn decoded(heap: Global, text: &[u8]) -> Result<Vec<u8>, AllocError> {
    let (pairs, _) = text.as_chunks::<2>();
    pairs
        .iter()
        .map(|[high, low]| digit(*high) * 16 + digit(*low))
        .collect(heap)
}

fn main(rt: HostRuntime) -> anyhow::Result<()> {
    print_sizes(&rt)?;
    for line in BufReader::new(rt.alloc(), rt.stdin())?.lines(rt.alloc()) {
        let text = line?;
        let book = decoded(rt.alloc(), text.as_bytes())?;
        println!(rt; "book of {} bytes", book.len())?;
        print_book(&rt, book.as_slice())?;
    }
    Ok(())
}
