// Reads a trace book from standard input, and prints the verdict on it with every delay on.
#![tactic(auto)]

use report::print::print_book;
use std::io::Read;

// No book is longer than this, and one byte more shows that an input is. (The reader has the number too; this program names
// only the report.)
const LONGEST: u64 = 34_576;

// The input, or its first bytes where it is too long for a book.
fn input(rt: &HostRuntime) -> anyhow::Result<Vec<u8>> {
    let mut book = Vec::new(rt.alloc());
    rt.stdin().take(LONGEST + 1).read_to_end(&mut book)?;
    Ok(book)
}

fn main(rt: HostRuntime) -> anyhow::Result<()> {
    let book = input(&rt)?;
    print_book(&rt, book.as_slice())?;
    Ok(())
}
