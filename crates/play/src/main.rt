// Plays a script of calls from standard input and prints an account of it, a line for each call.
#![tactic(auto)]

use account::{Listener, Source, play};
use std::io;
use std::io::{BufRead, BufReader, Write};

// The address before a script names one.
const ADDRESS: u32 = 247;

fn run(rt: &HostRuntime) -> io::Result<()> {
    let heap = rt.alloc();
    let mut out = rt.stdout();
    let mut listener = Listener::open(ADDRESS);
    let lines = BufReader::new(heap, rt.stdin())?.split(heap, b'\n');
    for (number, text) in (1..).zip(lines) {
        let text = text?;
        let source = Source {
            number,
            text: text.as_slice(),
        };
        if let Some(mut told) = play(heap, &mut listener, &source)? {
            told.push(b'\n')?;
            out.write_all(told.as_slice())?;
        }
    }
    Ok(())
}

fn main(rt: HostRuntime) -> io::Result<()> {
    run(&rt)
}
