//! Keys an OASIS file through a reader of its own, which counts the bytes that it passes on, and prints the key and the
//! count.
#![tactic(auto)]

use oas_canon::{Limits, ReaderSource, Refusal, key};
use std::io;
use std::io::{Read, Stdin};
use std::process::ExitCode;

/// Standard input, with how many bytes it gave.
#[derive(Drop)]
struct Counting<'a> {
    input: Stdin,
    given: &'a mut u64,
}

impl Read for Counting<'_> {
    fn read(&mut self, buf: &mut [u8]) -> io::Result<usize> {
        let count = self.input.read(buf)?;
        *self.given = self.given.saturating_add(count as u64);
        Ok(count)
    }
}

/// The key of what standard input gives. `given` counts its bytes.
fn keyed(rt: &HostRuntime, given: &mut u64) -> Result<[u8; 32], Refusal> {
    let limits = Limits::standard();
    let input = rt.stdin();
    let mut source = ReaderSource::new(rt.alloc(), Counting { input, given }, limits.input())?;
    key(rt.alloc(), &mut source, limits)
}

fn main(rt: HostRuntime) -> ExitCode {
    let mut given = 0;
    match keyed(&rt, &mut given) {
        Ok(digest) => {
            for byte in digest {
                let _ = print!(rt; "{byte:02x}");
            }
            let _ = println!(rt; " of {given} bytes");
            ExitCode::SUCCESS
        }
        Err(refusal) => {
            let _ = eprintln!(rt; "{refusal}: {}", refusal.why.meaning());
            ExitCode::FAILURE
        }
    }
}
