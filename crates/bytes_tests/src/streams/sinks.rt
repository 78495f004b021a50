//! A sink that counts, and what a fault says.

use oas_bytes::{Counter, Sink, SinkFault};
use std::test::Fail;

#[test]
fn a_counter_counts(rt: HostRuntime) {
    let mut counter = Counter::new();
    let answers = [counter.put_all(b"abc"), counter.put(0)];
    let found = (answers, counter.count());
    assert!(rt; found == ([Ok(()); 2], 4));
}

#[test]
fn a_fault_says_what_failed(rt: HostRuntime) -> Result<(), Fail> {
    let message = format!(in rt.alloc(); "{}", SinkFault::Device)?;
    let found = message.as_str();
    assert!(rt; found == "the output device failed");
    Ok(())
}
