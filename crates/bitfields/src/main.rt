//! Packs decimal values into bit fields, counts their bits, unpacks bit fields into decimal values, and repacks them.
#![tactic(auto)]

use bitfields_core::{Fault, Reason, report, run};
use std::io::ErrorKind;
use std::process::ExitCode;
use std::{env, io};

/// Returns the program's arguments, without its name.
fn words(rt: &HostRuntime) -> io::Result<Vec<String>> {
    let mut words = Vec::new(rt.alloc());
    for word in env::args(rt)?.skip(1) {
        words.push(word)?;
    }
    Ok(words)
}

fn main(rt: HostRuntime) -> ExitCode {
    let alloc = rt.alloc();
    let mut input = rt.stdin();
    let mut output = rt.stdout();
    let mut faults = rt.stderr();
    let status = match words(&rt) {
        Ok(words) => run(alloc, &words, &mut input, &mut output, &mut faults),
        Err(error) if error.kind() == ErrorKind::OutOfMemory => report(
            Fault::new(0, Reason::OutOfMemory),
            &mut faults,
        ),
        Err(_) => run(alloc, &[], &mut input, &mut output, &mut faults),
    };
    ExitCode::from(status)
}
