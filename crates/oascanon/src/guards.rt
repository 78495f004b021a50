//! Outputs that would overwrite a file which should stay.

use oas_explain::{Session, is_same_file, is_taken};

/// The status of a command line that requests what is not done.
const MISUSED: u8 = 2;

/// The status of a run whose output isn't to be replaced.
const REFUSED: u8 = 1;

/// The status where the file for markers is one of the inputs, after a line on standard error.
pub fn keep_inputs(
    session: &Session<'_>,
    inputs: [Option<&str>; 2],
    markers: &str,
) -> Result<(), u8> {
    for input in inputs {
        if is_same_file(session.rt, input, markers) {
            let own = session.printed(markers)?;
            let name = own.as_str();
            let _ = eprintln!(session.rt; "error: --markers {name}: it is one of the inputs");
            return Err(MISUSED);
        }
    }
    Ok(())
}

/// The status where something is under the output's name, after a line on standard error.
pub fn keep_old(session: &Session<'_>, output: Option<&str>) -> Result<(), u8> {
    match output {
        Some(path) if is_taken(session.rt, path) => {
            let own = session.printed(path)?;
            let name = own.as_str();
            let _ = eprintln!(session.rt; "{name}: exists, and is not replaced");
            Err(REFUSED)
        }
        _ => Ok(()),
    }
}
