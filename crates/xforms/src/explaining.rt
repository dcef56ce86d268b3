//! What the program says on standard error, beside its answer: why it refuses a form, and which file it could not read. Whether that
//! works changes neither what it writes on standard output nor the number that it ends with.

use std::io::Read;
use std::{fs, io};
use xf_base::limits::FORM_LIMIT;
use xf_form_explain::explain;

/// The file of the form.
pub const FORM: &str = "form.json";

/// The statuses of a form that is refused, and of a read that failed.
const REFUSED: u8 = 3;

const UNREAD: u8 = 4;

/// Says what is known of a status beyond the line of it.
pub fn explain_status(rt: &HostRuntime, status: u8) {
    if status == REFUSED {
        if let Some(text) = refusal(rt) {
            let _ = rt.eprint(format_args!("{FORM}: {text}"));
        }
    }
    if status == UNREAD {
        say_unread(rt);
    }
}

// What is known of the refusal of the form. It is read once more, which of anything but a file might wait for ever.
fn refusal(rt: &HostRuntime) -> Option<String> {
    match fs::metadata(rt, FORM) {
        Ok(about) => {
            if !about.is_file() {
                return None;
            }
        }
        Err(_) => return None,
    }
    match form_bytes(rt) {
        Ok(bytes) => explain(rt.alloc(), &bytes).unwrap_or(None),
        Err(_) => None,
    }
}

fn form_bytes(rt: &HostRuntime) -> io::Result<Vec<u8>> {
    let mut bytes = Vec::new(rt.alloc());
    fs::open(rt, FORM)?
        .take(FORM_LIMIT as u64 + 1)
        .read_to_end(&mut bytes)?;
    Ok(bytes)
}

// Says which of the two could not be read: the form, where it cannot be read now, and else the events.
fn say_unread(rt: &HostRuntime) {
    let said = match fs::metadata(rt, FORM) {
        Ok(about) => {
            if about.is_file() {
                match form_bytes(rt) {
                    Ok(_) => rt.eprintln("standard input: it could not be read"),
                    Err(error) => rt.eprintln(format_args!("{FORM}: {error}")),
                }
            } else {
                rt.eprintln(format_args!("{FORM}: it is no file"))
            }
        }
        Err(error) => rt.eprintln(format_args!("{FORM}: {error}")),
    };
    let _ = said;
}
