// What can go wrong with a call of the program, and the words for it.
use std::alloc::{AllocError, AllocFailed};
use std::io;

#[derive(Clone, Copy)]
pub enum Fault {
    // the arguments are not those that the program takes
    Usage,
    // the arguments can't be had
    Arguments(io::Error),
    CannotOpen(io::Error),
    CannotRead(io::Error),
    CannotWrite(io::Error),
    // the file ends at that byte, in the middle of a request
    BreaksOff(u64),
    Memory,
}

impl From<AllocError> for Fault {
    fn from(_e: AllocError) -> Fault {
        Fault::Memory
    }
}

impl<T: Drop> From<AllocFailed<T>> for Fault {
    fn from(_e: AllocFailed<T>) -> Fault {
        Fault::Memory
    }
}

// Says on standard error what went wrong, with the file of that name. Most lines name the file, which no fault holds: so a Display would not be enough.
pub fn tell(rt: &HostRuntime, file: &str, fault: Fault) -> io::Result<()> {
    match fault {
        Fault::Usage => eprintln!(rt; "usage: vozketil [--work] FILE"),
        Fault::Arguments(e) => eprintln!(rt; "vozketil: the arguments cannot be read: {e}"),
        Fault::CannotOpen(e) => eprintln!(rt; "vozketil: {file} cannot be opened: {e}"),
        Fault::CannotRead(e) => eprintln!(rt; "vozketil: {file} cannot be read: {e}"),
        Fault::CannotWrite(e) => eprintln!(rt; "vozketil: the answers cannot be written: {e}"),
        Fault::BreaksOff(at) => eprintln!(rt;
            "vozketil: {file} breaks off at byte {at}, in the middle of a request"
        ),
        Fault::Memory => eprintln!(rt;
            "vozketil: there is not enough memory for the requests of {file}"
        ),
    }
}
