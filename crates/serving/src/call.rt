// How the program was called.
ghost use Rattle.std.specs.Prelude.{◌≡◌, string_bytes, Decides, MatchResult};
ghost use Rattle.serving.specs.declared.fault.Fault.TheVariants as faults;
ghost use Rattle.serving.specs.Calls.{dashed, Named, Nameless, Called, Uncalled};

use crate::fault::Fault;
use std::env;

#[derive(Drop)]
pub struct Call {
    // whether each outcome is followed by how much was looked at
    pub work: bool,
    pub file: String,
}

// Whether a word is an option, and no file's name.
fn is_option(word: &str) -> bool
    ensures { Decides result (dashed word.now) }
{
    let bytes = word.as_bytes();
    !bytes.is_empty() && bytes[0] == b'-'
}

// The call for that file, if it is one and nothing comes after it.
fn call_for(work: bool, file: Option<String>, after: Option<String>) -> Result<Call, Fault>
    ensures { MatchResult result (λ c. (c.work ≡ work) × Named (λ s. string_bytes s) file after c.file) (λ e. (e ≡ faults.Usage) × Nameless (λ s. string_bytes s) file after) }
{
    let file = file.ok_or(Fault::Usage)?;
    if is_option(file.as_str()) || after.is_some() {
        return Err(Fault::Usage);
    }
    Ok(Call { work, file })
}

// The call that the words after the program's name are: perhaps the option, the file's name, and nothing after it.
fn call_of(
    first: Option<String>,
    second: Option<String>,
    third: Option<String>,
) -> Result<Call, Fault>
    ensures { MatchResult result (λ c. Called (λ s. string_bytes s) first second third c.work c.file) (λ e. (e ≡ faults.Usage) × Uncalled (λ s. string_bytes s) first second third) }
{
    let word = first.ok_or(Fault::Usage)?;
    if word.as_str() == "--work" {
        return call_for(true, second, third);
    }
    call_for(false, Some(word), second)
}

// The call that the program's arguments are.
pub fn read_call(rt: &HostRuntime) -> Result<Call, Fault> {
    let mut args = env::args(rt).map_err(Fault::Arguments)?;
    let _program = args.next();
    let first = args.next();
    let second = args.next();
    let third = args.next();
    call_of(first, second, third)
}
