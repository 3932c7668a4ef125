// Numbers in decimal.
ghost use Rattle.std.specs.Prelude.{◌≡◌, ◌≤◌, ◌++◌, vec_len, decimal, OnOk};

use std::alloc::AllocError;

// Appends the number in decimal: the digits in front of the last, and the last.
pub fn show_number(n: u64, out: &mut Vec<u8>) -> Result<(), AllocError>
    ensures is { OnOk result (out.new.items ≡ out.old.items ++ decimal n) }
    ensures grows { vec_len out.old ≤ vec_len out.new }
{
    if n < 10 {
        out.push(b'0' + n as u8)?;
        return Ok(());
    }
    show_number(n / 10, out)?;
    out.push(b'0' + (n % 10) as u8)?;
    Ok(())
}
