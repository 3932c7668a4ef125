// Texts in double quotes.
ghost use Rattle.std.specs.Prelude.{◌≡◌, ◌<◌, ◌≤◌, ◌++◌, vec_len, OnOk};
ghost use Rattle.printing.specs.Texts.{digit_of, escaped, quoted};

use std::alloc::AllocError;

// A small hexadecimal digit.
fn hexadecimal(n: u8) -> u8
    requires { n < 16 }
    ensures { result ≡ digit_of n }
{
    if n < 10 { b'0' + n } else { 87 + n }
}

// Appends a byte as it stands in a text: by its number, after a backslash, or as it is.
fn show_byte(byte: u8, out: &mut Vec<u8>) -> Result<(), AllocError>
    ensures is { OnOk result (out.new.items ≡ out.old.items ++ escaped byte) }
    ensures grows { vec_len out.old ≤ vec_len out.new }
{
    match byte {
        0..=31 => {
            let high = hexadecimal(byte / 16);
            let low = hexadecimal(byte % 16);
            out.extend_from_slice(&[b'\\', b'u', b'0', b'0', high, low])
        }
        b'"' => out.extend_from_slice(b"\\\""),
        b'\\' => out.extend_from_slice(b"\\\\"),
        _ => {
            out.push(byte)?;
            Ok(())
        }
    }
}

// Appends the text whose bytes the words are, a byte to a word.
pub fn show_text(words: &[u64], out: &mut Vec<u8>) -> Result<(), AllocError>
    ensures is { OnOk result (out.new.items ≡ out.old.items ++ quoted words.now) }
    ensures grows { vec_len out.old ≤ vec_len out.new }
{
    out.push(b'"')?;
    for word in words {
        show_byte((*word & 255) as u8, out)?;
    }
    out.push(b'"')?;
    Ok(())
}
