// Data as text. Nothing here calls itself, however deep a datum is: what is still open stands in a list.
ghost use Rattle.std.specs.Prelude.{◌≡◌, ◌<◌, ◌≤◌, ◌++◌, length, IfSome, IfOk, Some, vec_len, OnOk};
ghost use Rattle.printing.specs.declared.datum.Whole.TheVariants as sides;
ghost use Rattle.printing.specs.Datums.{comma, Shows};
ghost use Rattle.printing.specs.Opens.{closing_of, Opened, NumberShown, TextShown, BagBegun, RecordBegun, Headed, Fronted, Between};

use crate::number::show_number;
use crate::text::show_text;
use crate::words::{after_names, eight, four, name};
use std::alloc::{AllocError, Global};

// What has parts.
#[derive(Clone, Copy)]
enum Whole {
    Bag,
    // with the place of the next part's name
    Record(usize),
    Side,
}

// What is begun and not yet closed: how many of its parts are still to come, and whether one has come.
#[derive(Clone, Copy)]
struct Open {
    whole: Whole,
    left: usize,
    begun: bool,
}

// What closes it.
fn closing(whole: Whole) -> u8
    ensures { result ≡ closing_of whole }
{
    match whole {
        Whole::Bag => b']',
        Whole::Record(_) => b'}',
        Whole::Side => b')',
    }
}

// Appends what a whole begins with, and opens it.
fn begin(
    opening: &[u8],
    whole: Whole,
    left: usize,
    stack: &mut Vec<Open>,
    out: &mut Vec<u8>,
) -> Result<(), AllocError>
    ensures is { OnOk result (Opened whole left opening.now stack.old.items stack.new.items out.old.items out.new.items) }
    ensures grows { vec_len out.old ≤ vec_len out.new }
{
    out.extend_from_slice(opening)?;
    stack.push(Open {
        whole,
        left,
        begun: false,
    })?;
    Ok(())
}

// Appends a text that has no parts, and answers where reading goes on.
fn show_plain(text: &[u8], next: usize, out: &mut Vec<u8>) -> Result<Option<usize>, AllocError>
    ensures is { IfOk result (λ o. (o ≡ Some next) × (out.new.items ≡ out.old.items ++ text.now)) }
    ensures grows { vec_len out.old ≤ vec_len out.new }
{
    out.extend_from_slice(text)?;
    Ok(Some(next))
}

// Opens one side of an either, and answers where what stands on it begins.
fn begin_side(
    opening: &[u8],
    next: usize,
    stack: &mut Vec<Open>,
    out: &mut Vec<u8>,
) -> Result<Option<usize>, AllocError>
    ensures is { IfOk result (λ o. (o ≡ Some next) × Opened sides.Side 1 opening.now stack.old.items stack.new.items out.old.items out.new.items) }
    ensures grows { vec_len out.old ≤ vec_len out.new }
{
    begin(opening, Whole::Side, 1, stack, out)?;
    Ok(Some(next))
}

// Here and below, None is no fault: of words that are no datum what can be made of them is printed.

// Appends the number at `at`, and answers where it ends; None where there is none.
fn show_number_at(words: &[u64], at: usize, out: &mut Vec<u8>) -> Result<Option<usize>, AllocError>
    ensures is { IfOk result (λ o. NumberShown words.now at out.old.items out.new.items o) }
    ensures ends { IfOk result (λ o. IfSome o (λ e. (at ≤ e) × (e ≤ length words.now))) }
    ensures grows { vec_len out.old ≤ vec_len out.new }
{
    let Some(n) = eight(words, at) else {
        return Ok(None);
    };
    show_number(n, out)?;
    Ok(Some(at + 8))
}

// Appends the text at `at`, and answers where it ends; None where there is none.
fn show_text_at(words: &[u64], at: usize, out: &mut Vec<u8>) -> Result<Option<usize>, AllocError>
    ensures is { IfOk result (λ o. TextShown words.now at out.old.items out.new.items o) }
    ensures ends { IfOk result (λ o. IfSome o (λ e. (at ≤ e) × (e ≤ length words.now))) }
    ensures grows { vec_len out.old ≤ vec_len out.new }
{
    let Some(span) = name(words, at) else {
        return Ok(None);
    };
    let end = span.end;
    show_text(&words[span], out)?;
    Ok(Some(end))
}

// Opens the bag whose count stands at `at`, and answers where its parts begin; None where no count stands there.
fn begin_bag(
    words: &[u64],
    at: usize,
    stack: &mut Vec<Open>,
    out: &mut Vec<u8>,
) -> Result<Option<usize>, AllocError>
    ensures is { IfOk result (λ o. BagBegun words.now at stack.old.items stack.new.items out.old.items out.new.items o) }
    ensures ends { IfOk result (λ o. IfSome o (λ e. (at ≤ e) × (e ≤ length words.now))) }
    ensures grows { vec_len out.old ≤ vec_len out.new }
{
    let Some(count) = four(words, at) else {
        return Ok(None);
    };
    begin(b"[", Whole::Bag, count, stack, out)?;
    Ok(Some(at + 4))
}

// Opens the record whose names stand at `at`, and answers where its parts begin; None where no names stand there.
fn begin_record(
    words: &[u64],
    at: usize,
    stack: &mut Vec<Open>,
    out: &mut Vec<u8>,
) -> Result<Option<usize>, AllocError>
    ensures is { IfOk result (λ o. RecordBegun words.now at stack.old.items stack.new.items out.old.items out.new.items o) }
    ensures ends { IfOk result (λ o. IfSome o (λ e. (at ≤ e) × (e ≤ length words.now))) }
    ensures grows { vec_len out.old ≤ vec_len out.new }
{
    let Some(count) = four(words, at) else {
        return Ok(None);
    };
    let names = at + 4;
    let Some(end) = after_names(words, names, count) else {
        return Ok(None);
    };
    begin(b"{", Whole::Record(names), count, stack, out)?;
    Ok(Some(end))
}

// Appends the datum at `at` as far as its first part, and answers where that or what follows the datum stands;
// None where no datum stands there.
fn show_head(
    words: &[u64],
    at: usize,
    stack: &mut Vec<Open>,
    out: &mut Vec<u8>,
) -> Result<Option<usize>, AllocError>
    requires { at < length words.now }
    ensures is { IfOk result (λ o. Headed words.now at stack.old.items stack.new.items out.old.items out.new.items o) }
    ensures ends { IfOk result (λ o. IfSome o (λ e. (at < e) × (e ≤ length words.now))) }
    ensures grows { vec_len out.old ≤ vec_len out.new }
{
    let rest = at + 1;
    // The tags are those of the format, whose own reader takes bytes and not words.
    match words[at] {
        0 => show_plain(b"null", rest, out),
        1 => show_number_at(words, rest, out),
        2 => show_plain(b"false", rest, out),
        3 => show_plain(b"true", rest, out),
        4 => show_text_at(words, rest, out),
        5 => begin_bag(words, rest, stack, out),
        6 => begin_record(words, rest, stack, out),
        7 => begin_side(b"left(", rest, stack, out),
        8 => begin_side(b"right(", rest, stack, out),
        _ => Ok(None),
    }
}

// Appends a comma, where something came before.
fn show_comma(begun: bool, out: &mut Vec<u8>) -> Result<(), AllocError>
    ensures is { OnOk result (out.new.items ≡ out.old.items ++ comma begun) }
    ensures grows { vec_len out.old ≤ vec_len out.new }
{
    if begun {
        out.push(b',')?;
    }
    Ok(())
}

// Appends what stands in front of a whole's next part: a comma unless it is the first, and in a record the name.
// Answers the whole with that part gone, or None where the name is not there.
fn show_next(
    words: &[u64],
    whole: Whole,
    begun: bool,
    out: &mut Vec<u8>,
) -> Result<Option<Whole>, AllocError>
    ensures is { IfOk result (λ o. Fronted words.now whole begun out.old.items out.new.items o) }
    ensures grows { vec_len out.old ≤ vec_len out.new }
{
    show_comma(begun, out)?;
    let Whole::Record(at) = whole else {
        return Ok(Some(whole));
    };
    let Some(end) = show_text_at(words, at, out)? else {
        return Ok(None);
    };
    out.push(b':')?;
    Ok(Some(Whole::Record(end)))
}

// Closes what has no more parts to come, and appends what stands in front of the next part of what has.
// Answers whether a datum is still to come.
fn show_between(words: &[u64], stack: &mut Vec<Open>, out: &mut Vec<u8>) -> Result<bool, AllocError>
    ensures is { IfOk result (λ o. Between words.now stack.old.items stack.new.items out.old.items out.new.items o) }
    ensures grows { vec_len out.old ≤ vec_len out.new }
{
    while let Some(last) = stack.pop() {
        if last.left > 0 {
            let Some(whole) = show_next(words, last.whole, last.begun, out)? else {
                return Ok(false);
            };
            stack.push(Open {
                whole,
                left: last.left - 1,
                begun: true,
            })?;
            return Ok(true);
        }
        out.push(closing(last.whole))?;
    }
    Ok(false)
}

// Appends the datum that the words are, a byte to a word, as text. Of words that are no datum it appends what can be
// made of them from the front.
pub fn show(heap: Global, words: &[u64], out: &mut Vec<u8>) -> Result<(), AllocError>
    ensures is { IfOk result (λ o. Shows words.now out.old.items out.new.items) }
    ensures grows { vec_len out.old ≤ vec_len out.new }
{
    let mut stack = Vec::new(heap);
    let mut at = 0;
    while at < words.len() {
        let Some(next) = show_head(words, at, &mut stack, out)? else {
            return Ok(());
        };
        at = next;
        if !show_between(words, &mut stack, out)? {
            return Ok(());
        }
    }
    Ok(())
}
