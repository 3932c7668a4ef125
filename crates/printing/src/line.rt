// The lines that answers are.
ghost use Rattle.std.specs.Prelude.{◌≡◌, ◌≤◌, ◌++◌, vec_len, codes, OnOk};
ghost use Rattle.printing.specs.Lines.{words_for, refused_line, work_text, Lines};

use crate::datum::show;
use crate::number::show_number;
use refusals::Refusal;
use std::alloc::{AllocError, Global};

// What is wrong, by a refusal's number. A line may bear any number, and each has its words.
#[tactic(auto, using(std::proofs::lemmas::Bool::Decides::nat_tests), unfolding(crate::specs::Lines::words_for))]
fn what_is_wrong(number: u8) -> &'static str
    ensures { result.now ≡ words_for number }
{
    match Refusal::try_from(number) {
        Ok(Refusal::NoRequest) => "the bytes are no request",
        Ok(Refusal::TooManyParts) => "more than 8192 parts",
        Ok(Refusal::NotInOrder) => "a record's names in the schema are not in order, each once",
        Ok(Refusal::NoType) => "the query has no type",
        Ok(Refusal::NotOfSchema) => "the tables are not of the schema",
        Ok(Refusal::CannotDo) => "this desk cannot do such a request",
        Err(_number) => "the request is refused",
    }
}

// A refusal, by its number and its place.
pub fn refusal(number: u8, place: usize, out: &mut Vec<u8>) -> Result<(), AllocError>
    ensures is { OnOk result (out.new.items ≡ out.old.items ++ refused_line number place) }
    ensures grows { vec_len out.old ≤ vec_len out.new }
{
    out.extend_from_slice(b"0 ")?;
    show_number(number as u64, out)?;
    out.push(b' ')?;
    show_number(place as u64, out)?;
    out.push(b' ')?;
    out.extend_from_slice(what_is_wrong(number).as_bytes())?;
    out.push(b'\n')?;
    Ok(())
}

// How much was looked at, after a tab, where that is asked for.
fn show_work(work: Option<u64>, out: &mut Vec<u8>) -> Result<(), AllocError>
    ensures is { OnOk result (out.new.items ≡ out.old.items ++ work_text work) }
    ensures grows { vec_len out.old ≤ vec_len out.new }
{
    let Some(looked) = work else {
        return Ok(());
    };
    out.push(b'\t')?;
    show_number(looked, out)?;
    Ok(())
}

// What a request comes to, the datum that the words are; and how much was looked at, where that is asked for.
pub fn outcome(
    heap: Global,
    words: &[u64],
    work: Option<u64>,
    out: &mut Vec<u8>,
) -> Result<(), AllocError>
    ensures is { OnOk result (Lines words.now work out.old.items out.new.items) }
    ensures grows { vec_len out.old ≤ vec_len out.new }
{
    out.extend_from_slice(b"1 ")?;
    show(heap, words, out)?;
    show_work(work, out)?;
    out.push(b'\n')?;
    Ok(())
}

// More work than was given.
pub fn tired(out: &mut Vec<u8>) -> Result<(), AllocError>
    ensures is { OnOk result (out.new.items ≡ out.old.items ++ codes "2\n") }
    ensures grows { vec_len out.old ≤ vec_len out.new }
{
    out.extend_from_slice(b"2\n")
}

// No room in what was lent.
pub fn no_room(out: &mut Vec<u8>) -> Result<(), AllocError>
    ensures is { OnOk result (out.new.items ≡ out.old.items ++ codes "4\n") }
    ensures grows { vec_len out.old ≤ vec_len out.new }
{
    out.extend_from_slice(b"4\n")
}
