// A request is put to the desk, and its answer turned into a line.
ghost use Rattle.std.specs.Prelude.{length, OnOk};
ghost use Rattle.asking_desk.specs.Kept.{KeepsRows};
ghost use Rattle.asking_serving.specs.Shown.{Shows, Served};

use asking_desk::answer::Answer;
use asking_desk::ask::answer;
use asking_desk::memory::Desk;
use printing::line::{no_room, outcome, refusal, tired};
use serving::answers::make_large;
use std::alloc::{AllocError, Global};

// Appends the line of an answer; `work` is whether to say how much was looked at.
pub fn show_answer(
    heap: Global,
    answer: Answer,
    work: bool,
    out: &mut Vec<u8>,
) -> Result<(), AllocError>
    ensures { OnOk result (Shows answer.entry work out.old.items out.new.items) }
{
    match answer {
        Answer::Refused(why, place) => refusal(u8::from(why), place, out),
        Answer::Is(words, looked) => outcome(heap, words, work.then_some(looked), out),
        Answer::Tired => tired(out),
        Answer::NoRoom => no_room(out),
    }
}

// Appends the line of the desk's answer to a request, with those numbers lent.
pub(crate) fn tell(
    heap: Global,
    desk: &mut Desk,
    bytes: &[u8],
    lent: &mut [u64],
    work: bool,
    out: &mut Vec<u8>,
) -> Result<(), AllocError>
    ensures served { OnOk result (Served bytes.now (length lent.old) work out.old.items out.new.items) }
    ensures in_order { KeepsRows desk.old desk.new }
{
    show_answer(heap, answer(desk, bytes, lent), work, out)
}

// Answers a request, with so many numbers lent.
pub fn answer_one(
    heap: Global,
    desk: &mut Desk,
    bytes: &[u8],
    numbers: usize,
    memory: &mut Vec<u64>,
    work: bool,
    out: &mut Vec<u8>,
) -> Result<(), AllocError>
    ensures served { OnOk result (Served bytes.now numbers work out.old.items out.new.items) }
    ensures in_order { KeepsRows desk.old desk.new }
{
    make_large(memory, numbers)?;
    let lent = &mut memory.as_mut_slice()[0..numbers];
    tell(heap, desk, bytes, lent, work, out)
}
