// What the desk answers.
use refusals::Refusal;

#[derive(Clone, Copy)]
pub enum Answer {
    // a refusal, and its place in the request's bytes
    Refused(Refusal, usize),
}
