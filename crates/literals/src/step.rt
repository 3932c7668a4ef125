// The next step into a query: where its parts begin. Numbering and loading take the same steps, so that both come by everything in one order.
ghost use Rattle.std.specs.Prelude.{◌≡◌, ℕ, ◌+◌, ◌<◌, ◌≤◌, length};
ghost use Rattle.literals.specs.Steps.{kind_of, StepInside, Steps, PartFrom};

use format::node::QueryNode;
use guide::node;

// A part of a query: its bytes stand in front. Its place in the guide, which is the whole query's, is `at`.
#[derive(Clone, Copy)]
pub struct Part<'a> {
    pub query: &'a [u8],
    pub guide: &'a [u32],
    pub at: usize,
}

// How many parts a query has, and whether it writes something out.
#[derive(Clone, Copy)]
pub enum Kind {
    Bare,
    Written,
    One,
    Two,
}

// Where the parts begin, counted from the query's own beginning.
#[derive(Clone, Copy)]
pub enum Step {
    // nothing to go into
    Bare,
    // a type after the tag, and from there on a datum
    Written(usize),
    One(usize),
    Two(usize, usize),
}

fn kind_of(node: QueryNode) -> Kind
    ensures { result ≡ kind_of node }
{
    match node {
        QueryNode::Table(_) | QueryNode::It | QueryNode::Env => Kind::Bare,
        QueryNode::Just(_) => Kind::Written,
        QueryNode::One(_) | QueryNode::OnLeft(_) | QueryNode::OnRight(_) => Kind::One,
        QueryNode::Two(_)
        | QueryNode::Each
        | QueryNode::Keep
        | QueryNode::Product
        | QueryNode::Matched(_, _)
        | QueryNode::Default
        | QueryNode::Either
        | QueryNode::Then
        | QueryNode::WithEnv => Kind::Two,
    }
}

impl<'a> Part<'a> {
    // The part of this one that begins so many bytes further on.
    pub fn part(self, by: usize) -> Part<'a>
        requires within { by ≤ length self.query.now }
        requires guided { self.at < length self.guide.now }
        ensures { PartFrom self.entry.query.now self.entry.guide.now self.entry.at by result }
    {
        Part {
            query: &self.query[by..],
            guide: self.guide,
            at: self.at + by,
        }
    }

    // The step into it. Where bytes are no query, or the guide is not theirs, places may come out that lie outside of them or where nothing is left
    // behind: there is no step then, so that whoever steps on comes to an end.
    pub fn next_step(self) -> Step
        ensures inside { StepInside (length self.entry.query.now) (length self.entry.guide.now) self.entry.at result }
        ensures tells { Steps self.entry.query.now self.entry.guide.now self.entry.at result }
    {
        if self.at >= self.guide.len() {
            return Step::Bare;
        }
        let last = self.guide[self.at] as usize;
        let Some(visit) = node(self.query, last) else {
            return Step::Bare;
        };
        let first = visit.first;
        if first == 0 || last < first || self.query.len() < last {
            return Step::Bare;
        }
        match kind_of(visit.node) {
            Kind::Bare => Step::Bare,
            Kind::Written => Step::Written(last),
            Kind::One => Step::One(first),
            Kind::Two => Step::Two(first, last),
        }
    }
}
