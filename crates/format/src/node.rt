// Nodes: what stands in front of a datum, a type, a query or a request, as enums with numbers in their cases.
// A name or a text is told by how many bytes it has; it stands after its length.
ghost use Rattle.std.specs.Prelude.{◌≡◌};
ghost use Rattle.format.specs.Heads.{DataHead, data_arity, TyHead, ty_arity, QueryHead, query_arity};
ghost use Rattle.format.specs.Nodes.{TellsData, TellsType, TellsQuery};

#[derive(Clone, Copy)]
pub enum DataNode {
    Nothing,
    Number(u64),
    Truth(bool),
    // a text of so many bytes
    Text(usize),
    // a bag of so many things
    Bag(usize),
    // a record of so many fields; their names stand in the head
    Record(usize),
    Left,
    Right,
}

impl DataNode {
    // How many data follow.
    #[tactic(auto, unfolding(crate::specs::Heads::data_arity))]
    pub fn parts(self) -> usize
        ensures { (h : DataHead) → TellsData self h → result ≡ data_arity h }
    {
        match self {
            DataNode::Nothing | DataNode::Number(_) | DataNode::Truth(_) | DataNode::Text(_) => 0,
            DataNode::Bag(things) => things,
            DataNode::Record(fields) => fields,
            DataNode::Left => 1,
            DataNode::Right => 1,
        }
    }
}

#[derive(Clone, Copy)]
pub enum TypeNode {
    Nothing,
    Number,
    Truth,
    Text,
    Bag,
    // a record's of so many fields; their names stand in the head
    Record(usize),
    Either,
}

impl TypeNode {
    // How many types follow.
    #[tactic(auto, unfolding(crate::specs::Heads::ty_arity))]
    pub fn parts(self) -> usize
        ensures { (h : TyHead) → TellsType self h → result ≡ ty_arity h }
    {
        match self {
            TypeNode::Nothing | TypeNode::Number | TypeNode::Truth | TypeNode::Text => 0,
            TypeNode::Bag => 1,
            TypeNode::Record(fields) => fields,
            TypeNode::Either => 2,
        }
    }
}

#[derive(Clone, Copy)]
pub enum Binary {
    Equal,
    And,
    Or,
    Plus,
    Less,
    JoinBags,
    JoinRecords,
    Within,
}

#[derive(Clone, Copy)]
pub enum Unary {
    Not,
    InBag,
    Flat,
    Count,
    Sum,
    Distinct,
    // by a name of so many bytes
    Dot(usize),
    AsField(usize),
    Without(usize),
    // by so many names
    Only(usize),
}

#[derive(Clone, Copy)]
pub enum QueryNode {
    // the table of that number
    Table(usize),
    It,
    Env,
    // what is written out, after a type of so many bytes
    Just(usize),
    Two(Binary),
    One(Unary),
    Each,
    Keep,
    Product,
    // by names of so many bytes
    Matched(usize, usize),
    Default,
    // with the other side's type of so many bytes
    OnLeft(usize),
    OnRight(usize),
    Either,
    Then,
    WithEnv,
}

impl QueryNode {
    // How many queries follow.
    #[tactic(auto, unfolding(crate::specs::Heads::query_arity))]
    pub fn parts(self) -> usize
        ensures { (h : QueryHead) → TellsQuery self h → result ≡ query_arity h }
    {
        match self {
            QueryNode::Table(_) | QueryNode::It | QueryNode::Env | QueryNode::Just(_) => 0,
            QueryNode::One(_) | QueryNode::OnLeft(_) | QueryNode::OnRight(_) => 1,
            QueryNode::Two(_)
            | QueryNode::Each
            | QueryNode::Keep
            | QueryNode::Product
            | QueryNode::Matched(_, _)
            | QueryNode::Default
            | QueryNode::Either
            | QueryNode::Then
            | QueryNode::WithEnv => 2,
        }
    }
}

// A request to ask: how many types the schema has, which stand after the tag and their count; where the tables begin and how many;
// where the query begins; how much work at most.
#[derive(Clone, Copy)]
pub struct Ask {
    pub types: usize,
    pub tables_at: usize,
    pub tables: usize,
    pub query_at: usize,
    pub work: u64,
}

// A request to plan: how many types the schema has, and where the query begins.
#[derive(Clone, Copy)]
pub struct Plan {
    pub types: usize,
    pub query_at: usize,
}

#[derive(Clone, Copy)]
pub enum Request {
    ToAsk(Ask),
    ToPlan(Plan),
}
