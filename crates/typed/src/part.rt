// The types of queries by those of their parts.
ghost use Rattle.std.specs.Prelude.{◌≡◌, ℕ, ◌+◌, ◌<◌, ◌≤◌, List, [], ◌∷◌, length};
ghost use Rattle.query.specs.Data.{Name};
ghost use Rattle.query.specs.Types.{if_so, same_ty, ty_at};
ghost use Rattle.ranks.specs.Ranks.{names_of, Listed};
ghost use Rattle.types.specs.Shapes.{Shape, type_at};
ghost use Rattle.types.specs.Outcomes.{look, size, told, Within, Grew, Says};
ghost use Rattle.types.specs.Operators.{NamesOf, types_of};
ghost use Rattle.typing.specs.Loads.{Fit};
ghost use Rattle.typed.specs.Shaped.{over_type};
ghost use Rattle.typed.specs.Walks.{scene, Ready, LeafTold, SingleTold, JointTold};

use crate::scene::Lent;
use crate::shape::{Joint, Leaf, Over, Single};
use types::entry::{Entry, Two};
use types::table::Table;
use typing::parts::{matched_at, one_type, unary, written};
use typing::work::Work;

// The number of a table's type; none past the schema.
fn table_at(schema: &[u32], n: usize) -> Option<u32>
    ensures within { (w : ℕ) → NamesOf w schema.now → Within w result }
    ensures is { (ns : List Name) (ss : List Shape) → ty_at (types_of ns ss schema.now) n ≡ told ns ss result }
{
    if n < schema.len() {
        Some(schema[n])
    } else {
        None
    }
}

// The type of what has no parts; of what is written out, `last` is where the datum begins.
pub fn leaf_type(
    lent: &Lent,
    table: &mut Table,
    work: &mut Work,
    pos: usize,
    last: usize,
    leaf: Leaf,
    env: u32,
    it: u32,
) -> Option<u32>
    requires ready { Ready (scene lent.now) table.old work.old }
    requires here { lent.now.base + pos < length lent.now.bytes.now }
    requires datum { lent.now.base + last ≤ length lent.now.bytes.now }
    requires along { env < size table.old }
    requires looked { it < size table.old }
    ensures grew { Grew table.old table.new result }
    ensures fit { Fit work.new }
    ensures told { LeafTold (scene lent.now) table.old table.new pos last leaf env it result }
{
    match leaf {
        Leaf::Table(n) => table_at(lent.schema, n),
        Leaf::It => Some(it),
        Leaf::Env => Some(env),
        Leaf::Just => written(
            lent.bytes,
            lent.names,
            table,
            work,
            lent.base + pos + 1,
            lent.base + last,
        ),
    }
}

// The type of a query of one part, by that of its part.
pub fn single_type(
    lent: &Lent,
    table: &mut Table,
    work: &mut Work,
    pos: usize,
    op: Single,
    x: u32,
) -> Option<u32>
    requires ready { Ready (scene lent.now) table.old work.old }
    requires here { lent.now.base + pos < length lent.now.bytes.now }
    requires part { x < size table.old }
    ensures grew { Grew table.old table.new result }
    ensures fit { Fit work.new }
    ensures told { SingleTold (scene lent.now) table.old table.new pos op x result }
{
    let at = lent.base + pos;
    match op {
        Single::Op(o) => unary(lent.bytes, lent.names, table, &mut work.ranks, at, o, x),
        Single::Left => {
            let y = one_type(lent.bytes, lent.names, table, work, at + 1)?;
            table.make(Entry::Either(Two { left: x, right: y }))
        }
        Single::Right => {
            let y = one_type(lent.bytes, lent.names, table, work, at + 1)?;
            table.make(Entry::Either(Two { left: y, right: x }))
        }
    }
}

// The type of a query of two parts, by those of its parts.
pub fn joint_type(
    lent: &Lent,
    table: &mut Table,
    pos: usize,
    op: Joint,
    x: u32,
    y: u32,
) -> Option<u32>
    requires listed { Listed lent.now.bytes.now lent.now.names.now }
    requires same { table.old.names ≡ length (names_of lent.now.bytes.now lent.now.names.now) }
    requires here { lent.now.base + pos < length lent.now.bytes.now }
    requires first { x < size table.old }
    requires second { y < size table.old }
    ensures grew { Grew table.old table.new result }
    ensures told { JointTold (scene lent.now) table.old table.new pos op x y result }
{
    match op {
        Joint::Op(o) => table.two(o, x, y),
        Joint::Product => table.product(x, y),
        Joint::Matched(m, n) => matched_at(
            lent.bytes,
            lent.names,
            table,
            lent.base + pos,
            m,
            n,
            x,
            y,
        ),
        Joint::Default => table.join_bags(x, y),
    }
}

// The type of each or of keep, by that of the bag and that of what the first part comes to for one of its things.
pub fn over_type(table: &mut Table, op: Over, x: u32, v: u32) -> Option<u32>
    requires bag { x < size table.old }
    requires thing { v < size table.old }
    ensures grew { Grew table.old table.new result }
    ensures says { Says table.old table.new 1 0 result (λ ns. over_type op (type_at ns (look table.old) x) (type_at ns (look table.old) v)) }
{
    match op {
        Over::Each => table.in_bag(v),
        Over::Keep => { if table.is_truth(v) { Some(x) } else { None } }
    }
}

// The one type of two, if they are one.
pub fn same_type(table: &Table, x: u32, y: u32) -> Option<u32>
    requires first { x < size table.now }
    requires second { y < size table.now }
    ensures grew { Grew table.now table.now result }
    ensures says { Says table.now table.now 0 0 result (λ ns. if_so (same_ty (type_at ns (look table.now) x) (type_at ns (look table.now) y)) (type_at ns (look table.now) x ∷ [])) }
{
    if x == y { Some(x) } else { None }
}
