// The walk over a query: its type by those of its parts.
ghost use Rattle.std.specs.Prelude.{ℕ, ◌<◌};
ghost use Rattle.types.specs.Outcomes.{size, Grew};
ghost use Rattle.typing.specs.Loads.{Fit};
ghost use Rattle.typed.specs.Walks.{scene, Ready, Walked};

use crate::part::{joint_type, leaf_type, over_type, same_type, single_type};
use crate::scene::Lent;
use crate::shape::Shape;
use crate::step::step_at;
use types::table::Table;
use typing::work::Work;

// The number of the type of the query at a place, with the types of what goes along and of what is looked at; none where it has no type.
// Each nesting takes one off the depth, so that the walk ends whatever the guide says.
pub fn type_of(
    lent: &Lent,
    table: &mut Table,
    work: &mut Work,
    pos: usize,
    env: u32,
    it: u32,
    depth: usize,
) -> Option<u32>
    requires ready { Ready (scene lent.now) table.old work.old }
    requires along { env < size table.old }
    requires looked { it < size table.old }
    ensures grew { Grew table.old table.new result }
    ensures fit { Fit work.new }
    ensures told { Walked (scene lent.now) table.old table.new pos env it depth result }
{
    if depth == 0 {
        return None;
    }
    let step = step_at(lent, pos)?;
    match step.shape {
        Shape::Leaf(leaf) => leaf_type(lent, table, work, pos, step.last, leaf, env, it),
        Shape::Single(op) => {
            let x = type_of(lent, table, work, step.last, env, it, depth - 1)?;
            single_type(lent, table, work, pos, op, x)
        }
        Shape::Pair(op) => {
            let x = type_of(lent, table, work, step.first, env, it, depth - 1)?;
            let y = type_of(lent, table, work, step.last, env, it, depth - 1)?;
            joint_type(lent, table, pos, op, x, y)
        }
        Shape::Over(op) => {
            let x = type_of(lent, table, work, step.last, env, it, depth - 1)?;
            let u = table.elem_of(x)?;
            let v = type_of(lent, table, work, step.first, env, u, depth - 1)?;
            over_type(table, op, x, v)
        }
        Shape::Then => {
            let x = type_of(lent, table, work, step.last, env, it, depth - 1)?;
            type_of(lent, table, work, step.first, env, x, depth - 1)
        }
        Shape::WithEnv => {
            let x = type_of(lent, table, work, step.last, env, it, depth - 1)?;
            type_of(lent, table, work, step.first, x, it, depth - 1)
        }
        Shape::Either => {
            let sides = table.sides_of(it)?;
            let x = type_of(lent, table, work, step.first, env, sides.left, depth - 1)?;
            let y = type_of(lent, table, work, step.last, env, sides.right, depth - 1)?;
            same_type(table, x, y)
        }
    }
}
