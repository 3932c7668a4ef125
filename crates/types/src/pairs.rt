// Types of products and matchings, by the numbers of the types of their two bags.
ghost use Rattle.std.specs.Prelude.{◌<◌, [], slice_index_or};
ghost use Rattle.types.specs.Shapes.{type_at};
ghost use Rattle.types.specs.Outcomes.{look, size, Grew, Says};
ghost use Rattle.types.specs.Operators.{product_ty, matched_ty, paired_ty};

use crate::table::Table;

impl Table {
    // A bag of two records in one.
    fn paired(&mut self, x: u32, y: u32) -> Option<u32>
        requires first { x < size self.old }
        requires second { y < size self.old }
        ensures grew { Grew self.old self.new result }
        ensures says { Says self.old self.new 2 self.old.names result (λ ns. paired_ty (type_at ns (look self.old) x) (type_at ns (look self.old) y)) }
    {
        let r = self.join_recs(x, y)?;
        self.in_bag(r)
    }

    // The type of a product.
    pub fn product(&mut self, x: u32, y: u32) -> Option<u32>
        requires first { x < size self.old }
        requires second { y < size self.old }
        ensures grew { Grew self.old self.new result }
        ensures says { Says self.old self.new 2 self.old.names result (λ ns. product_ty (type_at ns (look self.old) x) (type_at ns (look self.old) y)) }
    {
        let a = self.elem_of(x)?;
        let b = self.elem_of(y)?;
        self.paired(a, b)
    }

    // The type of a matching by two fields, which are of one type.
    pub fn matched(&mut self, m: u32, n: u32, x: u32, y: u32) -> Option<u32>
        requires name { m < self.old.names }
        requires other { n < self.old.names }
        requires first { x < size self.old }
        requires second { y < size self.old }
        ensures grew { Grew self.old self.new result }
        ensures says { Says self.old self.new 2 self.old.names result (λ ns. matched_ty (slice_index_or ns m []) (slice_index_or ns n []) (type_at ns (look self.old) x) (type_at ns (look self.old) y)) }
    {
        let a = self.elem_of(x)?;
        let b = self.elem_of(y)?;
        let u = self.dot(m, a)?;
        let v = self.dot(n, b)?;
        if u != v {
            return None;
        }
        self.paired(a, b)
    }
}
