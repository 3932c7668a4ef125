// Records made of names and types one by one.
ghost use Rattle.std.specs.Prelude.{◌≡◌, ◌<◌, [], ◌∷◌, length};
ghost use Rattle.query.specs.Query.{a_rec};
ghost use Rattle.query.specs.Types.{if_so};
ghost use Rattle.types.specs.Fields.{rise};
ghost use Rattle.types.specs.Outcomes.{look, size, Grew, Says};
ghost use Rattle.types.specs.Operators.{NamesOf, named, types_of, zip_ty};

use crate::entry::Field;
use crate::table::Table;

// Whether numbers rise.
fn rises(ranks: &[u32]) -> bool
    ensures { result ≡ rise 0 ranks.now }
{
    for pair in ranks.windows(2) {
        if pair[0] >= pair[1] {
            return false;
        }
    }
    true
}

impl Table {
    // The type of a record of so many fields, if its names are in order.
    pub fn record(&mut self, ranks: &[u32], of: &[u32]) -> Option<u32>
        requires names { NamesOf self.old.names ranks.now }
        requires within { NamesOf (size self.old) of.now }
        requires many { length of.now ≡ length ranks.now }
        ensures grew { Grew self.old self.new result }
        ensures says { Says self.old self.new 1 (length ranks.now) result (λ ns. if_so (rise 0 ranks.now) (a_rec (zip_ty (named ns ranks.now) (types_of ns (look self.old) of.now)) ∷ [])) }
    {
        if !rises(ranks) || !self.spare(ranks.len()) {
            return None;
        }
        let start = self.fields.len();
        for (name, of) in ranks.iter().zip(of) {
            self.fields.push_reserved(Field {
                name: *name,
                of: *of,
            });
        }
        Some(self.seal(start))
    }
}
