// The checks that a request has to pass before anything is worked out, each with the value that it hands on.
#![tactic(auto)]

ghost use Rattle.std.specs.Prelude.{◌≡◌};
ghost use Rattle.checks.specs.Checks.{WithinLimit, InOrder, OfSchema};

use of_type::tables_are;
use parts::order::sound_schema;
use parts::queries::query_parts;
use parts::types::schema_parts;

// Schema and query may have so many parts together.
pub const LIMIT: usize = 8192;

// How many parts schema and query have together, or that they have more than the limit. The schema's types stand from `schema_at` on.
pub fn within_limit(bytes: &[u8], schema_at: usize, types: usize, query_at: usize) -> Option<usize>
    ensures { WithinLimit bytes.now schema_at types query_at result }
{
    // both places are looked at before the schema is walked, which takes as long as it has bytes
    let schema_bytes = bytes.get(schema_at..)?;
    let query_bytes = bytes.get(query_at..)?;
    let schema = schema_parts(schema_bytes, types, LIMIT)?;
    let query = query_parts(query_bytes, LIMIT - schema.parts)?;
    Some(schema.parts + query.parts)
}

// Whether the names of each record in the schema are in order, each once.
pub fn in_order(bytes: &[u8], schema_at: usize, types: usize) -> bool
    ensures { InOrder bytes.now schema_at types result }
{
    match bytes.get(schema_at..) {
        Some(schema) => sound_schema(schema, types, LIMIT),
        None => false,
    }
}

// Whether the tables are of the schema.
pub fn of_schema(
    bytes: &[u8],
    schema_at: usize,
    types: usize,
    tables_at: usize,
    tables: usize,
) -> bool
    ensures { OfSchema bytes.now schema_at types tables_at tables result }
{
    match (bytes.get(tables_at..), bytes.get(schema_at..)) {
        (Some(data), Some(schema)) => tables_are(data, tables, schema, types, LIMIT),
        _ => false,
    }
}
