// What a value is, or that it isn't of that kind. A bag and a record both are places, so one conversion by the type asked for is no plainer.
ghost use Rattle.std.specs.Prelude.{◌≡◌};
ghost use Rattle.operators.specs.Kinds.{as_number, as_truth, as_bag, as_record};

use crate::came::Stop;
use values::value::{Place, Value};

pub fn number(v: Value) -> Result<u64, Stop>
    ensures { result ≡ as_number v }
{
    match v {
        Value::Number(x) => Ok(x),
        _ => Err(Stop::Wrong),
    }
}

pub fn truth(v: Value) -> Result<bool, Stop>
    ensures { result ≡ as_truth v }
{
    match v {
        Value::Truth(b) => Ok(b),
        _ => Err(Stop::Wrong),
    }
}

pub fn bag(v: Value) -> Result<Place, Stop>
    ensures { result ≡ as_bag v }
{
    match v {
        Value::Bag(p) => Ok(p),
        _ => Err(Stop::Wrong),
    }
}

pub fn record(v: Value) -> Result<Place, Stop>
    ensures { result ≡ as_record v }
{
    match v {
        Value::Record(p) => Ok(p),
        _ => Err(Stop::Wrong),
    }
}
