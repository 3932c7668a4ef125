// What a query writes out that is not of its type, which is brought into memory all the same; and what is.
use crate::fill::{fill, fill_of_type};
use crate::load::{load_literals, load_literals_of_type};
use crate::step::Part;
use guide::mark;
use values::lent::Memory;
use values::value::{Place, Value};

// A bag of nothing where the type has a bag of bags of numbers, and a record after it.
const OTHER: [u8; 50] = [
    3, 5, 2, 0, 0, 0, 1, 0, 0, 0, 97, 1, 0, 0, 0, 98, 4, 4, 1, 5, 0, 0, 0, 0, 6, 2, 0, 0, 0, 1, 0,
    0, 0, 97, 1, 0, 0, 0, 98, 5, 1, 0, 0, 0, 0, 6, 0, 0, 0, 0,
];

// A bag of one number, with its type.
const OF_ITS_TYPE: [u8; 17] = [3, 4, 1, 5, 1, 0, 0, 0, 1, 7, 0, 0, 0, 0, 0, 0, 0];

const SLOTS: Place = Place { start: 0, count: 1 };

#[test]
fn another_datum_is_loaded(rt: HostRuntime) {
    let mut guide = [0; 50];
    assert_eq!(rt; mark(&OTHER, &mut guide, 0, 100), Some(50));
    let mut marks = [0; 50];
    let mut lent = [0; 64];
    let mut memory = Memory {
        kept: &[],
        made: &mut lent,
        top: 0,
    };
    assert_eq!(rt;
        load_literals(&OTHER, 0, &OTHER, &guide, &mut marks, &mut memory),
        Some(0)
    );
    assert!(rt; memory.load::<Value>(0) == Value::Record(Place { start: 3, count: 2 }));
}

#[test]
fn another_datum_fills_a_slot(rt: HostRuntime) {
    let mut guide = [0; 50];
    assert_eq!(rt; mark(&OTHER, &mut guide, 0, 100), Some(50));
    let part = Part {
        query: &OTHER,
        guide: &guide,
        at: 0,
    };
    let mut lent = [0; 64];
    let mut memory = Memory {
        kept: &[],
        made: &mut lent,
        top: 3,
    };
    assert_eq!(rt; fill(&OTHER, 0, part, &mut memory, SLOTS, 0), Some(1));
}

#[test]
fn a_datum_of_its_type_is_loaded(rt: HostRuntime) {
    let mut guide = [0; 17];
    assert_eq!(rt; mark(&OF_ITS_TYPE, &mut guide, 0, 100), Some(17));
    let mut marks = [0; 17];
    let mut lent = [0; 64];
    let mut memory = Memory {
        kept: &[],
        made: &mut lent,
        top: 0,
    };
    assert_eq!(rt;
        load_literals_of_type(
            &OF_ITS_TYPE,
            0,
            &OF_ITS_TYPE,
            &guide,
            &mut marks,
            &mut memory
        ),
        Some(0)
    );
    assert!(rt; memory.load::<Value>(0) == Value::Bag(Place { start: 3, count: 1 }));
    assert!(rt; memory.load::<Value>(3) == Value::Number(7));
}

#[test]
fn a_datum_of_its_type_fills_a_slot(rt: HostRuntime) {
    let mut guide = [0; 17];
    assert_eq!(rt; mark(&OF_ITS_TYPE, &mut guide, 0, 100), Some(17));
    let part = Part {
        query: &OF_ITS_TYPE,
        guide: &guide,
        at: 0,
    };
    let mut lent = [0; 64];
    let mut memory = Memory {
        kept: &[],
        made: &mut lent,
        top: 3,
    };
    assert_eq!(rt;
        fill_of_type(&OF_ITS_TYPE, 0, part, &mut memory, SLOTS, 0),
        Some(1)
    );
}
