// Data that are not of their type are loaded all the same.
use loading::data::load_data;
use loading::loaded::Spot;
use loading::tables::load_tables;
use values::lent::Memory;
use values::value::{Place, Value};

mod tests {
    use super::*;

    // A bag of nothing where the type has a bag of bags of numbers, and a record after it; then the type.
    const OTHER: [u8; 49] = [
        6, 2, 0, 0, 0, 1, 0, 0, 0, 97, 1, 0, 0, 0, 98, 5, 1, 0, 0, 0, 0, 6, 0, 0, 0, 0, 5, 2, 0, 0,
        0, 1, 0, 0, 0, 97, 1, 0, 0, 0, 98, 4, 4, 1, 5, 0, 0, 0, 0,
    ];

    // The same bag as a table, with a number after it; then the types of both.
    const TABLES: [u8; 19] = [5, 1, 0, 0, 0, 0, 1, 7, 0, 0, 0, 0, 0, 0, 0, 4, 4, 1, 1];

    #[test]
    fn another_datum_is_loaded(rt: HostRuntime) {
        let mut lent = [0; 64];
        let mut memory = Memory {
            kept: &[],
            made: &mut lent,
            top: 0,
        };
        let loaded = load_data(
            Spot {
                bytes: &OTHER,
                at: 0,
                ty: 26,
            },
            100,
            &mut memory,
        );
        assert!(rt;
            loaded.is_some_and(|l| l.value == Value::Record(Place { start: 0, count: 2 })
                && l.length == 26
                && l.typed == 23)
        );
    }

    #[test]
    fn other_tables_are_loaded(rt: HostRuntime) {
        let mut lent = [0; 64];
        let mut memory = Memory {
            kept: &[],
            made: &mut lent,
            top: 0,
        };
        assert_eq!(rt;
            load_tables(
                Spot {
                    bytes: &TABLES,
                    at: 0,
                    ty: 15
                },
                2,
                &mut memory
            ),
            Some(0)
        );
        assert!(rt; memory.load::<Value>(0) == Value::Bag(Place { start: 6, count: 1 }));
        assert!(rt; memory.load::<Value>(3) == Value::Number(7));
    }
}
