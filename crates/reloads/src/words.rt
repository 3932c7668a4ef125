// Words of this crate's own, as another crate lays its things in lent memory: `Item` alone is asked of them.
ghost use Rattle.std.specs.Prelude.{refl, slice_index};

use values::item::Item;
use values::lent::Memory;
use values::row::Row;

#[derive(Clone, Copy, Debug, PartialEq, Eq)]
struct Word {
    word: u64,
}

impl Item for Word {
    ghost WORDS = { 1 };

    ghost some = { refl };

    const WORDS: usize = 1;

    ghost read = { λ m at. record { word = slice_index m at } };

    fn load(row: &Row, at: usize) -> Word {
        Word { word: row.word(at) }
    }

    fn store(self, memory: &mut Memory, at: usize) {
        memory.set(at, self.word);
    }
}

mod tests {
    use super::*;
    use values::value::{Field, Place, Value};

    const HERE: Place = Place { start: 4, count: 2 };

    #[test]
    fn words_are_stored_and_read(rt: HostRuntime) {
        let mut lent = [0; 4];
        let mut memory = Memory {
            kept: &[7],
            made: &mut lent,
            top: 1,
        };
        assert_eq!(rt; memory.push(Word { word: 5 }), Some(1));
        assert_eq!(rt; memory.push(Word { word: 6 }), Some(2));
        memory.set_nth(1, 1, Word { word: 8 });
        Word { word: 9 }.store(&mut memory, 4);
        assert_eq!(rt; memory.nth::<Word>(0, 0), Word { word: 7 });
        assert_eq!(rt; memory.nth::<Word>(0, 1), Word { word: 5 });
        assert_eq!(rt; memory.nth::<Word>(0, 2), Word { word: 8 });
        assert_eq!(rt; memory.nth::<Word>(0, 4), Word { word: 9 });
    }

    #[test]
    fn no_room_for_a_word(rt: HostRuntime) {
        let mut lent = [0; 1];
        let mut memory = Memory {
            kept: &[],
            made: &mut lent,
            top: 0,
        };
        assert_eq!(rt; memory.push(Word { word: 5 }), Some(0));
        assert_eq!(rt; memory.push(Word { word: 6 }), None);
    }

    #[test]
    fn values_and_fields_are_items(rt: HostRuntime) {
        let mut lent = [0; 8];
        let mut memory = Memory {
            kept: &[],
            made: &mut lent,
            top: 0,
        };
        assert_eq!(rt; memory.push(Value::Number(5)), Some(0));
        let field = Field {
            name: HERE,
            value: Value::Text(HERE),
        };
        assert_eq!(rt; memory.push(field), Some(3));
        memory.set_nth(0, 0, Value::Left(3));
        assert!(rt; memory.nth::<Value>(0, 0) == Value::Left(3));
        let read = memory.load::<Field>(3);
        assert!(rt; read.name == HERE);
        assert!(rt; read.value == Value::Text(HERE));
    }
}
