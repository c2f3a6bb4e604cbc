// Examples of the operations on lists, tables and sequences, and of clones. A contract says nothing where memory is wanting:
// these show that each operation succeeds.
#![tactic(auto)]

#[cfg(test)]
mod tests {
    use lists::{
        RangeFault, collect, contains, field, in_order, insert, insert_into, joined, range, remove,
    };
    use search::{Walk, walks};
    use sequences::{Items, count};
    use std::alloc::{AllocError, Global};
    use std::cmp::Ordering;
    use std::collections::LinkedList;
    use std::rc::Rc;
    use std::test::Fail;
    use tables::{add, add_to, delete, keys, put, select};
    use types::{Sides, ValueType};
    use values::{Entry, Value};

    #[test]
    fn clones_values(rt: HostRuntime) -> Result<(), Fail> {
        let heap = rt.alloc();
        let codes = Rc::new(heap, b"now".to_vec(heap)?)?;
        let fields = Rc::new(heap, numbers(heap, &[2, 1])?)?;
        let row = Rc::new(heap, numbers(heap, &[1, 2])?)?;
        let table = Rc::new(heap, entries(heap, &[(1, 10), (3, 30)])?)?;
        for (value, shows) in [
            (Value::Number(-7), "a number"),
            (Value::Text(codes), "a text"),
            (Value::Compound(fields), "a compound"),
            (Value::List(row), "a list"),
            (Value::Table(table), "a table"),
        ] {
            let clone = value.clone()?;
            assert!(rt; clone == value && clone.equals(&value), "{}", shows);
        }
        Ok(())
    }

    #[test]
    fn clones_types(rt: HostRuntime) -> Result<(), Fail> {
        let heap = rt.alloc();
        let fields = Rc::new(heap, vec![in heap; ValueType::Number, ValueType::Text]?)?;
        let item = Rc::new(heap, ValueType::Number)?;
        let sides = Rc::new(
            heap,
            Sides {
                key: ValueType::Number,
                associate: ValueType::Text,
            },
        )?;
        for (value_type, written) in [
            (ValueType::Number, "n"),
            (ValueType::Text, "t"),
            (ValueType::Compound(fields), "c2nt"),
            (ValueType::List(item), "ln"),
            (ValueType::Table(sides), "bnt"),
        ] {
            let clone = value_type.clone()?;
            assert_eq!(rt; format!(in heap; "{}", clone)?.as_str(), written);
        }
        Ok(())
    }

    #[test]
    fn inserts(rt: HostRuntime) -> Result<(), Fail> {
        let heap = rt.alloc();
        let cases: [(&[i32], i32, &[i32], &str); 5] = [
            (&[], 1, &[1], "into the empty list"),
            (&[2, 4], 1, &[1, 2, 4], "at the front"),
            (&[2, 4], 3, &[2, 3, 4], "in the middle"),
            (&[2, 4], 5, &[2, 4, 5], "at the end"),
            (&[2, 4], 2, &[2, 2, 4], "a value that stands already"),
        ];
        for (row, number, expected, shows) in cases {
            let mut row = numbers(heap, row)?;
            let list = insert(heap, &row, Value::Number(number))?;
            assert!(rt; list == numbers(heap, expected)?, "{}", shows);
            insert_into(&mut row, Value::Number(number))?;
            assert!(rt; row == list, "{}, in place", shows);
        }
        Ok(())
    }

    #[test]
    fn removes(rt: HostRuntime) -> Result<(), Fail> {
        let heap = rt.alloc();
        let cases: [(&[i32], i32, &[i32], &str); 3] = [
            (&[1, 2, 2, 3], 2, &[1, 2, 3], "one of two equal values"),
            (&[1, 2, 3], 3, &[1, 2], "the last value"),
            (&[1], 1, &[], "the only value"),
        ];
        for (row, number, expected, shows) in cases {
            let list = remove(heap, &numbers(heap, row)?, &Value::Number(number))?.ok_or(shows)?;
            assert!(rt; list == numbers(heap, expected)?, "{}", shows);
        }
        let absent = remove(heap, &numbers(heap, &[1, 3])?, &Value::Number(2))?;
        assert!(rt; absent.is_none(), "a value that does not stand");
        Ok(())
    }

    #[test]
    fn ranges(rt: HostRuntime) -> Result<(), Fail> {
        let heap = rt.alloc();
        let cases: [(i32, i32, Result<&[i32], RangeFault>, &str); 6] = [
            (1, 3, Ok(&[1, 2, 3]), "from the first up to the last"),
            (-1, 1, Ok(&[-1, 0, 1]), "over 0"),
            (2, 2, Ok(&[2]), "one number"),
            (
                1,
                0,
                Ok(&[]),
                "empty when the first comes right after the last",
            ),
            (
                1,
                -1,
                Err(RangeFault::Backward),
                "the first further behind the last",
            ),
            (1, 256, Err(RangeFault::TooLong), "of size 257"),
        ];
        for (first, last, expected, shows) in cases {
            let expected = match expected {
                Ok(row) => Ok(numbers(heap, row)?),
                Err(fault) => Err(fault),
            };
            assert!(rt; range(heap, first, last) == expected, "{}", shows);
        }
        assert_eq!(rt; range(heap, 1, 255)?.len(), 255, "of size 256");
        Ok(())
    }

    #[test]
    fn collects(rt: HostRuntime) -> Result<(), Fail> {
        let heap = rt.alloc();
        let list = collect(heap, numbers(heap, &[3, 1, 2, 1])?)?;
        assert!(rt;
            list == numbers(heap, &[1, 1, 2, 3])?,
            "in order, with repeats"
        );
        for (number, expected, shows) in [
            (1, true, "the first value, which stands twice"),
            (3, true, "the last"),
            (4, false, "above them all"),
        ] {
            assert_eq!(rt;
                contains(&list, &Value::Number(number)),
                expected,
                "{}",
                shows
            );
        }
        Ok(())
    }

    #[test]
    fn fields(rt: HostRuntime) -> Result<(), Fail> {
        let heap = rt.alloc();
        let fields = in_order(heap, numbers(heap, &[3, 1, 2])?)?;
        for (index, expected, shows) in [
            (0, Some(3), "the first field, as it was given"),
            (2, Some(2), "the last"),
            (3, None, "past the end"),
        ] {
            let expected = expected.map(Value::Number);
            assert!(rt; field(&fields, index) == expected.as_ref(), "{}", shows);
        }
        Ok(())
    }

    #[test]
    fn joins(rt: HostRuntime) -> Result<(), Fail> {
        let heap = rt.alloc();
        let front = numbers(heap, &[1, 2])?;
        let rest = numbers(heap, &[4])?;
        let longer = joined(heap, &front, Some(Value::Number(3)), &rest)?;
        assert!(rt; longer == numbers(heap, &[1, 2, 3, 4])?, "with an item");
        let shorter = joined(heap, &front, None, &rest)?;
        assert!(rt; shorter == numbers(heap, &[1, 2, 4])?, "without an item");
        Ok(())
    }

    #[test]
    fn puts_and_adds(rt: HostRuntime) -> Result<(), Fail> {
        let heap = rt.alloc();
        let stands: &[(i32, i32)] = &[(1, 10), (3, 30)];
        let table = entries(heap, stands)?;
        let cases: [((i32, i32), &[(i32, i32)], &[(i32, i32)], &str); 3] = [
            (
                (2, 0),
                &[(1, 10), (2, 0), (3, 30)],
                &[(1, 10), (2, 0), (3, 30)],
                "a new key in the middle",
            ),
            (
                (1, 0),
                &[(1, 0), (3, 30)],
                &[(1, 0), (1, 10), (3, 30)],
                "a key that stands, with another associate",
            ),
            (
                (1, 10),
                &[(1, 10), (3, 30)],
                &[(1, 10), (3, 30)],
                "an entry that stands, and stands once",
            ),
        ];
        for ((k, a), with_put, with_added, shows) in cases {
            let changed = put(heap, &table, Value::Number(k), Value::Number(a))?;
            assert!(rt; changed == entries(heap, with_put)?, "{}", shows);
            let grown = add(heap, &table, Value::Number(k), Value::Number(a))?;
            assert!(rt; grown == entries(heap, with_added)?, "{}", shows);
            let mut row = entries(heap, stands)?;
            add_to(&mut row, Value::Number(k), Value::Number(a))?;
            assert!(rt; row == grown, "{}, in place", shows);
        }
        Ok(())
    }

    #[test]
    fn deletes(rt: HostRuntime) -> Result<(), Fail> {
        let heap = rt.alloc();
        let table = entries(heap, &[(1, 10), (3, 30)])?;
        let cases: [(i32, &[(i32, i32)], &str); 2] = [
            (1, &[(3, 30)], "the first entry"),
            (3, &[(1, 10)], "the last"),
        ];
        for (key, expected, shows) in cases {
            let rest = delete(heap, &table, &Value::Number(key))?.ok_or(shows)?;
            assert!(rt; rest == entries(heap, expected)?, "{}", shows);
        }
        let absent = delete(heap, &table, &Value::Number(2))?;
        assert!(rt; absent.is_none(), "a key that does not stand");
        Ok(())
    }

    #[test]
    fn reads_tables(rt: HostRuntime) -> Result<(), Fail> {
        let heap = rt.alloc();
        let table = entries(heap, &[(1, 10), (3, 30)])?;
        for (key, expected, shows) in [
            (1, Some(10), "the first key"),
            (3, Some(30), "the last"),
            (2, None, "a key that does not stand"),
        ] {
            let expected = expected.map(Value::Number);
            assert!(rt;
                select(&table, &Value::Number(key)) == expected.as_ref(),
                "{}",
                shows
            );
        }
        assert!(rt;
            keys(heap, &table)? == numbers(heap, &[1, 3])?,
            "the keys in order"
        );
        Ok(())
    }

    #[test]
    fn takes_items(rt: HostRuntime) -> Result<(), Fail> {
        let heap = rt.alloc();
        let letters = vec![in heap; text(heap, "i")?, text(heap, "t")?]?;
        let row = Rc::new(heap, numbers(heap, &[1, 1])?)?;
        let table = Rc::new(heap, entries(heap, &[(1, 20), (3, 10)])?)?;
        for (value, expected, shows) in [
            (text(heap, "it")?, letters, "characters"),
            (Value::List(row), numbers(heap, &[1, 1])?, "entries"),
            (
                Value::Table(table),
                numbers(heap, &[20, 10])?,
                "associates, in order of key",
            ),
        ] {
            assert_eq!(rt; count(&value), Some(2), "{}", shows);
            assert!(rt; has_items(heap, &value, expected)?, "{}", shows);
        }
        Ok(())
    }

    #[test]
    fn walks_linked_rows(rt: HostRuntime) -> Result<(), Fail> {
        let heap = rt.alloc();
        for (number, index, found, shows) in [
            (1, 0, false, "before the first key"),
            (2, 0, true, "the first key"),
            (4, 1, true, "a key in the middle, which stands"),
            (5, 2, false, "a key in the middle, which does not"),
            (7, 3, false, "past the end"),
        ] {
            let mut row = LinkedList::new(heap);
            for key in [2, 4, 6] {
                row.push_back(key)?;
            }
            let mut walk = NumberWalk {
                row,
                sought: number,
            };
            let place = walks::find(&mut walk);
            assert_eq!(rt; (place.index, place.found), (index, found), "{}", shows);
            assert_eq!(rt; walk.row.len(), 3 - index, "{}", shows);
        }
        Ok(())
    }

    // A walk along a linked row of numbers, towards the place of one.
    #[derive(Drop)]
    struct NumberWalk {
        row: LinkedList<u32>,
        sought: u32,
    }

    impl Walk for NumberWalk {
        ghost use Rattle.std.specs.Prelude.{ℕ};
        ghost use Rattle.std.specs.Ordering.{nat_cmp};

        ghost Key = { ℕ };

        ghost compares = { nat_cmp };

        ghost sought = { λ w. w.sought };

        ghost ahead = { λ w. w.row };

        fn next(&self) -> Option<Ordering> {
            self.row.front().map(|key| key.cmp(&self.sought))
        }

        fn pass(&mut self) {
            self.row.pop_front();
        }
    }

    // Whether the items of the value are those, and no more.
    fn has_items(heap: Global, value: &Value, expected: Vec<Value>) -> Result<bool, AllocError> {
        let Some(mut items) = Items::of(value)? else {
            return Ok(false);
        };
        for item in expected {
            if items.next(heap)? != Some(item) {
                return Ok(false);
            }
        }
        Ok(items.next(heap)?.is_none())
    }

    fn numbers(heap: Global, row: &[i32]) -> Result<Vec<Value>, AllocError> {
        let mut values = Vec::new(heap);
        for number in row {
            values.push(Value::Number(*number))?;
        }
        Ok(values)
    }

    fn entries(heap: Global, row: &[(i32, i32)]) -> Result<Vec<Entry>, AllocError> {
        let mut table = Vec::new(heap);
        for (key, associate) in row {
            table.push(Entry {
                key: Value::Number(*key),
                associate: Value::Number(*associate),
            })?;
        }
        Ok(table)
    }

    fn text(heap: Global, characters: &str) -> Result<Value, AllocError> {
        Ok(Value::Text(Rc::new(heap, characters.as_bytes().to_vec(heap)?)?))
    }
}
