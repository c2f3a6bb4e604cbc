// Examples of the operations on texts and numbers.
#![tactic(auto)]

#[cfg(test)]
mod tests {
    use scalars::numbers::{floor_div, floor_mod};
    use scalars::texts;
    use std::test::Fail;
    use types::BOUND;
    use values::Value;

    #[test]
    fn divides(rt: HostRuntime) {
        let high = i64::from(BOUND);
        for (a, b, quotient, modulus, shows) in [
            (7, 3, Some(2), Some(1), "both above 0"),
            (-7, 3, Some(-3), Some(2), "the quotient is rounded down"),
            (7, -3, Some(-3), Some(-2), "the modulus has the sign of b"),
            (-7, -3, Some(2), Some(-1), "both below 0"),
            (-6, 3, Some(-2), Some(0), "b divides a"),
            (2, -3, Some(-1), Some(-1), "a is nearer to 0 than b"),
            (5, 0, None, None, "nothing by 0"),
            (0, 0, None, None, "not even 0"),
            (high, 1, Some(high), Some(0), "the highest number by 1"),
            (high, -1, Some(-high), Some(0), "by -1"),
            (-high, 1, Some(-high), Some(0), "the lowest number by 1"),
            (-high, -1, Some(high), Some(0), "by -1"),
            (high, high, Some(1), Some(0), "the bounds by each other"),
            (high, -high, Some(-1), Some(0), "the highest by the lowest"),
            (-high, high, Some(-1), Some(0), "the lowest by the highest"),
            (i64::MIN, -1, None, Some(0), "a quotient that does not fit"),
            (i64::MIN, 1, Some(i64::MIN), Some(0), "and one that does"),
        ] {
            assert_eq!(rt; floor_div(a, b), quotient, "{}", shows);
            assert_eq!(rt; floor_mod(a, b), modulus, "{}", shows);
        }
    }

    #[test]
    fn parts(rt: HostRuntime) -> Result<(), Fail> {
        let codes = b"nowhere";
        for (first, rest, shows) in [
            (-1, None, "a place below 0"),
            (0, None, "characters are counted from 1"),
            (1, Some("nowhere"), "the whole text"),
            (4, Some("here"), "a part"),
            (8, Some(""), "past the last character"),
            (9, None, "and no further"),
        ] {
            assert!(rt;
                is_text(texts::from(rt.alloc(), codes, first)?, rest),
                "{}",
                shows
            );
        }
        for (count, front, shows) in [
            (-1, None, "fewer than none"),
            (0, Some(""), "none"),
            (3, Some("now"), "a part"),
            (7, Some("nowhere"), "the whole text"),
            (8, None, "more than there are"),
        ] {
            assert!(rt;
                is_text(texts::upto(rt.alloc(), codes, count)?, front),
                "{}",
                shows
            );
        }
        Ok(())
    }

    #[test]
    fn joins(rt: HostRuntime) -> Result<(), Fail> {
        for (a, b, both) in [
            ("now", "here", "nowhere"),
            ("", "here", "here"),
            ("now", "", "now"),
        ] {
            let joined = texts::join(rt.alloc(), a.as_bytes(), b.as_bytes())?;
            assert!(rt; is_text(Some(joined), Some(both)), "{}", both);
        }
        Ok(())
    }

    fn is_text(value: Option<Value>, expected: Option<&str>) -> bool {
        match value {
            None => expected.is_none(),
            Some(Value::Text(codes)) => match expected {
                None => false,
                Some(text) => codes.as_slice() == text.as_bytes(),
            },
            Some(Value::Number(_) | Value::Compound(_) | Value::List(_) | Value::Table(_)) => false,
        }
    }
}
