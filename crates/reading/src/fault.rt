// Why a text is refused.
#[derive(Clone, Copy, PartialEq, Eq, Debug)]
pub enum Fault {
    // Of no right form, limits aside: the longest beginning that some right form shares ends at this byte.
    Syntax { byte: usize },
    // Of a right form that passes a limit of length, size, bound or nesting.
    Limit,
}
