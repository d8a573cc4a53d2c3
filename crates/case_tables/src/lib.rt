//! Tables of constant rows that are found by a key of bytes.
#![tactic(auto)]

ghost use Rattle.std.specs.Prelude.{◌≡◌, length, MatchOption, IfSome, IfNone};
ghost use Rattle.case_tables.specs.Tables.{bytes_cmp, Rises, HasKey, LacksKey};

use std::cmp::Ordering;

/// The value in the row of a variant: `cases_match!(value, Type { Variant => row, .. })` is a `match` with an arm
/// for each row of the table. Its rows have to be all variants of the type.
#[macro_export]
macro_rules! cases_match {
    ($value:expr, $of:ident { $($variant:ident => $row:expr),+ $(,)? }) => {
        match $value {
            $($of::$variant => $row),+
        }
    };
}

/// A row that has a key.
pub trait Keyed {
    ghost use Rattle.std.specs.Prelude.{◌≡◌, ℕ, List};

    ghost key: { Self → List ℕ };

    /// The key, as bytes.
    fn key(&self) -> &[u8]
        ensures { result.now ≡ key self.now };
}

/// A word is its own key, so that a list of words is a table.
impl Keyed for &'static str {
    ghost key = { λ word. word.now };

    fn key(&self) -> &[u8] {
        self.as_bytes()
    }
}

/// A table whose keys rise strictly by bytes. It borrows its rows and takes no memory.
#[derive(Drop)]
pub struct Cases<'a, R: Keyed, const N: usize> {
    /// The rows, in the order of their keys.
    pub rows: &'a [R],
    ghost count: { length rows.now ≡ N },
    ghost rises: { Rises R.key rows.now },
}

impl<'a, R: Keyed, const N: usize> Cases<'a, R, N> {
    /// The table of these rows, or `None` exactly where their keys don't rise strictly by bytes.
    pub fn new(rows: &'a [R; N]) -> Option<Cases<'a, R, N>>
        ensures { MatchOption result (Rises R.key rows.now → ⊥) (λ cases. (cases.rows.now ≡ rows.now) × Rises R.key rows.now) }
    {
        for i in 1..N {
            if rows[i - 1].key().cmp(rows[i].key()) != Ordering::Less {
                return None;
            }
        }
        Some(Cases { rows })
    }

    /// The row with this key, or `None` exactly where no row has it. It looks at one row for each halving of
    /// the table.
    pub fn find(&self, key: &[u8]) -> Option<&'a R>
        ensures found { IfSome result (λ row. HasKey R.key self.now.rows.now key.now row.now) }
        ensures only { IfSome result (λ row. (other : R) → HasKey R.key self.now.rows.now key.now other → other ≡ row.now) }
        ensures none { IfNone result (LacksKey R.key self.now.rows.now key.now) }
    {
        let table = self.rows;
        find_in(table, key)
    }
}

// The row with this key.
fn find_in<'a, R: Keyed>(table: &'a [R], key: &[u8]) -> Option<&'a R>
    requires { Rises R.key table.now }
    ensures found { IfSome result (λ row. HasKey R.key table.now key.now row.now) }
    ensures only { IfSome result (λ row. (other : R) → HasKey R.key table.now key.now other → other ≡ row.now) }
    ensures none { IfNone result (LacksKey R.key table.now key.now) }
{
    let mut low = 0;
    let mut high = table.len();
    while low < high {
        let mid = low + (high - low) / 2;
        match table[mid].key().cmp(key) {
            Ordering::Less => low = mid + 1,
            Ordering::Equal => return Some(&table[mid]),
            Ordering::Greater => high = mid,
        }
    }
    None
}

#[cfg(test)]
mod tests {
    use super::*;
    use std::test::Fail;

    #[derive(Clone, Copy, Debug, PartialEq, Eq, Drop)]
    struct Row {
        word: &'static str,
        number: u32,
    }

    impl Keyed for Row {
        ghost key = { λ r. r.word.now };

        fn key(&self) -> &[u8] {
            self.word.as_bytes()
        }
    }

    const fn entry(word: &'static str, number: u32) -> Row {
        Row { word, number }
    }

    #[test]
    fn finds_each_row(rt: HostRuntime) -> Result<(), Fail> {
        let rows = [
            entry("", 0),
            entry("a", 1),
            entry("aa", 2),
            entry("ab", 3),
            entry("b", 4),
            entry("\u{e9}", 5),
        ];
        let Some(cases) = Cases::new(&rows) else {
            return Err("no table".into());
        };
        for wanted in rows {
            assert_eq!(rt;
                cases.find(wanted.word.as_bytes()).map(|r| r.number),
                Some(wanted.number)
            );
        }
        for word in ["A", "aaa", "ac", "c", "\u{ff}"] {
            assert!(rt; cases.find(word.as_bytes()).is_none(), "{word}");
        }
        Ok(())
    }

    #[test]
    fn keys_rise(rt: HostRuntime) -> Result<(), Fail> {
        let none: [Row; 0] = [];
        assert!(rt; Cases::new(&none).is_some());
        assert!(rt; Cases::new(&[entry("b", 1)]).is_some());
        assert!(rt; Cases::new(&[entry("a", 1), entry("b", 2)]).is_some());
        assert!(rt; Cases::new(&[entry("a", 1), entry("a", 2)]).is_none());
        assert!(rt; Cases::new(&[entry("b", 1), entry("a", 2)]).is_none());
        assert!(rt; Cases::new(&[entry("a", 1), entry("c", 2), entry("b", 3)]).is_none());
        Ok(())
    }

    #[derive(Clone, Copy, Debug, PartialEq, Eq, Drop)]
    enum Color {
        Red,
        Green,
    }

    #[test]
    fn matches_a_table(rt: HostRuntime) -> Result<(), Fail> {
        for (color, wanted) in [(Color::Red, "red"), (Color::Green, "green")] {
            let word = cases_match!(color, Color { Red => "red", Green => "green" });
            assert_eq!(rt; word, wanted);
        }
        Ok(())
    }
}
