// Comparisons.
ghost use Rattle.std.specs.Prelude.{◌≡◌, IfSome, Ok};
ghost use Rattle.exec2_run.specs.Comparisons as spec;
ghost use Rattle.exec2_run.specs.Given.{bound};
ghost use Rattle.exec2_run.specs.Faults.{Answers};

use crate::Fault;
use crate::borrowed::borrowed;
use crate::given::Seen;
use crate::loops::Test;
use crate::values::value;
use cms_text::{BLANK, Word, is_keyword, number};
use std::alloc::Global;
use std::cmp::Ordering;
use std::iter::repeat_n;

/// How two words are compared (VM/SP EXEC 2 Reference, &IF and &LOOP).
#[derive(Clone, Copy)]
pub enum Comparison {
    /// `=` or EQ
    Equal,
    /// `^=` or NE
    NotEqual,
    /// `<` or LT
    Less,
    /// `<=` or LE
    AtMost,
    /// `>` or GT
    Greater,
    /// `>=` or GE
    AtLeast,
}

const COMPARISONS: [Comparison; 6] = [
    Comparison::Equal,
    Comparison::NotEqual,
    Comparison::Less,
    Comparison::AtMost,
    Comparison::Greater,
    Comparison::AtLeast,
];

impl Comparison {
    /// The comparison that a word stands for, as it stands, in capital or small letters; none exactly where it is no such word.
    #[tactic(auto, unfolding(crate::specs::Comparisons::comparison_of))]
    pub fn read(word: &[u8]) -> Option<Comparison>
        ensures { result ≡ spec.comparison_of word.now }
    {
        COMPARISONS
            .iter()
            .copied()
            .find(|comparison| comparison.is_written(word))
    }

    fn is_written(self, word: &[u8]) -> bool
        ensures { result ≡ spec.is_written word.now self }
    {
        if is_keyword(word, self.sign()) {
            return true;
        }
        is_keyword(word, self.letters())
    }

    fn sign(self) -> &'static str
        ensures { result.now ≡ spec.sign_of self }
    {
        match self {
            Comparison::Equal => "=",
            Comparison::NotEqual => "^=",
            Comparison::Less => "<",
            Comparison::AtMost => "<=",
            Comparison::Greater => ">",
            Comparison::AtLeast => ">=",
        }
    }

    fn letters(self) -> &'static str
        ensures { result.now ≡ spec.letters_of self }
    {
        match self {
            Comparison::Equal => "EQ",
            Comparison::NotEqual => "NE",
            Comparison::Less => "LT",
            Comparison::AtMost => "LE",
            Comparison::Greater => "GT",
            Comparison::AtLeast => "GE",
        }
    }

    /// Whether it holds of two words in this order.
    fn holds_at(self, order: Ordering) -> bool
        ensures { result ≡ spec.holds_at self order }
    {
        match self {
            Comparison::Equal => matches!(order, Ordering::Equal),
            Comparison::NotEqual => !matches!(order, Ordering::Equal),
            Comparison::Less => matches!(order, Ordering::Less),
            Comparison::AtMost => !matches!(order, Ordering::Greater),
            Comparison::Greater => matches!(order, Ordering::Greater),
            Comparison::AtLeast => !matches!(order, Ordering::Less),
        }
    }
}

/// Whether a comparison holds of two words that were expanded.
pub fn holds(comparison: Comparison, left: &[u8], right: &[u8]) -> bool
    ensures { result ≡ spec.holds comparison left.now right.now }
{
    comparison.holds_at(order(left, right))
}

/// Whether the comparison of a WHILE or UNTIL holds now.
#[tactic(auto, unfolding(crate::specs::Comparisons::test_holds))]
pub fn test_holds(alloc: Global, seen: &Seen<'_>, test: &Test) -> Result<bool, Fault>
    ensures { Answers (spec.test_holds (bound seen.now) test.now) result }
{
    words_hold(alloc, seen, &test.left, test.comparison, &test.right)
}

/// Whether a comparison holds of two words as they stand.
#[tactic(auto, unfolding(crate::specs::Comparisons::test_holds))]
pub fn words_hold(
    alloc: Global,
    seen: &Seen<'_>,
    left: &Word,
    comparison: Comparison,
    right: &Word,
) -> Result<bool, Fault>
    ensures { Answers (spec.test_holds (bound seen.now)
        (record { left = left.now; comparison = comparison; right = right.now })) result }
{
    if let Some(it) = holds_borrowed(seen, left.bytes(), comparison, right.bytes()) {
        return Ok(it);
    }
    let left = value(alloc, seen, left)?;
    let right = value(alloc, seen, right)?;
    Ok(holds(comparison, left.bytes(), right.bytes()))
}

/// The same of words whose values are borrowed.
#[tactic(auto, unfolding(crate::specs::Comparisons::test_holds))]
fn holds_borrowed(
    seen: &Seen<'_>,
    left: &[u8],
    comparison: Comparison,
    right: &[u8],
) -> Option<bool>
    ensures { IfSome result (λ it. spec.test_holds (bound seen.now)
        (record { left = left.now; comparison = comparison; right = right.now }) ≡ Ok it) }
{
    let left = borrowed(seen, left)?;
    let right = borrowed(seen, right)?;
    Some(holds(comparison, left, right))
}

/// The order of two words: two numbers as numbers, else bytes in the order of the code page, the shorter word filled with blanks.
#[tactic(auto, unfolding(crate::specs::Comparisons::order))]
fn order(left: &[u8], right: &[u8]) -> Ordering
    ensures { result ≡ spec.order left.now right.now }
{
    match (number(left), number(right)) {
        (Some(left), Some(right)) => left.cmp(&right),
        _ => order_of_texts(left, right),
    }
}

/// That of two texts, as if blanks stood behind the shorter one.
fn order_of_texts(left: &[u8], right: &[u8]) -> Ordering
    ensures { result ≡ spec.order_of_texts left.now right.now }
{
    let behind_left = right.len().saturating_sub(left.len());
    let behind_right = left.len().saturating_sub(right.len());
    left.iter()
        .copied()
        .chain(repeat_n(BLANK, behind_left))
        .cmp(right.iter().copied().chain(repeat_n(BLANK, behind_right)))
}
