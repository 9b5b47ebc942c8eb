//! How many items the tests of the cases of a `switch` are.

use meaning::Span;

/// How many numbers are tested at once.
const MOST_AT_ONCE: usize = 3;

/// How many items test that a word is in one of some spans. From the last on, up to three numbers that
/// follow one another are tested by one item, a range by two; that there are none is one too.
pub fn test_count(spans: &[Span]) -> usize {
    let mut count: usize = 0;
    let mut numbers: usize = 0;
    for done in 0..spans.len() {
        match spans[spans.len() - 1 - done] {
            Span::One(_) => {
                if numbers == 0 {
                    count = count.saturating_add(1);
                }
                numbers = numbers.saturating_add(1) % MOST_AT_ONCE;
            }
            Span::Between(_, _) => {
                count = count.saturating_add(2);
                numbers = 0;
            }
        }
    }
    count.max(1)
}
