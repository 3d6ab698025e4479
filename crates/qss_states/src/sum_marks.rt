//! Marks of the sums of rows that a tick computes anew, so that it computes each of them once.

ghost use Rattle.std.specs.Prelude.{◌≡◌, ◌↔◌, ◌<◌, All, IsTrue, length};
ghost use Rattle.qss_states.specs.SumMarks.{AreMarked, listed_rows};

use qss_machine::Uses;

/// The mark, a number that is no sum of a row: the absolute value of a slope is at most 2^101, and
/// an absolute row sum is not negative.
pub(crate) const SUM_MARK: i128 = i128::MIN;

/// Whether a sum is marked.
pub(crate) fn is_sum_marked(sum: i128) -> bool
    ensures { IsTrue result ↔ (sum ≡ SUM_MARK) }
{
    sum == SUM_MARK
}

/// Marks the sums of the rows that read one of these variables.
pub(crate) fn mark_reader_sums(uses: &Uses, variables: &[u32], sums: &mut [i128])
    requires variables { All (λ var. var < length uses.now.0) variables.now }
    requires rows { All (All (λ row. row < length sums.old)) uses.now.0 }
    ensures { AreMarked (listed_rows uses.now.0 variables.now) sums.old sums.new }
{
    for var in variables {
        mark_sums(uses.rows_of(*var), sums);
    }
}

// Marks the sums of these rows.
fn mark_sums(rows: &[u32], sums: &mut [i128])
    requires { All (λ row. row < length sums.old) rows.now }
    ensures { AreMarked rows.now sums.old sums.new }
{
    for row in rows {
        sums[*row as usize] = SUM_MARK;
    }
}
