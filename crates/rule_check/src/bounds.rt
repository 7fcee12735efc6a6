//! The greatest gap of a board.

ghost use Rattle.std.specs.Prelude.{pos, ◌≤ℤ◌, All};
ghost use Rattle.board_parts.specs.declared.parts.Rule.{Rule as RuleOf};
ghost use Rattle.rule_check.specs.Bounds.{NoGapIsGreater};

use board_model::{Board, Rule};

/// The greatest gap of the rules, and at least 1.
fn greatest_of_rules(rules: &[Rule]) -> i32
    ensures some { pos 1 ≤ℤ result }
    ensures all { All (λ (r : RuleOf). r.gap ≤ℤ result) rules.now }
{
    let mut most = 1;
    for rule in rules {
        most = rule.gap.max(most);
    }
    most
}

/// The greatest of the gaps, and at least 1.
fn greatest_of_gaps(gaps: &[i32]) -> i32
    ensures some { pos 1 ≤ℤ result }
    ensures all { All (λ g. g ≤ℤ result) gaps.now }
{
    let mut most = 1;
    for gap in gaps {
        most = (*gap).max(most);
    }
    most
}

/// A gap, in micrometres, that no two owners have a greater one than.
pub fn greatest_gap(board: &Board) -> i32
    ensures { NoGapIsGreater board.now.parts result }
{
    let of_rules = greatest_of_rules(board.parts.rules.as_slice());
    of_rules.max(greatest_of_gaps(board.parts.gaps.as_slice()))
}
