ghost use Rattle.std.specs.Prelude.{◌≡◌, ◌+◌, ◌<◌, ◌≤◌, ◌↔◌, Contains, IsTrue};
ghost use Rattle.io_edge.specs.Faults.{failed_calls, one_more};

fn has_number(numbers: &[u64], number: u64) -> bool
    ensures { IsTrue result ↔ Contains numbers.now number }
{
    numbers.contains(&number)
}

/// Whether the call after this many calls stands among those that fail.
pub(crate) fn fails_next(fails: &[u64], calls: u64) -> bool
    ensures fails { IsTrue result ↔ Contains fails.now (calls + 1) }
    ensures risen { IsTrue result → failed_calls fails.now calls < failed_calls fails.now (one_more calls) }
    ensures never_falls { failed_calls fails.now calls ≤ failed_calls fails.now (one_more calls) }
{
    match calls.checked_add(1) {
        Some(number) => has_number(fails, number),
        None => false,
    }
}
