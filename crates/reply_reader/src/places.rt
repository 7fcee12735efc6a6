ghost use Rattle.std.specs.Prelude.{◌≡◌, ◌≤◌, ◌+◌};

/// A place between two lines of a text.
#[derive(Clone, Copy)]
pub struct Place {
    /// How many bytes stand before it.
    pub at: usize,
    /// The number of the line after it, from 1.
    pub line: u64,
    pub ghost counted: { line ≤ at + 1 },
}

impl Place {
    /// Before the first line.
    pub fn first() -> Place
        ensures at { result.at ≡ 0 }
        ensures line { result.line ≡ 1 }
    {
        Place { at: 0, line: 1 }
    }
}
