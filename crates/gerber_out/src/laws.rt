ghost use Rattle.std.specs.Prelude.{◌≡◌, ℕ, List};
ghost use Rattle.geo_rect.specs.declared.shapes.Rect.{Rect};
ghost use Rattle.gerber_out.specs.Reading.{IsRead, IsRefused};

/// Of each text the machine makes one thing at most: the rectangles that it fills, or the line that
/// is refused.
pub fn readings_are_one()
    ensures read { (bytes : List ℕ) (a b : List Rect) → IsRead bytes a → IsRead bytes b → a ≡ b }
    ensures refused { (bytes : List ℕ) (m n : ℕ) → IsRefused bytes m → IsRefused bytes n → m ≡ n }
    ensures either { (bytes : List ℕ) (a : List Rect) (n : ℕ) → IsRead bytes a → IsRefused bytes n → ⊥ }
{}
