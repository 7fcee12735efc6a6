ghost use Rattle.std.specs.Prelude.{◌≡◌, ℕ, List};
ghost use Rattle.call_words.specs.Asked.{Asked};
ghost use Rattle.call_words.specs.Requests.{IsRequestOf};

/// Words ask for one thing at most.
pub fn requests_are_one()
    ensures { (words : List (List ℕ)) (a b : Asked) → IsRequestOf words a → IsRequestOf words b → a ≡ b }
{}
