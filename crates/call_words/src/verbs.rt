ghost use Rattle.std.specs.Prelude.{◌≡◌, ◌≢◌, MatchOption};
ghost use Rattle.call_words.specs.declared.verbs.Verb.{Verb};
ghost use Rattle.call_words.specs.Verbs.{word_of};

/// The first word of a call.
#[derive(Clone, Copy)]
pub enum Verb {
    Run,
    Check,
    Upgrade,
    Gen,
    Demo,
    Fill,
    Gerber,
    Trace,
    Through,
    Auto,
}

/// Which first word of a call the word is.
pub fn verb_of(word: &str) -> Option<Verb>
    ensures { MatchOption result ((v : Verb) → word_of v ≢ word.now) (λ v. word_of v ≡ word.now) }
{
    match word {
        "run" => Some(Verb::Run),
        "check" => Some(Verb::Check),
        "upgrade" => Some(Verb::Upgrade),
        "gen" => Some(Verb::Gen),
        "demo" => Some(Verb::Demo),
        "fill" => Some(Verb::Fill),
        "gerber" => Some(Verb::Gerber),
        "trace" => Some(Verb::Trace),
        "through" => Some(Verb::Through),
        "auto" => Some(Verb::Auto),
        _ => None,
    }
}
