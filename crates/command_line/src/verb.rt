// The first word of a command.
ghost use Rattle.std.specs.Prelude.{◌≡◌};
ghost use Rattle.command_line.specs.Reading.{verb_of as verb_of_lem};

#[derive(Clone, Copy)]
pub(crate) enum Verb {
    Simple,
    Check,
    Run,
    List,
    Demo,
}

// The first word that this is.
#[tactic(auto, unfolding(crate::specs::Reading::verb_of))]
pub(crate) fn verb_of(word: &str) -> Option<Verb>
    ensures { result ≡ verb_of_lem word.now }
{
    match word {
        "simple" => Some(Verb::Simple),
        "check" => Some(Verb::Check),
        "run" => Some(Verb::Run),
        "list" => Some(Verb::List),
        "demo" => Some(Verb::Demo),
        _ => None,
    }
}
