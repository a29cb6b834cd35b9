ghost use Rattle.std.specs.Prelude.{◌≡◌, IfSome, IfNone};
ghost use Rattle.q4_proto.specs.Commands.{word_of};

/// The word that a command begins with.
#[derive(Clone, Copy, Debug, PartialEq, Eq)]
pub enum Keyword {
    Insert,
    Source,
    Wait,
    RowId,
    End,
    Abort,
    Select,
    Compact,
    Quit,
}

// The command whose word this is.
pub(crate) fn keyword_of(word: &str) -> Option<Keyword>
    ensures found { IfSome result (λ keyword. word.now ≡ word_of keyword) }
    ensures none { IfNone result ((keyword : Keyword) → word.now ≡ word_of keyword → ⊥) }
{
    match word {
        "insert" => Some(Keyword::Insert),
        "srcid" => Some(Keyword::Source),
        "wait" => Some(Keyword::Wait),
        "rowid" => Some(Keyword::RowId),
        "end" => Some(Keyword::End),
        "abort" => Some(Keyword::Abort),
        "select" => Some(Keyword::Select),
        "compact" => Some(Keyword::Compact),
        "quit" => Some(Keyword::Quit),
        _ => None,
    }
}
