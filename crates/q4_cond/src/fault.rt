use q4_value::NoMemory;

/// Why a text reads as no condition. Places count the text's bytes from 0.
#[derive(Clone, Copy, Debug, PartialEq, Eq)]
pub enum CondFault {
    /// The text has more than 1,024 bytes.
    Long,
    /// The token here begins no condition with those before it; at the text's end, the condition is not complete.
    At(u32),
    /// The `(`, `not` or unary `-` here stands within 32 others.
    Deep(u32),
    /// The word here names no column.
    NoColumn(u32),
    /// The text, or column of texts, here is no side of an `=` or `<>` of two such atoms.
    Kinds(u32),
    Memory,
}

impl From<NoMemory> for CondFault {
    ghost use Rattle.std.specs.Prelude.{◌≡◌};
    ghost use Rattle.q4_cond.specs.declared.fault.CondFault.TheVariants.{Memory};

    ghost from_gives = { λ _ fault. fault ≡ Memory };

    fn from(_fault: NoMemory) -> CondFault {
        CondFault::Memory
    }
}
