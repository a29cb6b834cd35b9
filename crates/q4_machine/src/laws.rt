//! What holds of machines and histories whatever a call does. These functions do nothing: their contracts are the laws.

ghost use Rattle.std.specs.Prelude.{◌≡◌, ◌≢◌, ◌++◌, ◌∷◌, [], ℕ, List};
ghost use Rattle.q4_machine.specs.declared.entry.Entry.{Entry as HistoryEntry};
ghost use Rattle.q4_machine.specs.declared.entry.Call.TheVariants as call;
ghost use Rattle.q4_machine.specs.declared.looks.Listed.{Listed as ListedTable};
ghost use Rattle.q4_machine.specs.Definitions.{definitions};
ghost use Rattle.q4_machine.specs.Valid.{IsValid};
ghost use Rattle.q4_machine.specs.History.{IsLegal, state_after, definitions_of};
ghost use Rattle.q4_machine.specs.Looked.{LookAnswers};

/// A law: every machine that a legal history reaches is valid, at each of its cuts. So a row has at most one
/// owner, which is an open session, a session's mode is that of its row, and every table keeps its limits.
pub fn reached_machines_are_valid()
    ensures { (history front later : List HistoryEntry) → IsLegal history → history ≡ front ++ later → front ≢ [] → IsValid (state_after front) }
{}

/// A law: each look of a legal history was answered with the oldest row that nobody owned and that met the condition
/// of the earliest entry of its list that any met, and with none only where none did.
pub fn looks_take_the_oldest()
    ensures { (history front later : List HistoryEntry) (e : HistoryEntry) (list : List ListedTable) → IsLegal history → history ≡ front ++ e ∷ later → e.call ≡ call.Look list
        → LookAnswers (state_after front) (state_after (front ++ e ∷ [])) e.session list e.reply }
{}

/// A law: the tables of a legal history have the names and columns of its first entry, at each of its cuts.
pub fn definitions_stay()
    ensures { (history front later : List HistoryEntry) → IsLegal history → history ≡ front ++ later → front ≢ [] → definitions (state_after front).tables ≡ definitions_of history }
{}
