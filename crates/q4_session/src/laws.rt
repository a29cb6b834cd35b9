//! What holds of sessions whatever a call does. These functions do nothing: their contracts are the laws.

ghost use Rattle.std.specs.Prelude.{◌≡◌, ◌++◌, ◌∷◌, List};
ghost use Rattle.q4_machine.specs.declared.entry.Entry.{Entry as HistoryEntry};
ghost use Rattle.q4_machine.specs.Patience.{PatienceState};
ghost use Rattle.q4_session.specs.Exchanges.{Client, Exchange, AreExchanges, grown_by};
ghost use Rattle.q4_session.specs.Standing.{IsGranted, IsDone};

/// A law: wherever a line of a conversation was answered with something other than a refusal or `bye`, what the history
/// grew by while it was answered has the entry of the line's own command, whose reply gives the outcome, and in every
/// history that goes on from the conversation it is settled.
pub fn granted_lines_are_done()
    ensures { (client : Client) (before : List HistoryEntry) (patience : PatienceState) (exchanges front back : List Exchange) (e : Exchange) (more : List HistoryEntry)
        → AreExchanges client before patience exchanges → exchanges ≡ front ++ e ∷ back → IsGranted e.outcome → IsDone client (before ++ grown_by front) ((before ++ grown_by exchanges) ++ more) e }
{}
