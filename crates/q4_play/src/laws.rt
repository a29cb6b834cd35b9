//! What holds of the sessions of a play. These functions do nothing: their contracts are the laws.

ghost use Rattle.std.specs.Prelude.{◌≡◌, ◌++◌, ◌∷◌, ℕ, Bool, List, Option as Perhaps, IsTrue};
ghost use Rattle.q4_machine.specs.declared.entry.Entry.{Entry as HistoryEntry};
ghost use Rattle.q4_machine.specs.declared.entry.Call.TheVariants as call;
ghost use Rattle.q4_machine.specs.Machine.{IsSessionOpen};
ghost use Rattle.q4_machine.specs.History.{IsLegal, state_after};
ghost use Rattle.q4_machine.specs.Patience.{PatienceState};
ghost use Rattle.q4_session.specs.Sessions.{Around};
ghost use Rattle.q4_session.specs.Standing.{IsGranted, IsDone};
ghost use Rattle.q4_play.specs.declared.plays.PlayEnd.{PlayEnd as PlayedEnd};
ghost use Rattle.q4_play.specs.Turns.{Host, Spoken, Turn, Spoke, AreTurns, client_of, grown_by};
ghost use Rattle.q4_play.specs.Plays.{CutSpoken, Play};
ghost use Rattle.q4_play.specs.Whole.{all_turns, HasNone, commands_behind, IsWholeSession, IsInSession, AreOfSessions};

/// A law: a session that an entry of a legal history closed is not open at its end.
pub fn closed_sessions_stay_closed()
    ensures { (before later : List HistoryEntry) (e : HistoryEntry) → e.call ≡ call.Close → IsLegal (before ++ e ∷ later) → IsSessionOpen (state_after (before ++ e ∷ later)) e.session → ⊥ }
{}

/// A law: in every play that left a legal history, a command of a label that has no session begins a whole session, which
/// goes on with the label's commands up to its leaving, and closes then or at the end of the play; each command of the
/// play is one of such a session; no two commands begin the same one; and each entry of the caller in what the history grew
/// by is of one that a command began.
pub fn labels_have_whole_sessions()
    ensures whole { (host : Host) (old new : Around) (ended : Bool) (how : PlayedEnd) (play : Play host old new (IsTrue ended) how) (front later : List Turn) (first : Spoken) (closing : List HistoryEntry)
        → IsLegal new.seen → all_turns play.lined.turns play.lined.stop ≡ front ++ Spoke first closing ∷ later → HasNone front first.label
        → IsWholeSession host new.seen first.session first (commands_behind first later) }
    ensures every { (host : Host) (old new : Around) (ended : Bool) (how : PlayedEnd) (play : Play host old new (IsTrue ended) how) (front later : List Turn) (spoken : Spoken) (closing : List HistoryEntry)
        → all_turns play.lined.turns play.lined.stop ≡ front ++ Spoke spoken closing ∷ later → IsInSession front spoken closing later }
    ensures apart { (host : Host) (old new : Around) (ended : Bool) (how : PlayedEnd) (play : Play host old new (IsTrue ended) how) (front later other_front other_later : List Turn) (first other : Spoken) (closing other_closing : List HistoryEntry)
        → IsLegal new.seen → all_turns play.lined.turns play.lined.stop ≡ front ++ Spoke first closing ∷ later → HasNone front first.label
        → all_turns play.lined.turns play.lined.stop ≡ other_front ++ Spoke other other_closing ∷ other_later → HasNone other_front other.label → first.session ≡ other.session → front ≡ other_front }
    ensures owned { (host : Host) (old new : Around) (ended : Bool) (how : PlayedEnd) (play : Play host old new (IsTrue ended) how) (grown : List HistoryEntry)
        → new.seen ≡ old.seen ++ grown → AreOfSessions host.caller (all_turns play.lined.turns play.lined.stop) grown }
{}

/// A law: wherever a command behind a label was answered with something other than a refusal or `bye`, what the history
/// grew by while it was answered has the entry of that command, whose reply gives the outcome, and in every history that
/// goes on from the turns it is settled.
pub fn granted_commands_are_done()
    ensures turns { (host : Host) (before : List HistoryEntry) (seating : List (Perhaps ℕ)) (patience : PatienceState) (turns front back : List Turn) (spoken : Spoken) (closing more : List HistoryEntry)
        → AreTurns host before seating patience turns → turns ≡ front ++ Spoke spoken closing ∷ back → IsGranted spoken.exchange.outcome
        → IsDone (client_of host spoken.session) ((before ++ grown_by front) ++ spoken.opening) ((before ++ grown_by turns) ++ more) spoken.exchange }
    // So is the command whose reply the sink did not take.
    ensures cut { (host : Host) (old new : Around) (ended : Bool) (how : PlayedEnd) (play : Play host old new (IsTrue ended) how) (spoken : Spoken)
        → play.lined.stop ≡ CutSpoken spoken → IsGranted spoken.exchange.outcome
        → IsDone (client_of host spoken.session) ((old.seen ++ grown_by play.lined.turns) ++ spoken.opening) new.seen spoken.exchange }
{}
