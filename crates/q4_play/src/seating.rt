ghost use Rattle.std.specs.Prelude.{◌≡◌};
ghost use Rattle.q4_play.specs.Labels.{IsLabel, nobody, session_at, with_seat};

use std::marker::Model;

/// Which session each label has.
#[derive(Drop)]
pub(crate) struct Seating {
    sessions: [Option<u64>; 64],
}

impl Model for Seating {
    ghost use Rattle.std.specs.Prelude.{ℕ, List, Option};

    ghost Value = { List (Option ℕ) };

    ghost view = { λ s. s.sessions };
}

impl Seating {
    /// No label has a session.
    pub(crate) fn new() -> Seating
        ensures { result ≡ nobody }
    {
        Seating {
            sessions: [None; 64],
        }
    }

    pub(crate) fn session(&self, label: u8) -> Option<u64>
        requires { IsLabel label }
        ensures { result ≡ session_at self.now label }
    {
        self.sessions[usize::from(label) - 1]
    }

    pub(crate) fn set(&mut self, label: u8, session: Option<u64>)
        requires { IsLabel label }
        ensures { self.new ≡ with_seat self.old label session }
    {
        self.sessions[usize::from(label) - 1] = session;
    }
}
