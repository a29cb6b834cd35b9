//! What holds of definitions whatever a call does. This function does nothing: its contract is
//! the laws.

ghost use Rattle.std.specs.Prelude.{◌≡◌, ℕ, List};
ghost use Rattle.q4_def.specs.declared.table_def.TableDef.{TableDef as Def};
ghost use Rattle.q4_def.specs.declared.fault.DefFault.{DefFault as Fault};
ghost use Rattle.q4_def.specs.Tables.{AreDefs};
ghost use Rattle.q4_def.specs.Document.{Reads};
ghost use Rattle.q4_def.specs.Faults.{Fails};

/// Laws of files of definitions.
pub fn def_laws()
    // What a file has is well formed.
    ensures well_formed { (bytes : List ℕ) (defs : List Def) → Reads bytes defs → AreDefs defs }
    // A file has one list of definitions at most.
    ensures one_list { (bytes : List ℕ) (one other : List Def) → Reads bytes one → Reads bytes other → one ≡ other }
    // A file that has definitions has no fault.
    ensures apart { (bytes : List ℕ) (defs : List Def) (why : Fault) → Reads bytes defs → Fails bytes why → ⊥ }
    // A file has one fault at most.
    ensures one_fault { (bytes : List ℕ) (one other : Fault) → Fails bytes one → Fails bytes other → one ≡ other }
{}
