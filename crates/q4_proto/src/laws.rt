//! What holds of lines whatever a call does. These functions do nothing: their contracts are the laws.

ghost use Rattle.std.specs.Prelude.{◌≡◌, ◌≢◌, ◌⊎◌, ℕ, List, Result, Ok, Err};
ghost use Rattle.q4_def.specs.declared.table_def.TableDef.{TableDef as Def};
ghost use Rattle.q4_def.specs.Tables.{AreDefs};
ghost use Rattle.q4_proto.specs.declared.command.Command.{Command as Spelled};
ghost use Rattle.q4_proto.specs.declared.command.CommandFault.{CommandFault as Fault};
ghost use Rattle.q4_proto.specs.declared.command.CommandFault.TheVariants.{Memory};
ghost use Rattle.q4_proto.specs.Commands.{Reads};

/// A law: a line that spells a command is not refused, want of memory apart. So `read_command` reads exactly the lines
/// that spell commands.
pub fn spelled_lines_are_not_refused()
    ensures { (defs : List Def) (line : List ℕ) (command : Spelled) (fault : Fault) → AreDefs defs → Reads defs line (Ok command) → Reads defs line (Err fault) → fault ≡ Memory }
{}

/// A law: a line spells one command at most.
pub fn one_command()
    ensures { (defs : List Def) (line : List ℕ) (one other : Spelled) → AreDefs defs → Reads defs line (Ok one) → Reads defs line (Ok other) → one ≡ other }
{}

/// A law: a line has one fault at most, want of memory apart.
pub fn one_fault()
    ensures { (defs : List Def) (line : List ℕ) (one other : Fault) → AreDefs defs → Reads defs line (Err one) → Reads defs line (Err other) → (one ≡ other) ⊎ ((one ≡ Memory) ⊎ (other ≡ Memory)) }
{}

/// A law: every line has an answer other than want of memory, a command or a fault.
pub fn every_line_is_answered()
    ensures { (defs : List Def) (line : List ℕ) → AreDefs defs → (answer : Result Spelled Fault) × (answer ≢ Err Memory) × Reads defs line answer }
{}
