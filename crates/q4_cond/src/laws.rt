//! Laws of the condition language, which callers may rest on.
ghost use Rattle.std.specs.Prelude.{◌≡◌, ◌⊎◌, ℕ, List, Option};
ghost use Rattle.q4_value.specs.declared.column.Column.{Column as Heading};
ghost use Rattle.q4_cond.specs.declared.fault.CondFault.{CondFault as Fault};
ghost use Rattle.q4_cond.specs.declared.fault.CondFault.TheVariants.{Memory};
ghost use Rattle.q4_cond.specs.declared.tree.Token.{Token as Word};
ghost use Rattle.q4_cond.specs.Tree.{Tree};
ghost use Rattle.q4_cond.specs.Grammar.{IsCondition};
ghost use Rattle.q4_cond.specs.Reading.{IsRead, IsFault};

/// Tokens spell one condition at most, at whatever depths.
pub fn one_tree()
    ensures { (n m : ℕ) (tokens : List Word) (t u : Option Tree) → IsCondition n tokens t → IsCondition m tokens u → t ≡ u }
{}

/// A text reads as one condition or has one fault, want of memory apart.
pub fn one_answer()
    ensures tree { (columns : List Heading) (text : List ℕ) (t u : Option Tree) → IsRead columns text t → IsRead columns text u → t ≡ u }
    ensures no_fault { (columns : List Heading) (text : List ℕ) (t : Option Tree) (f : Fault) → IsRead columns text t → IsFault columns text f → f ≡ Memory }
    ensures one_fault { (columns : List Heading) (text : List ℕ) (f g : Fault) → IsFault columns text f → IsFault columns text g → (f ≡ g) ⊎ ((f ≡ Memory) ⊎ (g ≡ Memory)) }
{}
