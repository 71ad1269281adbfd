//! What holds of the grammar itself.
ghost use Rattle.std.specs.Prelude.{◌≡◌, ◌⊎◌, ℕ, List};
ghost use Rattle.dali_script.specs.declared.faults.Kind.{Kind};
ghost use Rattle.dali_script.specs.declared.commands.Command.{Command};
ghost use Rattle.dali_script.specs.declared.names.Name.{Name};
ghost use Rattle.dali_script.specs.Forms.{fault_in, forms_of, refused_by};
ghost use Rattle.dali_script.specs.Grammar.{IsSpelled, IsWrong};
ghost use Rattle.dali_script.specs.Items.{Text, item_of};
ghost use Rattle.dali_script.specs.Scripts.{IsRightScript};

/// Bytes spell a script or have a first line that is wrong, and never both; there is one such script, and one such
/// line with one fault.
pub fn spelled_or_wrong()
    ensures either { (bytes : List ℕ) → ((script : List Command) × IsSpelled bytes script) ⊎ ((line : ℕ) × (kind : Kind) × IsWrong bytes line kind) }
    ensures never_both { (bytes : List ℕ) (script : List Command) (line : ℕ) (kind : Kind) → IsSpelled bytes script → IsWrong bytes line kind → ⊥ }
    ensures one_script { (bytes : List ℕ) (s t : List Command) → IsSpelled bytes s → IsSpelled bytes t → s ≡ t }
    ensures one_fault { (bytes : List ℕ) (m n : ℕ) (j k : Kind) → IsWrong bytes m j → IsWrong bytes n k → (m ≡ n) × (j ≡ k) }
{}

/// In a script that bytes spell each number is in its range, and the first command alone makes or opens a store. Of the
/// clients 1 to 64 each has at most one block in a round, and each command of a block stands where it may.
pub fn spelled_scripts_are_right()
    ensures { (bytes : List ℕ) (script : List Command) → IsSpelled bytes script → IsRightScript script }
{}

/// The forms of a command's arguments, of which the reasons of faults tell, are those by which the grammar tests them: it
/// takes arguments where they are as many as the forms and each has its form. Else the fault is their count, and then
/// that of the first one that hasn't its form.
pub fn forms_are_the_grammars()
    ensures { (name : Name) (arguments : List Text) → fault_in (item_of name arguments) ≡ refused_by (forms_of name) arguments }
{}
