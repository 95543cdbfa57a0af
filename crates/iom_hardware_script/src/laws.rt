ghost use Rattle.std.specs.Prelude.{◌≡◌, ◌<◌, ℕ, List, take};
ghost use Rattle.iom_hardware_script.specs.declared.script.HardwareLine.{HardwareLine};
ghost use Rattle.iom_hardware_script.specs.declared.script.HardwareScript.{HardwareScript};
ghost use Rattle.iom_hardware_script.specs.Grammar.{IsHardwareLine, IsHardwareScript, IsFirstBadHardwareLine};

/// A law of the grammar: a line says one thing at most; bytes are one script at most, have one first bad line at
/// most, and not both.
pub fn hardware_grammar_is_exact()
    ensures one_line { (line : List ℕ) (a b : HardwareLine) → IsHardwareLine line a → IsHardwareLine line b → a ≡ b }
    ensures one_script { (bytes : List ℕ) (s t : HardwareScript) → IsHardwareScript bytes s → IsHardwareScript bytes t → s ≡ t }
    ensures one_fault { (bytes : List ℕ) (m n : ℕ) → IsFirstBadHardwareLine bytes m → IsFirstBadHardwareLine bytes n → m ≡ n }
    ensures not_both { (bytes : List ℕ) (s : HardwareScript) (n : ℕ) → IsHardwareScript bytes s → ¬ IsFirstBadHardwareLine bytes n }
{}

/// A law of the grammar: where more bytes are read than a script may have, those that are read are enough, both to
/// see whether all are a script and to find their first bad line.
pub fn one_byte_past_a_hardware_script_is_enough()
    ensures script { (bytes : List ℕ) (read : ℕ) (s : HardwareScript) → 1048576 < read → IsHardwareScript (take read bytes) s → IsHardwareScript bytes s }
    ensures fault { (bytes : List ℕ) (read n : ℕ) → 1048576 < read → IsFirstBadHardwareLine (take read bytes) n → IsFirstBadHardwareLine bytes n }
{}
