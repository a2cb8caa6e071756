//! Laws of what a line says and of what it is answered, for those who prove what a text is answered. They do nothing.
ghost use Rattle.std.specs.Prelude.{◌≡◌, ℕ, List, Bool, true, false};
ghost use Rattle.walk_lines.specs.Commands.{Command, IsBad, Says};
ghost use Rattle.walk_lines.specs.Texts.{bad_text, IsAnswer, LineAnswer};

/// A line says at most one command.
pub fn law_one_command()
    ensures { (line : List ℕ) (first second : Command) → Says line first → Says line second
        → first ≡ second }
{}

/// A line that says a command is answered by the answer to that command, and is not bad.
pub fn law_said_answer()
    ensures { (number : ℕ) (line text : List ℕ) (bad : Bool) (command : Command) → Says line command
        → LineAnswer number line text bad → (bad ≡ false) × IsAnswer command text }
{}

/// A line that says no command is answered by its number, and is bad.
pub fn law_bad_answer()
    ensures { (number : ℕ) (line text : List ℕ) (bad : Bool) → IsBad line
        → LineAnswer number line text bad → (bad ≡ true) × (text ≡ bad_text number) }
{}
