//! Laws of plays: what holds of the world that a script's lines reach.

ghost use Rattle.std.specs.Prelude.{◌≡◌, ℕ, List, map, Ok};
ghost use Rattle.vs_script.specs.{Play.Event, Script.Plays, Script.parse_of, Bounds.AreBounded};
ghost use Rattle.vs_script.specs.declared.script.Command.TheVariants as command;
ghost use Rattle.laws_world.specs.World.{Beginning};
ghost use Rattle.laws_play.specs.Headline.{IsLawful};

/// Each line of a script that `parse` reads is within the bounds of its fields.
pub fn law_of_bounds()
    ensures { (text : List ℕ) (lines : List (ℕ × Event)) → parse_of command.Play text ≡ Ok (Plays lines)
        → AreBounded (map (λ l. l.1) lines) }
{}

/// However a play begins, lines within these bounds reach a lawful world, and so do those of each script: bytes arrive in order and on
/// their own connection alone, the tables hold just the connections left open, and the credit that was given is kept (Virtio 1.2, section
/// 5.10.6).
pub fn law_of_plays()
    ensures lines { (how : Beginning) (lines : List Event) → AreBounded lines → IsLawful how lines }
    ensures scripts { (how : Beginning) (text : List ℕ) (lines : List (ℕ × Event)) → parse_of command.Play text ≡ Ok (Plays lines)
        → IsLawful how (map (λ l. l.1) lines) }
{}
