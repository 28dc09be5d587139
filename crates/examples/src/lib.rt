#![tactic(auto)]

ghost use Rattle.std.specs.Prelude.{◌≡◌};
ghost use Rattle.examples.specs.Marked.{Marked};

// How many worked examples of the rules are proved with this function.
pub fn marked_examples() -> u8
    ensures examples { Marked }
    ensures count { result ≡ 10 }
{
    10
}
