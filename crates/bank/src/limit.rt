ghost use Rattle.std.specs.Prelude.{◌≡◌};
ghost use Rattle.bank.specs.Limits.{ticks_of_turns};

/// The most ticks of so many turns, by the longest length: a wait limit, where they are the turn
/// limit of a mode.
pub fn ticks_of_turns(turns: u32, longest: u16) -> u64
    ensures { result ≡ ticks_of_turns turns longest }
{
    turns as u64 * longest as u64
}
