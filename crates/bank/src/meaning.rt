ghost use Rattle.std.specs.Prelude.{◌≡◌, ℕ, ◌<◌, Bool, List, Result, length, ⊤};
ghost use Rattle.std.specs.List.{slice_get};
ghost use Rattle.bank.specs.declared.refusal.Refusal.{Refusal as Why};
ghost use Rattle.bank.specs.declared.request.Mode.{Mode as Way};
ghost use Rattle.bank.specs.declared.request.Request.{Request as Active};
ghost use Rattle.bank.specs.Questions.{Told, TellsAt, TellsTurnLimit, TellsRequest};
ghost use Rattle.bank.specs.Meaning.{Small, Sound, EntersBank, LeavesBank};

use crate::refusal::Refusal;
use crate::request::{Mode, Request};

/// A set of shared resources. `told` is what it tells of itself, and `active` lists for each
/// resource who is active there, as they entered. Whoever makes a bank proves the laws and these
/// contracts; whoever uses one has no more.
pub trait Bank {
    ghost told: { Self → Told };

    ghost active: { Self → ℕ → List Active };

    /// What a maker makes known, beyond the meaning, of how enter and leave change his bank. It may
    /// be nothing.
    ghost entered: { ℕ → ℕ → Way → Result Bool Why → Self → Self → Type 0 } = { λ r p m result old new. ⊤ };

    ghost left: { ℕ → ℕ → Result (Unit {0}) Why → Self → Self → Type 0 } = { λ r p result old new. ⊤ };

    /// How many resources there are, numbered from 0.
    fn resources(&self) -> u32
        ensures { result ≡ (told self.now).resources };

    /// How many may be active at one resource.
    fn seats(&self) -> u32
        ensures { result ≡ (told self.now).seats };

    /// The most holders in mode W.
    fn slots(&self, resource: u32) -> Result<u32, Refusal>
        ensures { TellsAt (told self.now) resource ((told self.now).slots resource) result };

    /// Whether the mode R is known.
    fn reads(&self, resource: u32) -> Result<bool, Refusal>
        ensures { TellsAt (told self.now) resource ((told self.now).reads resource) result };

    /// The turn limit of a known mode.
    fn turn_limit(&self, resource: u32, mode: Mode) -> Result<u32, Refusal>
        ensures { TellsTurnLimit (told self.now) resource mode result };

    /// How many are active.
    fn count(&self, resource: u32) -> Result<u32, Refusal>
        ensures { TellsAt (told self.now) resource (length (active self.now resource)) result };

    /// The request at a place of the list, counted from 0, if there is one.
    fn request_at(&self, resource: u32, place: u32) -> Result<Option<Request>, Refusal>
        ensures { TellsAt (told self.now) resource (slice_get (active self.now resource) place) result };

    /// The request of a party, if it has one.
    fn request_of(&self, resource: u32, party: u32) -> Result<Option<Request>, Refusal>
        ensures { TellsRequest (told self.now) resource party (active self.now resource) result };

    /// Adds a request; tells whether it holds.
    fn enter(&mut self, resource: u32, party: u32, mode: Mode) -> Result<bool, Refusal>
        ensures enters { EntersBank told active resource party mode result self.old self.new }
        ensures exact { entered resource party mode result self.old self.new };

    /// Removes the request of a party that holds.
    fn leave(&mut self, resource: u32, party: u32) -> Result<(), Refusal>
        ensures leaves { LeavesBank told active resource party result self.old self.new }
        ensures exact { left resource party result self.old self.new };

    ghost small: { (b : Self) → Small (told b) };

    ghost sound: { (b : Self) (r : ℕ) → r < (told b).resources → Sound (told b) r (active b r) };
}
