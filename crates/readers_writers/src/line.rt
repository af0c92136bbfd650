ghost use Rattle.std.specs.Prelude.{◌≡◌, ◌<◌, ◌≤◌, ◌==◌, count_by, length, position, take};
ghost use Rattle.std.specs.List.{slice_get};
ghost use Rattle.bank.specs.declared.size.TheConstants.{PARTIES};
ghost use Rattle.bank.specs.Lists.{is_active, request_of};
ghost use Rattle.readers_writers.specs.Lines.{some, admits, entered, holder_of, is_holder, is_writer, holding_writer, collected, writer_holds, reads_hold, passed, turns, requests};
ghost use Rattle.readers_writers.specs.Limits.{list_of};
ghost use Rattle.readers_writers.specs.Places.{parted};

use crate::entry::Entry;
use arrayvec::ArrayVec;
use bank::request::{Mode, Request, Standing};
use bank::size::PARTIES;

/// The active requests of one resource, in order of entry.
#[derive(Debug, Default, PartialEq, Eq, Drop)]
pub struct Line {
    pub(crate) entries: ArrayVec<Entry, PARTIES>,
}

impl Line {
    /// Whether a party is active.
    #[tactic(auto, using(crate::proofs::Requests::active_entry, crate::proofs::Positions::some_is))]
    pub(crate) fn is_active(&self, party: u8) -> bool
        ensures { result ≡ is_active party (requests (list_of self.now)) }
    {
        self.place(party).is_some()
    }

    // Whether a writer is active.
    fn has_writer(&self) -> bool
        ensures { result ≡ some is_writer (list_of self.now) }
    {
        self.entries.iter().any(|e| e.is_writer())
    }

    // Whether somebody holds.
    fn is_held(&self) -> bool
        ensures { result ≡ some is_holder (list_of self.now) }
    {
        self.entries.iter().any(|e| e.holds)
    }

    // Whether a writer holds.
    fn is_writing(&self) -> bool
        ensures { result ≡ some holding_writer (list_of self.now) }
    {
        self.entries.iter().any(|e| e.holds && e.is_writer())
    }

    // Whether a read is collected.
    fn has_collected(&self) -> bool
        ensures { result ≡ some collected (list_of self.now) }
    {
        self.entries.iter().any(|e| !e.holds && !e.is_writer())
    }

    // Whether a request of this mode holds at once.
    #[tactic(auto, using(crate::proofs::PlacesLemmas::nobody))]
    fn admits(&self, mode: Mode) -> bool
        ensures { result ≡ admits (list_of self.now) mode }
    {
        match mode {
            Mode::Write => self.entries.is_empty(),
            Mode::Read => !self.has_writer(),
        }
    }

    /// Adds a request, and tells whether it holds.
    pub(crate) fn enter(&mut self, party: u8, mode: Mode) -> bool
        requires { length (list_of self.old) < PARTIES }
        ensures list { list_of self.new ≡ entered (list_of self.old) party mode }
        ensures holds { result ≡ admits (list_of self.old) mode }
    {
        let holds = self.admits(mode);
        self.entries.push(Entry { party, mode, holds });
        holds
    }

    // The place of the first writer, if there is one.
    fn writer(&self) -> Option<usize>
        ensures { result ≡ position is_writer (list_of self.now) }
    {
        self.entries.iter().position(|e| e.is_writer())
    }

    // Lets the first writer hold.
    fn writer_holds(&mut self)
        ensures { list_of self.new ≡ writer_holds (list_of self.old) }
    {
        if let Some(at) = self.writer() {
            self.entries[at].holds = true;
        }
    }

    // Lets hold who may once a holder of this mode is gone.
    fn pass(&mut self, mode: Mode)
        ensures { list_of self.new ≡ passed mode (list_of self.old) }
    {
        if self.is_held() {
            return;
        }
        if mode == Mode::Write && self.has_collected() {
            reads_hold(&mut self.entries);
        } else {
            self.writer_holds();
        }
    }

    /// The place of the first entry of a party that holds, if it holds.
    pub(crate) fn holder(&self, party: u8) -> Option<usize>
        ensures { result ≡ position (holder_of party) (list_of self.now) }
    {
        self.entries.iter().position(|e| e.is_held_by(party))
    }

    /// Takes out the holder at a place.
    pub(crate) fn leave(&mut self, at: usize)
        requires { at < length (list_of self.old) }
        ensures { list_of self.new ≡ parted (list_of self.old) at }
    {
        let gone = self.entries.remove(at);
        self.pass(gone.mode);
    }

    /// How many are active.
    #[tactic(auto, using(crate::proofs::PlacesLemmas::length_requests))]
    pub(crate) fn active(&self) -> u32
        ensures { result ≡ length (requests (list_of self.now)) }
    {
        self.entries.len() as u32
    }

    // How many hold.
    #[inline(always)]
    fn holders(&self) -> u32
        ensures { result ≡ count_by is_holder (list_of self.now) }
    {
        // a loop, which the compiler leaves out where nobody asks for the number
        let entries = self.entries.as_slice();
        let mut n: usize = 0;
        for e in entries {
            if e.holds {
                n += 1;
            }
        }
        n as u32
    }

    // How many writers stand before a place.
    #[inline(always)]
    fn writers_before(&self, at: usize) -> u32
        requires { at ≤ length (list_of self.now) }
        ensures many { result ≡ count_by is_writer (take at (list_of self.now)) }
        ensures few { result ≤ PARTIES }
    {
        // a loop, as in `holders`
        let before = &self.entries[..at];
        let mut n: usize = 0;
        for e in before {
            if e.is_writer() {
                n += 1;
            }
        }
        n as u32
    }

    /// The request at a place, if there is one.
    #[inline(always)]
    pub(crate) fn request(&self, at: usize) -> Option<Request>
        ensures { result ≡ slice_get (requests (list_of self.now)) at }
    {
        let e = *self.entries.get(at)?;
        let standing = if e.holds {
            Standing::Holds
        } else {
            Standing::Waits {
                turns: turns(self.is_writing(), self.writers_before(at), e.mode),
                departures: self.holders(),
            }
        };
        Some(Request {
            party: e.party.into(),
            mode: e.mode,
            standing,
        })
    }

    // The place of the first entry of a party, if it is active.
    fn place(&self, party: u8) -> Option<usize>
        ensures { result ≡ position (λ e. e.party == party) (list_of self.now) }
    {
        self.entries.iter().position(|e| e.party == party)
    }

    /// The request of a party, if it has one.
    #[tactic(auto, using(crate::proofs::Positions::found, crate::proofs::PlacesLemmas::request_of_lem))]
    #[inline(always)]
    pub(crate) fn request_of(&self, party: u8) -> Option<Request>
        ensures { result ≡ request_of party (requests (list_of self.now)) }
    {
        self.request(self.place(party)?)
    }
}

// Lets all reads hold.
fn reads_hold(es: &mut [Entry])
    ensures { es.new ≡ reads_hold es.old }
{
    for e in es {
        if !e.is_writer() {
            e.holds = true;
        }
    }
}

// The turns of a waiting entry with so many writers before it.
fn turns(writing: bool, before: u32, mode: Mode) -> u32
    requires { before ≤ PARTIES }
    ensures { result ≡ turns writing before mode }
{
    match mode {
        Mode::Write => { if writing { 2 * before } else { 2 * before + 1 } }
        Mode::Read => { if writing { 1 } else { 2 } }
    }
}
