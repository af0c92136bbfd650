ghost use Rattle.std.specs.Prelude.{◌≡◌, ◌≤◌, [], ◌∷◌, length};
ghost use Rattle.std.specs.List.{slice_get};
ghost use Rattle.byte_vec.specs.Bytes.{number, Appends, Removes};

use std::marker::Model;

/// At most `N` bytes. The places behind them are 0.
#[derive(Clone, Copy, Debug, PartialEq, Eq)]
pub struct ByteVec<const N: usize> {
    places: [u8; N],
    len: usize,
}

impl<const N: usize> Model for ByteVec<N> {
    ghost use Rattle.std.specs.Prelude.{ℕ, ◌-◌, List, ◌++◌, length, take, replicate};
    ghost use Rattle.byte_vec.specs.Filled.{Filled, made_again};

    ghost Value = { List ℕ };

    ghost view = { λ v. take v.len v.places };

    ghost invariant = { λ v. Filled N v.places v.len };

    ghost inverse = { λ xs. record { places = xs ++ replicate (N - length xs) 0; len = length xs } };

    ghost inverse_ok = { λ v h. made_again (λ ps n. record { places = ps; len = n }) N v.places v.len h };
}

/// 23: there is no room for more bytes.
#[derive(Clone, Copy, Debug, PartialEq, Eq)]
pub struct Full;

impl Full {
    /// The number of the question answered no.
    pub fn number(self) -> u32
        ensures { result ≡ number self }
    {
        23
    }
}

impl<const N: usize> ByteVec<N> {
    /// No bytes.
    pub fn new() -> Self
        ensures { result ≡ [] }
    {
        ByteVec {
            places: [0; N],
            len: 0,
        }
    }

    /// How many bytes there are.
    pub fn len(&self) -> usize
        ensures value { result ≡ length self.now }
        ensures within { result ≤ N }
    {
        self.as_slice().len()
    }

    /// The bytes.
    pub fn as_slice(&self) -> &[u8]
        ensures value { result.now ≡ self.now }
        ensures within { length result.now ≤ N }
    {
        &self.places[..self.len]
    }

    /// Appends a byte; where there is no room for it, nothing changes.
    pub fn push(&mut self, byte: u8) -> Result<(), Full>
        ensures { Appends N self.old (byte ∷ []) result self.new }
    {
        self.extend_from_slice(&[byte])
    }

    /// Appends bytes; where there is no room for all of them, nothing changes.
    #[tactic(auto, using(crate::proofs::Filling::filled_more))]
    pub fn extend_from_slice(&mut self, bytes: &[u8]) -> Result<(), Full>
        ensures { Appends N self.old bytes.now result self.new }
    {
        if N - self.len < bytes.len() {
            return Err(Full);
        }
        let end = self.len + bytes.len();
        let places = &mut self.places[..];
        places[self.len..end].copy_from_slice(bytes);
        self.len = end;
        Ok(())
    }

    // Takes out the byte at a place, if there is one.
    fn take_out(&mut self, place: usize) -> Option<u8>
        ensures { Removes self.old place result self.new }
    {
        if place >= self.len {
            return None;
        }
        let byte = self.places[place];
        self.places.copy_within(place + 1..self.len, place);
        self.len -= 1;
        self.places[self.len] = 0;
        Some(byte)
    }

    /// The byte at a place goes, if there is one; those behind it move to the front by one.
    pub fn remove(&mut self, place: usize) -> Option<u8>
        ensures { Removes self.old place result self.new }
    {
        self.take_out(place)
    }
}
