// A bank in memory that the caller lends.
ghost use Rattle.std.specs.Prelude.{◌≡◌, ℕ, ◌+◌, ◌/◌, ◌<◌, ◌≤◌, min, ◌++◌, length, slice_index};
ghost use Rattle.banks.specs.Points.{answer, wrote};
ghost use Rattle.banks.specs.Kept.{bytes_of, lending, number_at, put_at, numbers_in, spare, laid, stored};

use crate::bank::{Bank, MOST_POINTS, Reading, Writing, no_point};
use faults::Fault;

#[derive(Drop)]
pub struct Kept<'a> {
    bytes: &'a mut [u8],
}

impl<'a> Kept<'a> {
    pub fn new(bytes: &'a mut [u8]) -> Kept<'a>
        ensures value { bytes_of result ≡ bytes.old }
        ensures loan { result.bytes.ghost_name ≡ bytes.entry.ghost_name }
    {
        Kept { bytes }
    }

    // Every byte of the lent memory: the points, and after them what belongs to none.
    pub fn bytes(&self) -> &[u8]
        ensures value { result.now ≡ laid (numbers_in (bytes_of self.now)) ++ spare (bytes_of self.now) }
        ensures whole { result.now ≡ bytes_of self.now }
    {
        known(self.bytes)
    }
}

// What the type says of every byte, as a fact: the proof learns it of all where the code reads one.
fn known(bytes: &[u8]) -> &[u8]
    ensures value { result.now ≡ bytes.now }
    ensures small { (i : ℕ) → slice_index bytes.now i < 256 }
{
    if bytes.len() > 0 {
        let _first = bytes[0];
    }
    bytes
}

// The number that stands in the four bytes from `at` on. Station files have a reader and a writer of numbers of their
// own: shared, they would be public calls that have to refuse what neither crate ever asks.
fn fetch(bytes: &[u8], at: usize) -> i32
    requires { at + 4 ≤ length bytes.now }
    ensures { result ≡ number_at bytes.now at }
{
    let four = *bytes[at..].first_chunk().unwrap();
    i32::from_le_bytes(four)
}

// Puts a number into the four bytes from `at` on.
fn store(bytes: &mut [u8], at: usize, value: i32)
    requires { at + 4 ≤ length bytes.old }
    ensures { bytes.new ≡ put_at bytes.old at value }
{
    bytes[at..at + 4].copy_from_slice(&value.to_le_bytes());
}

impl<'a> Bank for Kept<'a> {
    ghost points = { λ k. numbers_in (bytes_of k) };

    ghost fixed = { lending };

    fn count(&self) -> usize
        ensures value { result ≡ length (numbers_in (bytes_of self.now)) }
        ensures few { result ≤ 64 }
        ensures fit { result ≡ min 64 (length (bytes_of self.now) / 4) }
    {
        let fours = self.bytes.len() / 4;
        fours.min(MOST_POINTS)
    }

    fn read(&self, point: usize) -> Reading {
        if point < self.count() {
            Reading {
                value: Some(fetch(self.bytes, 4 * point)),
            }
        } else {
            Reading { value: None }
        }
    }

    fn write(&mut self, point: usize, value: i32) -> Result<Writing, Fault>
        ensures value { (answer result, numbers_in (bytes_of self.new)) ≡ wrote (numbers_in (bytes_of self.old)) point value }
        ensures same { lending self.new ≡ lending self.old }
        ensures every { (answer result, bytes_of self.new) ≡ stored (bytes_of self.old) point value }
    {
        if point < self.count() {
            store(self.bytes, 4 * point, value);
            Ok(Writing { value })
        } else {
            Err(no_point(point))
        }
    }
}
