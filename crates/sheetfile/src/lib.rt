// A reader over the bytes of a sheet file.
#![tactic(auto)]

ghost use Rattle.std.specs.Prelude.{◌≡◌, ◌≤◌, true, length, Err, MatchResult};
ghost use Rattle.std.specs.Iterator.{item_count};
ghost use Rattle.sheetfile.specs.Format.{byte, pair, switches_of, equations_of, variables_of, count_of, part_of, sound};
ghost use Rattle.sheetfile.specs.Opening.{Whole, Headed};
ghost use Rattle.sheetfile.specs.Judging.{is_whole, is_headed, opening, Refused, OneAnswer};
ghost use Rattle.sheetfile.specs.Reader.{Opens, Starts, Hands, HandsOn};
ghost use Rattle.sheetfile.specs.Letters.{Table, HoistOpens};

pub use drawing::{draw, draw_all};
pub use fault::FileFault;
use faults::Fault;
use std::marker::Model;

mod drawing;
mod fault;

// seen as its bytes and the numbers of the records that it has still to hand out
#[derive(Drop)]
pub struct SheetFile<'a> {
    bytes: &'a [u8],
    // the number of the record to hand out next, 0 at the end
    place: usize,
}

impl<'a> Model for SheetFile<'a> {
    ghost use Rattle.sheetfile.specs.Opening.{Chain};
    ghost use Rattle.sheetfile.specs.Reader.{Reader, rest_from};

    ghost Value = { Reader };

    ghost view = { λ s. record { file = s.bytes.now; rest = rest_from s.bytes.now s.place } };

    ghost invariant = { λ s. Chain s.bytes.now s.place (rest_from s.bytes.now s.place) };
}

// The byte at a place, and 0 past the end.
fn byte_at(bytes: &[u8], at: usize) -> u8
    ensures { result ≡ byte bytes.now at }
{
    bytes.get(at).copied().unwrap_or(0)
}

// The number in the first two bytes, the higher first.
fn number(part: &[u8]) -> usize
    ensures { result ≡ pair part.now }
{
    u16::from_be_bytes([byte_at(part, 0), byte_at(part, 1)]) as usize
}

fn count(bytes: &[u8]) -> usize
    ensures { result ≡ count_of bytes.now }
{
    (bytes.len() / 8).saturating_sub(1)
}

fn is_whole(bytes: &[u8]) -> bool
    ensures { result ≡ is_whole bytes.now }
{
    (8..=8192).contains(&bytes.len()) && bytes.len() % 8 == 0
}

fn is_headed(bytes: &[u8]) -> bool
    ensures { result ≡ is_headed bytes.now }
{
    byte_at(bytes, 2) <= 16
        && byte_at(bytes, 3) <= 64
        && byte_at(bytes, 4) <= 64
        && byte_at(bytes, 5) == 0
        && byte_at(bytes, 6) == 0
        && byte_at(bytes, 7) == 0
}

// Whether the eight bytes of a record ask for a call.
fn is_sound(part: &[u8]) -> bool
    ensures says { result ≡ sound part.now }
    ensures long { result ≡ true → length part.now ≡ 8 }
{
    matches!(
        part,
        [_, _, b'S' | b'N' | b'A', _, 0, 0, 0, 0]
            | [_, _, b'B' | b'E' | b'Q' | b'V', _, _, 0, 0, 0]
            | [_, _, b'O', _, _, _, _, 0]
    )
}

// The eight bytes of a record.
fn part(bytes: &[u8], number: usize) -> &[u8]
    requires some { 1 ≤ number }
    requires within { number ≤ count_of bytes.now }
    ensures { result.now ≡ part_of bytes.now number }
{
    &bytes[8 * number..8 * number + 8]
}

// Walks the chain, and gives its first number.
fn walk(bytes: &[u8]) -> Result<usize, Fault>
    requires whole { Whole bytes.now }
    requires headed { Headed bytes.now }
    ensures { MatchResult result (λ p. Starts bytes.now p) (λ e. opening bytes.now ≡ Err e) }
{
    let records = count(bytes);
    let first = number(bytes);
    if first > records {
        return Err(Fault::BadLink { record: 0 });
    }
    let mut at = first;
    for _ in 0..records + 1 {
        if at == 0 {
            return Ok(first);
        }
        let part = part(bytes, at);
        let next = number(part);
        if next > records {
            return Err(Fault::BadLink { record: at });
        }
        if !is_sound(part) {
            return Err(Fault::BadRecord { record: at });
        }
        at = next;
    }
    Err(Fault::EndlessChain)
}

impl<'a> SheetFile<'a> {
    pub fn open(bytes: &'a [u8]) -> Result<SheetFile<'a>, Fault>
        ensures { MatchResult result (λ s. Opens bytes.now s) (λ e. Refused bytes.now e) }
    {
        if !is_whole(bytes) {
            return Err(Fault::BadLength);
        }
        if !is_headed(bytes) {
            return Err(Fault::BadHeader);
        }
        let place = walk(bytes)?;
        Ok(SheetFile { bytes, place })
    }

    // How many switches the header states.
    pub fn switches(&self) -> usize
        ensures { result ≡ switches_of self.now.file }
    {
        byte_at(self.bytes, 2) as usize
    }

    // How many equations the header states.
    pub fn equations(&self) -> usize
        ensures { result ≡ equations_of self.now.file }
    {
        byte_at(self.bytes, 3) as usize
    }

    // How many variables the header states.
    pub fn variables(&self) -> usize
        ensures { result ≡ variables_of self.now.file }
    {
        byte_at(self.bytes, 4) as usize
    }

    // How many records follow the header, on the chain or off it.
    pub fn records(&self) -> usize
        ensures { result ≡ count_of self.now.file }
    {
        count(self.bytes)
    }

    // Hands out the next record's number and its eight bytes, or 0 and no byte at the end.
    pub fn step(&mut self) -> (usize, &'a [u8])
        ensures handed { Hands self.old result.0 result.1.now self.new }
        ensures same { self.new.file ≡ self.old.file }
    {
        self.next().unwrap_or((0, &[]))
    }
}

// The records still to be handed out, each with its number.
impl<'a> Iterator for SheetFile<'a> {
    type Item = (usize, &'a [u8]);

    ghost next_gives = { HandsOn };

    ghost remaining = { item_count (λ s. s.rest) };

    fn next(&mut self) -> Option<(usize, &'a [u8])> {
        let n = self.place;
        if n == 0 {
            return None;
        }
        let part = part(self.bytes, n);
        self.place = number(part);
        Some((n, part))
    }
}

// Every file has one answer.
pub fn one_answer_stands()
    ensures { OneAnswer }
{}

// A record asks for a call exactly when it says it by the table of letters, and the hoist's file opens.
pub fn letters_stand()
    ensures table { Table }
    ensures hoist { HoistOpens }
{}
