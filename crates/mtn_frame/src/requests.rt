//! The requests of a session.
//!
//! A request is `l`, its words and `e`; a word is its size in decimal, a colon and its bytes. Spaces and LF stand before,
//! between and behind requests. Reading goes over each byte of the input at most three times, and copies the words.
ghost use Rattle.std.specs.Prelude.{◌≡◌, ◌≤◌, ◌++◌, ◌∷◌, [], length, IfOk, IfSome, option_map};
ghost use Rattle.mtn_frame.specs.declared.requests.Request.{Request};
ghost use Rattle.mtn_frame.specs.Requests.{ReadsList, Ends, Behind, IsAll, Takes, TakesBytes, Begins, AreWordsAt, IsWordAt, IsGap, IsSmall, SizeOf, Follows, is_gap as gap_byte, is_digit as digit_byte, word_text};
ghost use Rattle.std.specs.List.{All, flat_map, prefix_len};

use mtn_base::{Bytes, List, MAX_INPUT, NoMemory};
use std::alloc::{AllocError, Global};

/// The words of a request.
#[derive(Drop)]
pub struct Request {
    pub words: List<Bytes>,
}

/// Why there is no list of requests.
#[derive(Clone, Copy, PartialEq, Eq)]
pub enum RequestStop {
    /// The first request that is not whole and right, counted from 1.
    Bad { number: u64 },
    /// Memory ran out.
    NoMemory,
}

impl From<NoMemory> for RequestStop {
    ghost use Rattle.mtn_frame.specs.declared.requests.RequestStop.TheVariants.{NoMemory};

    ghost from_gives = { λ _ e. e ≡ NoMemory };

    fn from(_: NoMemory) -> Self {
        RequestStop::NoMemory
    }
}

// The number that the digits of a size write, without leading zeros, if it is within the limit.
fn size_of(alloc: Global, digits: &[u8]) -> Result<Option<usize>, NoMemory>
    ensures { IfOk result (λ size. SizeOf digits.now size) }
{
    let Ok(text) = std::str::from_utf8(digits) else {
        return Ok(None);
    };
    let Ok(size) = text.parse::<usize>() else {
        return Ok(None);
    };
    if size > MAX_INPUT {
        return Ok(None);
    }
    let written = size.to_string(alloc)?;
    if written.as_bytes() == digits {
        Ok(Some(size))
    } else {
        Ok(None)
    }
}

fn is_digit(byte: &u8) -> bool
    ensures { result ≡ digit_byte byte.now }
{
    *byte >= 48 && *byte <= 57
}

fn is_gap(byte: &u8) -> bool
    ensures { result ≡ gap_byte byte.now }
{
    *byte == b' ' || *byte == b'\n'
}

fn count_digits(input: &[u8]) -> usize
    ensures { result ≡ prefix_len digit_byte input.now }
{
    input.iter().take_while(|byte| is_digit(byte)).count()
}

fn count_gap(input: &[u8]) -> usize
    ensures { result ≡ prefix_len gap_byte input.now }
{
    input.iter().take_while(|byte| is_gap(byte)).count()
}

// What stands behind a byte at the front.
fn behind_byte(input: &[u8], byte: u8) -> Option<&[u8]>
    ensures { Behind input.now byte (option_map (λ rest. rest.now) result) }
{
    match input {
        [first, behind @ ..] if *first == byte => Some(behind),
        _ => None,
    }
}

// The word at the front, and what stands behind it.
fn word_at<'a>(alloc: Global, input: &'a [u8]) -> Result<Option<(&'a [u8], &'a [u8])>, NoMemory>
    ensures { IfOk result (λ found. Takes (IsWordAt input.now) (option_map (λ x. (x.0.now, x.1.now)) found)) }
{
    let (digits, rest) = input.split_at(count_digits(input));
    let Some(behind) = behind_byte(rest, b':') else {
        return Ok(None);
    };
    let Some(size) = size_of(alloc, digits)? else {
        return Ok(None);
    };
    if size > behind.len() {
        return Ok(None);
    }
    Ok(Some(behind.split_at(size)))
}

// The words up to the end of a request, and how many bytes they take.
fn words_at(alloc: Global, input: &[u8]) -> Result<Option<(List<Bytes>, usize)>, NoMemory>
    ensures { IfOk result (λ found. TakesBytes (AreWordsAt input.now) input.now found) }
{
    let mut words = List::new(alloc);
    let mut rest = input;
    loop {
        match word_at(alloc, rest)? {
            Some((word, behind)) => {
                words.push(Bytes::from_slice(alloc, word)?)?;
                rest = behind;
            }
            None => return Ok(ended(words, rest, input.len())),
        }
    }
}

// The words, if the request ends here.
fn ended(words: List<Bytes>, rest: &[u8], len: usize) -> Option<(List<Bytes>, usize)>
    requires { length rest.now ≤ len }
    ensures { Ends words rest.now len result }
{
    match rest {
        [b'e', behind @ ..] if !words.as_slice().is_empty() => Some((words, len - behind.len())),
        _ => None,
    }
}

// The request at the front, behind spaces and LF, and how many bytes both take.
fn request_at(alloc: Global, input: &[u8]) -> Result<Option<(Request, usize)>, NoMemory>
    ensures { IfOk result (λ found. TakesBytes (λ (r : Request) rest. Begins input.now r.words rest) input.now found) }
{
    let gap = count_gap(input);
    let (_, rest) = input.split_at(gap);
    let Some(behind) = behind_byte(rest, b'l') else {
        return Ok(None);
    };
    match words_at(alloc, behind) {
        Ok(Some((words, taken))) => {
            let left = behind.len() - taken;
            Ok(Some((Request { words }, input.len() - left)))
        }
        Ok(None) => Ok(None),
        Err(NoMemory) => Err(NoMemory),
    }
}

/// The requests that the whole input spells, or the number of the first that is not whole and right.
pub fn read_requests(alloc: Global, input: &[u8]) -> Result<List<Request>, RequestStop>
    ensures { ReadsList input.now result }
{
    let mut requests = List::new(alloc);
    let mut rest = input;
    loop {
        match request_at(alloc, rest) {
            Ok(Some((request, taken))) => {
                requests.push(request)?;
                let (_, behind) = rest.split_at(taken);
                rest = behind;
            }
            Ok(None) => return all_of(requests, rest),
            Err(NoMemory) => return Err(RequestStop::NoMemory),
        }
    }
}

// The requests, if nothing but spaces and LF is left.
fn all_of(requests: List<Request>, rest: &[u8]) -> Result<List<Request>, RequestStop>
    ensures { IsAll requests rest.now result }
{
    if count_gap(rest) == rest.len() {
        Ok(requests)
    } else {
        Err(RequestStop::Bad {
            number: requests.as_slice().len() as u64 + 1,
        })
    }
}
